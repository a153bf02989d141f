// The forms over references, called on a local of the caller's own: so the replays, whose functions hand plain values on,
// run them. What a function is given is copied into a local, which is lent for the call, and what it then holds is handed
// back beside the answer. So each answers and leaves what the form by value does, and its contract is that form's.
#![tactic(auto)]

ghost use Rattle.std.specs.Prelude.{◌≡◌, true, false};
ghost use Rattle.tag_step.specs.Next.{next_of, opened};
ghost use Rattle.scope_nil.specs.Nil.{has_nil_of};
ghost use Rattle.scope_listing.specs.Listing.{bindings_of, bindings_at_of};
ghost use Rattle.scope_change.specs.Change.{level_of};
ghost use Rattle.scope_declare.specs.Declare.{add_of, pop_of, limited_of};
ghost use Rattle.scope_push.specs.Push.{push_of};

use name::PrefixDeclaration;
use scope_listing::Listing;
use scope_nil::HasNil;
use scope_table::{Changed, NamespaceResolver};
use tag_carried::Attributes;
use tag_step::{IterState, Step};

#[tactic(auto, using(scope_table::proofs::Answers::change_apart))]
pub fn set_level(mut r: NamespaceResolver, level: u16) -> Changed
    ensures { result ≡ level_of level r }
{
    let answer = scope_in_place::set_level(&mut r, level);
    Changed {
        answer,
        resolver: r,
    }
}

#[tactic(auto, using(scope_table::proofs::Answers::change_apart))]
pub fn pop(mut r: NamespaceResolver) -> Changed
    ensures { result ≡ pop_of r }
{
    let answer = scope_in_place::pop(&mut r);
    Changed {
        answer,
        resolver: r,
    }
}

#[tactic(auto, using(scope_table::proofs::Answers::change_apart))]
pub fn push(mut r: NamespaceResolver, tag: &[u8], from: usize) -> Changed
    ensures { result ≡ push_of tag.now from r }
{
    let answer = scope_in_place::push(&mut r, tag, from);
    Changed {
        answer,
        resolver: r,
    }
}

#[tactic(auto, using(scope_table::proofs::Answers::change_apart))]
pub fn add(
    mut r: NamespaceResolver,
    declares: Option<PrefixDeclaration>,
    prefix: &[u8],
    value: &[u8],
) -> Changed
    ensures { result ≡ add_of declares prefix.now value.now r }
{
    let answer = scope_in_place::add(&mut r, declares, prefix, value);
    Changed {
        answer,
        resolver: r,
    }
}

pub fn set_max_namespace_bindings(mut r: NamespaceResolver, limit: usize) -> NamespaceResolver
    ensures { result ≡ limited_of limit r }
{
    scope_in_place::set_max_namespace_bindings(&mut r, limit);
    r
}

// `Attributes::new` and then `Attributes::with_checks`: the state of the iterator that they leave.
pub fn opened(tag: &[u8], pos: usize, checks: bool) -> IterState
    ensures { result ≡ opened pos false checks }
{
    let mut it = Attributes::new(tag, pos);
    it.with_checks(checks);
    it.state
}

// `Attributes::html` and then `Attributes::with_checks`.
pub fn opened_html(tag: &[u8], pos: usize, checks: bool) -> IterState
    ensures { result ≡ opened pos true checks }
{
    let mut it = Attributes::html(tag, pos);
    it.with_checks(checks);
    it.state
}

// `Attributes::next`.
pub fn next(state: IterState, tag: &[u8]) -> Step
    ensures { result ≡ next_of tag.now state }
{
    let mut it = Attributes { tag, state };
    let answer = it.next();
    Step {
        answer,
        state: it.state,
    }
}

// `scope_nil_carried::has_nil`.
pub fn has_nil(state: IterState, tag: &[u8], resolver: NamespaceResolver) -> HasNil
    ensures { result ≡ has_nil_of tag.now state resolver }
{
    let mut it = Attributes { tag, state };
    let answer = scope_nil_carried::has_nil(&mut it, &resolver);
    HasNil {
        answer,
        state: it.state,
    }
}

// `scope_listing_carried::bindings`, and `NamespaceBindingsIter::next` where the iterator is put at a place.
pub fn bindings(r: NamespaceResolver, cursor: usize) -> Listing
    ensures { result ≡ bindings_of cursor r }
{
    let mut it = scope_listing_carried::bindings(&r);
    it.cursor = cursor;
    let answer = it.next();
    Listing {
        answer,
        place: it.cursor,
    }
}

// `scope_listing_carried::bindings_of`, and `NamespaceBindingsOfLevelIter::next` in the same way.
pub fn bindings_of(r: NamespaceResolver, level: u16, cursor: usize) -> Listing
    ensures { result ≡ bindings_at_of level cursor r }
{
    let mut it = scope_listing_carried::bindings_of(&r, level);
    it.cursor = cursor;
    let answer = it.next();
    Listing {
        answer,
        place: it.cursor,
    }
}
