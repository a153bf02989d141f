// The changing calls of `NamespaceResolver` (src/name.rs) in the form of the crate: each acts directly on the caller's own
// resolver.
//
// Each is thin: the resolver behind the reference goes to the call by value, the resolver that comes back is put in its
// place, and the answer is handed on. So every rule stands once, with the calls by value, and a refusal leaves here what
// it leaves there.
#![tactic(auto)]

ghost use Rattle.std.specs.Prelude.{◌≡◌};
ghost use Rattle.scope_table.specs.Answer.{changed, numbered_change};
ghost use Rattle.scope_change.specs.Change.{level_of};
ghost use Rattle.scope_declare.specs.Declare.{add_of, pop_of, limited_of};
ghost use Rattle.scope_push.specs.Push.{push_of};

use name::PrefixDeclaration;
use scope_table::{NamespaceError, NamespaceResolver};

// `NamespaceResolver::set_level`, src/name.rs.
pub fn set_level(r: &mut NamespaceResolver, level: u16) -> Result<(), NamespaceError>
    ensures { numbered_change (changed result r.new) ≡ numbered_change (level_of level r.old) }
{
    let c = scope_declare::set_level(*r, level);
    *r = c.resolver;
    c.answer
}

// `NamespaceResolver::pop`, src/name.rs.
pub fn pop(r: &mut NamespaceResolver) -> Result<(), NamespaceError>
    ensures { numbered_change (changed result r.new) ≡ numbered_change (pop_of r.old) }
{
    let c = scope_declare::pop(*r);
    *r = c.resolver;
    c.answer
}

// `NamespaceResolver::push`, src/name.rs. The attributes of the tag begin at `from`.
pub fn push(r: &mut NamespaceResolver, tag: &[u8], from: usize) -> Result<(), NamespaceError>
    ensures { numbered_change (changed result r.new) ≡ numbered_change (push_of tag.now from r.old) }
{
    let c = scope_push::push(*r, tag, from);
    *r = c.resolver;
    c.answer
}

// `NamespaceResolver::add`, src/name.rs.
pub fn add<'a>(
    r: &mut NamespaceResolver,
    declares: Option<PrefixDeclaration>,
    prefix: &'a [u8],
    value: &'a [u8],
) -> Result<(), NamespaceError>
    ensures { numbered_change (changed result r.new) ≡ numbered_change (add_of declares prefix.now value.now r.old) }
{
    let c = scope_declare::add(*r, declares, prefix, value);
    *r = c.resolver;
    c.answer
}

// `NamespaceResolver::set_max_namespace_bindings`, src/name.rs.
pub fn set_max_namespace_bindings(r: &mut NamespaceResolver, limit: usize)
    ensures { r.new ≡ limited_of limit r.old }
{
    let x = scope_declare::set_max_namespace_bindings(*r, limit);
    *r = x;
}
