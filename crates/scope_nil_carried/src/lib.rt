// `has_nil` of the iterator that carries its tag: `Attributes::has_nil`, src/events/attributes.rs.
//
// The search is the plain iterator's, in the crate `scope_nil`: the struct is taken apart, and the state that the search leaves is
// put in its place. The resolver goes there by value: whoever asks of many tags lends its memory to `has_nil_in`. It is apart
// from the crate `tag_carried`, which knows nothing of scopes.
#![tactic(auto)]

ghost use Rattle.std.specs.Prelude.{◌≡◌};
ghost use Rattle.scope_nil.specs.Nil.{nil_number};
ghost use Rattle.scope_nil_carried.specs.NilHeld.{said_of, after_nil};

use scope_nil::NilError;
use scope_table::NamespaceResolver;
use tag_carried::Attributes;

// Whether an attribute from here on says that the element is nil, and the iterator moves on past it or to the end.
pub fn has_nil<'s, 'a, 'r>(
    it: &'s mut Attributes<'a>,
    resolver: &'r NamespaceResolver,
) -> Result<bool, NilError>
    ensures { (nil_number result ≡ nil_number (said_of it.old resolver.now)) × (it.new ≡ after_nil it.old resolver.now) }
{
    let found = scope_nil::has_nil(it.state, it.tag, *resolver);
    it.state = found.state;
    found.answer
}
