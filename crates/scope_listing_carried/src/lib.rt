// The two listings of a resolver's bindings as iterators that carry the resolver: `NamespaceBindingsIter` and
// `NamespaceBindingsOfLevelIter` of src/name.rs, with `bindings` and `bindings_of` of `NamespaceResolver`, which make them.
//
// The work is the plain listings', in the crate `scope_listing`: a step takes the struct apart and puts the place that
// comes back in its place. The resolver goes there by value: whoever lists often lends its memory to `bindings_in` and
// `bindings_of_in`.
#![tactic(auto)]

ghost use Rattle.std.specs.Prelude.{◌≡◌};
ghost use Rattle.scope_listing.specs.Listing.{listed_numbers};
ghost use Rattle.scope_listing_carried.specs.Listings.{in_effect_on, level_on, listed_on, listed_on_level, after_shown, after_shown_at};

use scope_listing::Binding;
use scope_table::{FormError, NamespaceResolver};

// A resolver, and the place where its listing goes on.
#[derive(Clone, Copy)]
pub struct NamespaceBindingsIter<'a> {
    pub resolver: &'a NamespaceResolver,
    pub cursor: usize,
}

// The same for the bindings of one level.
#[derive(Clone, Copy)]
pub struct NamespaceBindingsOfLevelIter<'a> {
    pub resolver: &'a NamespaceResolver,
    pub cursor: usize,
    pub level: u16,
}

// The bindings in effect: `NamespaceResolver::bindings`. The first two records are the built-in ones, which are not shown.
pub fn bindings<'a>(resolver: &'a NamespaceResolver) -> NamespaceBindingsIter<'a>
    ensures { result ≡ in_effect_on resolver.entry }
{
    NamespaceBindingsIter {
        resolver,
        cursor: 2,
    }
}

// The bindings of a level: `NamespaceResolver::bindings_of`.
pub fn bindings_of<'a>(
    resolver: &'a NamespaceResolver,
    level: u16,
) -> NamespaceBindingsOfLevelIter<'a>
    ensures { result ≡ level_on resolver.entry level }
{
    NamespaceBindingsOfLevelIter {
        resolver,
        cursor: 0,
        level,
    }
}

impl<'a> NamespaceBindingsIter<'a> {
    // The next binding, and the iterator moves on past it: `next` of the `Iterator` that this is.
    pub fn next(&mut self) -> Result<Option<Binding>, FormError>
        ensures { (listed_numbers result ≡ listed_numbers (listed_on self.old).answer) × (self.new ≡ after_shown self.old) }
    {
        let found = scope_listing::bindings(*self.resolver, self.cursor);
        self.cursor = found.place;
        found.answer
    }
}

impl<'a> NamespaceBindingsOfLevelIter<'a> {
    // The next binding of the level, and the iterator moves on past it: `next` of the `Iterator` that this is.
    pub fn next(&mut self) -> Result<Option<Binding>, FormError>
        ensures { (listed_numbers result ≡ listed_numbers (listed_on_level self.old).answer) × (self.new ≡ after_shown_at self.old) }
    {
        let found = scope_listing::bindings_of(*self.resolver, self.level, self.cursor);
        self.cursor = found.place;
        found.answer
    }
}
