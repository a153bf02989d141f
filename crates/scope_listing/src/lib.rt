// Listing a resolver's bindings: `bindings` and `bindings_of` of `NamespaceResolver`, and one step of their iterators,
// src/name.rs.
//
// `bindings_in` and `bindings_of_in` take lent memory, `bindings` and `bindings_of` a resolver by value. These four test the
// form of the resolver first (refusal 20); what they call asks for it, and what takes an answer has no resolver to test.
#![tactic(auto)]

ghost use Rattle.std.specs.Prelude.{◌≡◌, Err, ◌<◌, [], ◌∷◌, length, eqb};
ghost use Rattle.scan.specs.First.{pick};
ghost use Rattle.scope_table.specs.Records.{record_at};
ghost use Rattle.scope_table.specs.Table.{TEXT};
ghost use Rattle.scope_table.specs.Lent.{lent};
ghost use Rattle.scope_lookup.specs.Inside.{Inside};
ghost use Rattle.scope_lookup.specs.Lookup.{has_prefix, counted};
ghost use Rattle.scope_listing.specs.Listing.{Rising, listing, listed_numbers, numbered_listing, lined_up, in_effect, at_level, found_to, shown_at, past_built_in, bindings_of, bindings_at_of};
ghost use Rattle.scope_table.specs.declared.FormError.TheVariants.{WrongLength};

use scope_table::{FormError, Head, NamespaceBinding, NamespaceResolver};

// A binding by its bounds in the resolver's text: where its prefix starts, where that ends and its value starts, and where that
// ends. A default has no prefix, so its first two are equal.
#[derive(Clone, Copy)]
pub struct Binding {
    pub prefix_from: usize,
    pub value_from: usize,
    pub value_to: usize,
}

// What a listing shows, a binding or its end, and the place to go on from. Refusals are those of the resolver.
#[derive(Clone, Copy)]
pub struct Listing {
    pub answer: Result<Option<Binding>, FormError>,
    pub place: usize,
}

// What a listing shows as numbers, for a function that can hand out no enum: the number of the answer, and the bounds of
// prefix and value, 0 where there are none.
#[derive(Clone, Copy)]
pub struct LinedUp {
    pub number: usize,
    pub prefix_from: usize,
    pub prefix_to: usize,
    pub value_from: usize,
    pub value_to: usize,
}

// The first record at or after `from` with this prefix.
fn first_with<'t, 'n>(
    text: &'t [u8],
    records: &'t [usize],
    from: usize,
    count: usize,
    prefix: &'n [u8],
) -> Option<usize>
    requires { Inside records.now count (length text.now) }
    ensures { result ≡ found_to (λ j. has_prefix text.now prefix.now (record_at records.now j)) from count }
{
    for i in from..count {
        let b = scope_table::record_at(records, i);
        if scan::same(b.prefix(text), prefix) {
            return Some(i);
        }
    }
    None
}

// Whether a binding is in effect: `NamespaceBindingsIter::next`, src/name.rs, for one record.
fn in_effect<'t>(text: &'t [u8], records: &'t [usize], count: usize, i: usize) -> bool
    requires { (i < count) × Inside records.now count (length text.now) }
    ensures { result ≡ in_effect text.now (record_at records.now) count i }
{
    let b = scope_table::record_at(records, i);
    if b.value_len == 0 {
        return false;
    }
    first_with(text, records, i + 1, count, b.prefix(text)).is_none()
}

// Whether a binding is one of this level, and not empty: `NamespaceBindingsOfLevelIter::next`, src/name.rs, for one record.
#[tactic(auto, unfolding(crate::specs::Listing::at_level, crate::specs::Listing::has_value))]
fn at_level(b: NamespaceBinding, asked: usize) -> bool
    ensures { result ≡ at_level asked b }
{
    b.level == asked && b.value_len != 0
}

// The first binding in effect at or after `from`.
fn first_in_effect<'t>(
    text: &'t [u8],
    records: &'t [usize],
    from: usize,
    count: usize,
) -> Option<usize>
    requires { Inside records.now count (length text.now) }
    ensures { result ≡ found_to (in_effect text.now (record_at records.now) count) from count }
{
    for i in from..count {
        if in_effect(text, records, count, i) {
            return Some(i);
        }
    }
    None
}

// The first nonempty binding of this level at or after `from`. Levels never fall along the table, so the first higher one
// ends the search, as it does in the crate.
fn first_at_level(records: &[usize], asked: usize, from: usize, count: usize) -> Option<usize>
    requires { Rising records.now count }
    ensures { result ≡ found_to (λ i. at_level asked (record_at records.now i)) from count }
{
    for i in from..count {
        let b = scope_table::record_at(records, i);
        if asked < b.level {
            return None;
        }
        if at_level(b, asked) {
            return Some(i);
        }
    }
    None
}

// A record that was found is shown, and the place put past it; else this is the end, and the place stays.
#[tactic(auto, unfolding(crate::specs::Listing::shown_of))]
fn shown(records: &[usize], found: Option<usize>, place: usize) -> Listing
    requires { Inside records.now (counted found) TEXT }
    ensures { result ≡ shown_at (record_at records.now) found place }
{
    let Some(i) = found else {
        return Listing {
            answer: Ok(None),
            place,
        };
    };
    let b = scope_table::record_at(records, i);
    let middle = b.start + b.prefix_len;
    let binding = Binding {
        prefix_from: b.start,
        value_from: middle,
        value_to: middle + b.value_len,
    };
    Listing {
        answer: Ok(Some(binding)),
        place: i + 1,
    }
}

// 2 for a place below it: `bindings` never shows the built-ins.
#[tactic(auto, unfolding(crate::specs::Listing::past_built_in))]
fn past_built_in(place: usize) -> usize
    ensures { result ≡ past_built_in place }
{
    place.max(2)
}

// The numbers of what a listing shows.
#[tactic(auto, unfolding(crate::specs::Listing::listed_numbers))]
pub fn listed_numbers(shown: Result<Option<Binding>, FormError>) -> LinedUp
    ensures { result ≡ lined_up (listed_numbers shown) }
{
    match shown {
        Ok(Some(b)) => lined_up(kind(b), b.prefix_from, b.value_from, b.value_to),
        Ok(None) => lined_up(0, 0, 0, 0),
        Err(FormError::BadResolver) => lined_up(20, 0, 0, 0),
        Err(FormError::WrongLength) => lined_up(99, 0, 0, 0),
    }
}

// 1 for a default, whose prefix ends where it starts, and 2 for a named binding.
fn kind(b: Binding) -> usize
    ensures { result ≡ pick (eqb b.prefix_from b.value_from) 1 2 }
{
    if b.prefix_from == b.value_from { 1 } else { 2 }
}

fn lined_up(number: usize, from: usize, middle: usize, to: usize) -> LinedUp
    ensures { result ≡ lined_up (number ∷ from ∷ middle ∷ middle ∷ to ∷ []) }
{
    LinedUp {
        number,
        prefix_from: from,
        prefix_to: middle,
        value_from: middle,
        value_to: to,
    }
}

// `NamespaceResolver::bindings`, src/name.rs, and one step of its iterator, on lent memory.
pub fn bindings_in<'t>(text: &'t [u8], records: &'t [usize], head: Head, place: usize) -> Listing
    ensures { result ≡ lent (listing (Err WrongLength) place) (bindings_of place) text.now records.now head }
{
    if let Err(why) = scope_table::form_in(text, records, head) {
        return Listing {
            answer: Err(why),
            place,
        };
    }
    let from = past_built_in(place);
    let found = first_in_effect(text, records, from, head.count);
    shown(records, found, place)
}

// `NamespaceResolver::bindings_of`, src/name.rs, and one step of its iterator, on lent memory.
pub fn bindings_of_in<'t>(
    text: &'t [u8],
    records: &'t [usize],
    head: Head,
    asked: u16,
    place: usize,
) -> Listing
    ensures { result ≡ lent (listing (Err WrongLength) place) (bindings_at_of asked place) text.now records.now head }
{
    if let Err(why) = scope_table::form_in(text, records, head) {
        return Listing {
            answer: Err(why),
            place,
        };
    }
    let found = first_at_level(records, asked as usize, place, head.count);
    shown(records, found, place)
}

// `NamespaceResolver::bindings`, src/name.rs: what it shows first at or after a place.
pub fn bindings(r: NamespaceResolver, place: usize) -> Listing
    ensures { numbered_listing result ≡ numbered_listing (bindings_of place r) }
{
    let head = r.head;
    bindings_in(&r.text, &r.records, head, place)
}

// `NamespaceResolver::bindings_of`, src/name.rs: what it shows first at or after a place.
pub fn bindings_of(r: NamespaceResolver, asked: u16, place: usize) -> Listing
    ensures { numbered_listing result ≡ numbered_listing (bindings_at_of asked place r) }
{
    let head = r.head;
    bindings_of_in(&r.text, &r.records, head, asked, place)
}
