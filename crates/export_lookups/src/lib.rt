// What the static library exports of a resolver to ask it (crates/export_lookups_c), for Rust or C to link. Each function hands what it
// is lent on to the crate that has the rule, and answers by numbers; none asks anything of its caller.
#![tactic(auto)]

ghost use Rattle.std.specs.Prelude.{◌≡◌, Err};
ghost use Rattle.scope_table.specs.Lent.{lent};
ghost use Rattle.scope_lookup.specs.Lookup.{resolved_numbers, resolve_of};
ghost use Rattle.scope_table.specs.declared.FormError.TheVariants as Why;
ghost use Rattle.scope_listing.specs.Listing.{listing, bindings_of, bindings_at_of};
ghost use Rattle.export_memory.specs.Boundary.{head_in, asked, ask_in};
ghost use Rattle.export_lookups.specs.Listings.{listed_by};

use scope_listing::Listing;

// What a name resolves to: `scope_lookup::resolve_in`. 0 Unbound, 1 Bound with the URI's bounds in the text, 2 Unknown with the
// prefix's bounds in the name, 20, 99.
pub fn mz_resolve<'t, 'n>(
    text: &'t [u8],
    records: &'t [usize],
    head: &'t [usize; 4],
    name: &'n [u8],
    use_default: bool,
    detail: &mut [usize; 2],
) -> usize
    ensures { asked result detail.new
        ≡ ask_in (resolved_numbers (lent (Err Why.WrongLength) (resolve_of name.now use_default) text.now records.now (head_in head.now)))
        detail.old }
{
    let h = export_memory::head_from(head);
    let found = scope_lookup::resolve_in(text, records, h, name, use_default);
    export_memory::tell(detail, scope_lookup::resolved_numbers(found))
}

// Writes what a listing shows, and gives its number.
fn list(detail: &mut [usize; 5], shown: Listing) -> usize
    ensures { asked result detail.new ≡ listed_by shown detail.old }
{
    let answer = shown.answer;
    let five = scope_listing::listed_numbers(answer);
    detail[0] = five.prefix_from;
    detail[1] = five.prefix_to;
    detail[2] = five.value_from;
    detail[3] = five.value_to;
    detail[4] = shown.place;
    five.number
}

// The first binding in effect at or after a place: `scope_listing::bindings_in`. 0 the end, 1 a default, 2 a named one, with the
// bounds of prefix and value in the text and the place to go on from; 20, 99.
pub fn mz_binding<'t>(
    text: &'t [u8],
    records: &'t [usize],
    head: &'t [usize; 4],
    place: usize,
    detail: &mut [usize; 5],
) -> usize
    ensures { asked result detail.new
        ≡ listed_by (lent (listing (Err Why.WrongLength) place) (bindings_of place) text.now records.now (head_in head.now))
        detail.old }
{
    let h = export_memory::head_from(head);
    list(detail, scope_listing::bindings_in(text, records, h, place))
}

// The same of the bindings of one level: `scope_listing::bindings_of_in`.
pub fn mz_binding_of<'t>(
    text: &'t [u8],
    records: &'t [usize],
    head: &'t [usize; 4],
    level: u16,
    place: usize,
    detail: &mut [usize; 5],
) -> usize
    ensures { asked result detail.new
        ≡ listed_by (lent (listing (Err Why.WrongLength) place) (bindings_at_of level place) text.now records.now (head_in head.now))
        detail.old }
{
    let h = export_memory::head_from(head);
    list(
        detail,
        scope_listing::bindings_of_in(text, records, h, level, place),
    )
}
