// What the static library exports of a resolver to ask it, for Rust or C to link: the functions of crates/export_lookups under the
// same names, with the same contracts. A slice passes as pointer and length, an array of fixed length as its pointer alone.
#![tactic(auto)]

ghost use Rattle.std.specs.Prelude.{◌≡◌, Err};
ghost use Rattle.scope_table.specs.Lent.{lent};
ghost use Rattle.scope_lookup.specs.Lookup.{resolved_numbers, resolve_of};
ghost use Rattle.scope_table.specs.declared.FormError.TheVariants as Why;
ghost use Rattle.scope_listing.specs.Listing.{listing, bindings_of, bindings_at_of};
ghost use Rattle.export_memory.specs.Boundary.{head_in, asked, ask_in};
ghost use Rattle.export_lookups.specs.Listings.{listed_by};

// `export_lookups::mz_resolve`.
#[unsafe(no_mangle)]
pub extern "C" fn mz_resolve<'t, 'n>(
    text: &'t [u8],
    records: &'t [usize],
    head: &'t [usize; 4],
    name: &'n [u8],
    use_default: bool,
    detail: &mut [usize; 2],
) -> usize
    ensures { asked result detail.new
        ≡ ask_in (resolved_numbers (lent (Err Why.WrongLength) (resolve_of name.now use_default) text.now records.now (head_in head.now)))
        detail.old }
{
    export_lookups::mz_resolve(text, records, head, name, use_default, detail)
}

// `export_lookups::mz_binding`.
#[unsafe(no_mangle)]
pub extern "C" fn mz_binding<'t>(
    text: &'t [u8],
    records: &'t [usize],
    head: &'t [usize; 4],
    place: usize,
    detail: &mut [usize; 5],
) -> usize
    ensures { asked result detail.new
        ≡ listed_by (lent (listing (Err Why.WrongLength) place) (bindings_of place) text.now records.now (head_in head.now))
        detail.old }
{
    export_lookups::mz_binding(text, records, head, place, detail)
}

// `export_lookups::mz_binding_of`.
#[unsafe(no_mangle)]
pub extern "C" fn mz_binding_of<'t>(
    text: &'t [u8],
    records: &'t [usize],
    head: &'t [usize; 4],
    level: u16,
    place: usize,
    detail: &mut [usize; 5],
) -> usize
    ensures { asked result detail.new
        ≡ listed_by (lent (listing (Err Why.WrongLength) place) (bindings_at_of level place) text.now records.now (head_in head.now))
        detail.old }
{
    export_lookups::mz_binding_of(text, records, head, level, place, detail)
}
