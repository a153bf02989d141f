// What the static library exports to look up all the names of a tag in one call, for Rust or C to link: the function of
// crates/export_names under the same name, with the same contract. It stands apart from the other calls that ask a resolver, so
// that the lookup has one caller here and is compiled into the loop over the names. A slice passes as pointer and length, an
// array of fixed length as its pointer alone.
#![tactic(auto)]

ghost use Rattle.std.specs.Prelude.{◌≡◌};
ghost use Rattle.export_names.specs.Names.{names, many_in};

// `export_names::mz_resolve_all`.
#[unsafe(no_mangle)]
pub extern "C" fn mz_resolve_all<'t, 'n>(
    text: &'t [u8],
    records: &'t [usize],
    head: &'t [usize; 4],
    tag: &'n [u8],
    from: &'n [usize],
    to: &'n [usize],
    elements: usize,
    kinds: &mut [usize],
    begins: &mut [usize],
    ends: &mut [usize],
) -> usize
    ensures { names result kinds.new begins.new ends.new
        ≡ many_in tag.now from.now to.now elements kinds.old begins.old ends.old
        text.now records.now head.now }
{
    export_names::mz_resolve_all(
        text, records, head, tag, from, to, elements, kinds, begins, ends,
    )
}
