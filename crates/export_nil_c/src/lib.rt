// What the static library exports of what stands on both the iterator and the resolver, and of what one value says, for Rust or C
// to link: the functions of crates/export_nil under the same names, with the same contracts. A slice passes as pointer and
// length, an array of fixed length as its pointer alone.
#![tactic(auto)]

ghost use Rattle.std.specs.Prelude.{◌≡◌};
ghost use Rattle.tag_parts.specs.Parts.{truth_of, truth_number};
ghost use Rattle.export_nil.specs.Search.{nil_end, has_nil_by};

// `export_nil::mz_as_bool`.
#[unsafe(no_mangle)]
pub extern "C" fn mz_as_bool(value: &[u8]) -> usize
    ensures { result ≡ truth_number (truth_of value.now) }
{
    export_nil::mz_as_bool(value)
}

// `export_nil::mz_has_nil`.
#[unsafe(no_mangle)]
pub extern "C" fn mz_has_nil<'k, 't>(
    text: &'t [u8],
    records: &'t [usize],
    head: &'t [usize; 4],
    tag: &[u8],
    key_starts: &'k mut [usize],
    key_ends: &'k mut [usize],
    key_hashes: &'k mut [u32],
    state: &mut [usize; 4],
    html: bool,
    checks: bool,
) -> usize
    ensures { nil_end result key_starts.new key_ends.new key_hashes.new state.new
        ≡ has_nil_by text.now records.now head.now tag.now
        key_starts.old key_ends.old key_hashes.old state.old html checks }
{
    export_nil::mz_has_nil(
        text, records, head, tag, key_starts, key_ends, key_hashes, state, html, checks,
    )
}
