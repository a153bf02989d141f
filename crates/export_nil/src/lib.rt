// What the static library exports of what stands on both the iterator and the resolver: `has_nil`; and what one value says
// (crates/export_nil_c). Each function hands what it is lent on to the crate that has the rule, and answers by a number; none asks
// anything of its caller.
#![tactic(auto)]

ghost use Rattle.std.specs.Prelude.{◌≡◌};
ghost use Rattle.tag_parts.specs.Parts.{truth_of, truth_number};
ghost use Rattle.export_nil.specs.Search.{nil_end, has_nil_by};

use tag_step::Standing;

// What a value says: `tag_parts::as_bool`. 0 a no, 1 a yes, 2 neither.
pub fn mz_as_bool(value: &[u8]) -> usize
    ensures { result ≡ truth_number (truth_of value.now) }
{
    tag_parts::truth_number(tag_parts::as_bool(value))
}

// Whether an attribute from here on says that the element is nil: `scope_nil::has_nil_in`. The resolver is lent as to
// `mz_resolve`, the iterator as to `mz_read_batch`, but that its fourth number is left alone; it is left after the attribute
// that was a yes, or after the end. 0 no, 1 yes, 7, 20, 98, 99.
pub fn mz_has_nil<'k, 't>(
    text: &'t [u8],
    records: &'t [usize],
    head: &'t [usize; 4],
    tag: &[u8],
    key_starts: &'k mut [usize],
    key_ends: &'k mut [usize],
    key_hashes: &'k mut [u32],
    state: &mut [usize; 4],
    html: bool,
    checks: bool,
) -> usize
    ensures { nil_end result key_starts.new key_ends.new key_hashes.new state.new
        ≡ has_nil_by text.now records.now head.now tag.now
        key_starts.old key_ends.old key_hashes.old state.old html checks }
{
    let h = export_memory::head_from(head);
    let place = export_cursor::place_from(tag.len(), state[0], state[1]);
    let at = Standing {
        place,
        html,
        checks,
        count: state[2],
    };
    let out = scope_nil::has_nil_in(tag, key_starts, key_ends, key_hashes, at, text, records, h);
    let left = out.place;
    export_cursor::settle(state, place, left, out.count);
    scope_nil::nil_number(out.answer)
}
