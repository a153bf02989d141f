// What the static library exports of names and tags (crates/export_tags_c), for Rust or C to link. Each function hands
// its slices on to the crate that has the rule, and answers by a number or a bool; none asks anything of its caller.
#![tactic(auto)]

ghost use Rattle.std.specs.Prelude.{◌≡◌};
ghost use Rattle.name.specs.Split.{colon_at};
ghost use Rattle.name.specs.Reserved.{is_xml, is_xmlns};
ghost use Rattle.name.specs.Declares.{declares_of, declares_number};
ghost use Rattle.name.specs.Verdict.{verdict_of, verdict_number};
ghost use Rattle.export_tags.specs.Reading.{batch_end, read_batch_of};

use tag_step::Standing;

// No number of answers.
const NONE: usize = usize::MAX;

// The index of the first colon, or the length where there is none.
pub fn mz_split(name: &[u8]) -> usize
    ensures { result ≡ colon_at name.now }
{
    name::colon_at(name)
}

// What a name declares: 0 nothing, 1 the default, 2 a prefix, which is the name from index 6 on.
pub fn mz_declares(name: &[u8]) -> usize
    ensures { result ≡ declares_number (declares_of name.now) }
{
    name::declares_number(name::as_namespace_binding(name))
}

// Whether a prefix is `xml`.
pub fn mz_is_xml(prefix: &[u8]) -> bool
    ensures { result ≡ is_xml prefix.now }
{
    name::is_xml(prefix)
}

// Whether a prefix is `xmlns`.
pub fn mz_is_xmlns(prefix: &[u8]) -> bool
    ensures { result ≡ is_xmlns prefix.now }
{
    name::is_xmlns(prefix)
}

// The verdict on an attribute as a declaration, by its whole name and its value: 0 no, 1 yes, 2 it declares nothing.
pub fn mz_verdict(name: &[u8], value: &[u8]) -> usize
    ensures { result ≡ verdict_number (verdict_of name.now value.now) }
{
    name::verdict_number(name::verdict_of(name, value))
}

// As many answers of a run as `out` holds, five numbers each: `tag_batch::read_batch`. `state` is the kind of the place (0
// done, 1 next, 2 skip value, 3 skip from `=`), its position, the number of recorded keys, and why the batch stopped (0 `out`
// is full, 1 the end, 2 the tables have no place for the next key); it is left as the next call takes it. The result is the
// number of answers, or the largest number there is where a table has more places than there can be keys. With room for
// no answer nothing is written.
pub fn mz_read_batch<'a>(
    tag: &[u8],
    starts: &'a mut [usize],
    ends: &'a mut [usize],
    hashes: &'a mut [u32],
    state: &mut [usize; 4],
    html: bool,
    checks: bool,
    out: &mut [usize],
) -> usize
    ensures { batch_end result starts.new ends.new hashes.new state.new out.new
        ≡ read_batch_of tag.now starts.old ends.old hashes.old state.old out.old html checks }
{
    let place = export_cursor::place_from(tag.len(), state[0], state[1]);
    let at = Standing {
        place,
        html,
        checks,
        count: state[2],
    };
    let room = out.len();
    let batch = tag_batch::read_batch(tag, starts, ends, hashes, at, out);
    let Ok(read) = batch else {
        return NONE;
    };
    if room < 5 {
        return read.answers;
    }
    export_cursor::settle(state, place, read.place, read.count);
    state[3] = read.why.number();
    read.answers
}
