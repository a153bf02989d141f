// What the static library exports of tags that arrive in pieces (crates/export_pieces_c), for Rust or C to link. Each function hands
// its slices on to the crate that has the rule; none asks anything of its caller.
//
// A reader in a caller's memory is its text, the three key tables, and nine numbers: the kind of the place (0 done, 1 next, 2 skip
// value, 3 skip from `=`), its position, how many keys are recorded, why it stopped, how many bytes are held, whether the tag is
// finished (0 is no), the phase, and the bounds of the key that is under way.
#![tactic(auto)]

ghost use Rattle.std.specs.Prelude.{◌≡◌};
ghost use Rattle.export_pieces.specs.Pieces.{phase_from, phase_kind, phase_start, phase_end, phase_put, cursor_in, piece_end, mz_piece_of, finish_end, mz_finish_of, answers_end, numbers_left, mz_take_of};
ghost use Rattle.export_cursor.specs.Cursor.{settled_of};

use tag_batch::Why;
use tag_phase::Phase;
use tag_pieces::Cursor;
use tag_step::{Place, Span};

// No number of answers.
const NONE: usize = usize::MAX;

// A phase from its number and the bounds.
// The kind is a number of the C interface, and each number has a phase, so this can't fail and is no TryFrom.
#[tactic(auto, unfolding(crate::specs::Pieces::phase_from))]
fn phase_from(kind: usize, start: usize, end: usize) -> Phase
    ensures { result ≡ phase_from kind start end }
{
    let key = Span { start, end };
    match kind {
        1 => Phase::Due,
        2 => Phase::InSkip,
        3 => Phase::InSpace,
        4 => Phase::InKey(start),
        5 => Phase::AfterKey(key),
        6 => Phase::BeforeValue(key),
        7 => Phase::InDouble(key),
        8 => Phase::InSingle(key),
        9 => Phase::InUnquoted(key),
        _ => Phase::Begin,
    }
}

// The number of a phase.
#[tactic(auto, unfolding(crate::specs::Pieces::phase_kind))]
fn phase_kind(phase: Phase) -> usize
    ensures { result ≡ phase_kind phase }
{
    match phase {
        Phase::Begin => 0,
        Phase::Due => 1,
        Phase::InSkip => 2,
        Phase::InSpace => 3,
        Phase::InKey(_) => 4,
        Phase::AfterKey(_) => 5,
        Phase::BeforeValue(_) => 6,
        Phase::InDouble(_) => 7,
        Phase::InSingle(_) => 8,
        Phase::InUnquoted(_) => 9,
    }
}

// Where its key starts.
#[tactic(auto, unfolding(crate::specs::Pieces::phase_start))]
fn phase_start(phase: Phase) -> usize
    ensures { result ≡ phase_start phase }
{
    match phase {
        Phase::Begin | Phase::Due | Phase::InSkip | Phase::InSpace => 0,
        Phase::InKey(start) => start,
        Phase::AfterKey(key)
        | Phase::BeforeValue(key)
        | Phase::InDouble(key)
        | Phase::InSingle(key)
        | Phase::InUnquoted(key) => key.start,
    }
}

// Where it ends.
#[tactic(auto, unfolding(crate::specs::Pieces::phase_end))]
fn phase_end(phase: Phase) -> usize
    ensures { result ≡ phase_end phase }
{
    match phase {
        Phase::Begin | Phase::Due | Phase::InSkip | Phase::InSpace | Phase::InKey(_) => 0,
        Phase::AfterKey(key)
        | Phase::BeforeValue(key)
        | Phase::InDouble(key)
        | Phase::InSingle(key)
        | Phase::InUnquoted(key) => key.end,
    }
}

// Writes a phase into the caller's numbers.
fn put_phase(reader: &mut [usize; 9], phase: Phase)
    ensures { reader.new ≡ phase_put reader.old (phase_kind phase) (phase_start phase) (phase_end phase) }
{
    reader[6] = phase_kind(phase);
    reader[7] = phase_start(phase);
    reader[8] = phase_end(phase);
}

// The reader that the numbers are.
fn cursor_in(reader: &[usize; 9], html: bool, checks: bool) -> Cursor
    ensures { result ≡ cursor_in reader.now html checks }
{
    let place = export_cursor::place_from(reader[4], reader[0], reader[1]);
    let phase = phase_from(reader[6], reader[7], reader[8]);
    Cursor {
        place,
        html,
        checks,
        count: reader[2],
        held: reader[4],
        finished: reader[5] != 0,
        phase,
    }
}

// One piece more: 0; 32 after the finish; 31 where more than 65,536 bytes would be held; 98 where the lent text is too short for it;
// 99 where that is longer than 65,536. Only at 0 something is written: the piece behind what is held, that number, the phase, and
// 0 for why it stopped.
pub fn mz_piece(text: &mut [u8], reader: &mut [usize; 9], piece: &[u8]) -> usize
    ensures { piece_end result text.new reader.new ≡ mz_piece_of text.old reader.old piece.now }
{
    if text.len() > tag_pieces::HOLD {
        return 99;
    }
    let at = cursor_in(reader, false, false);
    let grown = tag_pieces::piece_in(text, at, piece);
    if !tag_pieces::accepted(grown.fed) {
        return tag_pieces::fed_number(grown.fed);
    }
    reader[3] = 0;
    reader[4] = grown.held;
    put_phase(reader, grown.phase);
    0
}

// The finish: 0, or 32 after another one.
pub fn mz_finish(reader: &mut [usize; 9]) -> usize
    ensures { finish_end result reader.new ≡ mz_finish_of reader.old }
{
    if reader[5] != 0 {
        return 32;
    }
    reader[3] = 0;
    reader[5] = 1;
    0
}

// Leaves a place and the number of recorded keys in the caller's numbers, as the next call takes them: `export_cursor::settle`, in
// more numbers. `before` is the place that they had.
fn settle_place(reader: &mut [usize; 9], before: Place, after: Place, recorded: usize)
    ensures { reader.new ≡ settled_of reader.old before after recorded }
{
    reader[2] = recorded;
    if export_cursor::same_place(before, after) {
        return;
    }
    reader[0] = export_cursor::kind_of(after);
    reader[1] = export_cursor::position_of(after);
}

// Leaves all that a call has left of the reader.
fn settle(reader: &mut [usize; 9], before: Place, left: Cursor, n: usize, why: Why)
    ensures { reader.new ≡ numbers_left reader.old before left.place left.count left.held n why }
{
    settle_place(reader, before, left.place, left.count);
    reader[3] = why.number();
    reader[4] = left.held;
    if n > 0 {
        put_phase(reader, Phase::Begin);
    }
}

// As many answers as are ready and as `out` holds, five numbers each: `tag_takes::take_in`. The result is the number of answers, or
// the largest number there is where the text has more bytes than can be held or a table more places than there can be keys. Why it
// stopped is 0 where `out` is full, 1 where no answer is ready (which is more before the finish, and the end after it), 2 where the
// tables have no place for the next key. With room for no answer nothing is written.
pub fn mz_take<'a>(
    text: &[u8],
    starts: &'a mut [usize],
    ends: &'a mut [usize],
    hashes: &'a mut [u32],
    reader: &mut [usize; 9],
    html: bool,
    checks: bool,
    out: &mut [usize],
) -> usize
    ensures { answers_end result starts.new ends.new hashes.new reader.new out.new
        ≡ mz_take_of text.now starts.old ends.old hashes.old reader.old out.old html checks }
{
    let at = cursor_in(reader, html, checks);
    let before = at.place;
    let room = out.len();
    let took = tag_takes::take_in(text, starts, ends, hashes, at, out);
    let Ok(read) = took else {
        return NONE;
    };
    if room < 5 {
        return read.answers;
    }
    settle(reader, before, read.cursor, read.answers, read.why);
    read.answers
}
