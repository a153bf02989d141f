// Many answers in one call, of a reader in memory that a caller lends: what a program that reads tags in pieces calls.
//
// Its state is tested once a call, as in `tag_batch::read_batch`. While the tag is not finished each step is preceded by a look, and
// nothing is written where an answer is not ready.
#![tactic(auto)]

ghost use Rattle.std.specs.Prelude.{◌≡◌, not, ◌&&◌, ◌≤◌, length, replicate, ltb, Some, Err};
ghost use Rattle.scan.specs.First.{pick};
ghost use Rattle.scan.specs.Lists.{over};
ghost use Rattle.tag_keys.specs.Keys.{KeysIn};
ghost use Rattle.tag_keys.specs.Sieve.{SieveOf};
ghost use Rattle.tag_step.specs.Next.{keys_lent, stands_at};
ghost use Rattle.tag_step.specs.declared.AttrError.TheVariants.{BadState};
ghost use Rattle.tag_batch.specs.Batch.{Ripe, batched, five_of};
ghost use Rattle.tag_batch.specs.declared.Why.TheVariants.{OutFull, AtEnd};
ghost use Rattle.tag_phase.specs.Phase.{waits_on};
ghost use Rattle.tag_takes.specs.Takes.{lent_reader, cursor_after, emptied_at, took_end, take_all_of, looks_past, ready_shown};

use tag_batch::{BatchRead, Why};
use tag_phase::Phase;
use tag_pieces::{Cursor, HOLD};
use tag_step::{AttrError, Place, Standing};

// What many answers in one call leave, beside the memory.
#[derive(Clone, Copy)]
pub struct TakesRead {
    // how many answers were written
    pub answers: usize,
    // the reader then
    pub cursor: Cursor,
    // why there are no more: `Why::AtEnd` is more while the tag is not finished
    pub why: Why,
}

// The text or a table is longer than a reader's: nothing was read or written.
#[derive(Clone, Copy)]
pub struct WrongLength;

// Whether the next step looks at or past the end of what is held. After the finish that is no matter.
fn not_ready<'a>(
    tag: &[u8],
    starts: &'a [usize],
    ends: &'a [usize],
    hashes: &'a [u32],
    at: Standing,
    finished: bool,
) -> bool
    requires { KeysIn starts.now ends.now hashes.now at.count tag.now }
    ensures { result ≡ looks_past finished tag.now (stands_at at starts.now ends.now hashes.now) }
{
    !finished && tag_look::look_in(tag, starts, ends, hashes, at) >= tag.len()
}

// The answers of a good state: a step for each that there is room for, up to the end, to one that is not ready while the tag is
// not finished, or to a key that has no place. While checks are on the sieve is that of the kept hashes. (The same loop serves
// a tag that is finished and one that is not, so that the step has one caller and is compiled into it. `tag_batch::read_batch` has
// a loop of its own without the look: one loop for both, over a test that is handed in, would state among its own conditions when
// that test may be called and what it answers, which is no plainer.)
fn take_ready<'a>(
    tag: &[u8],
    starts: &'a mut [usize],
    ends: &'a mut [usize],
    hashes: &'a mut [u32],
    sieve: &'a mut [u64],
    at: Standing,
    finished: bool,
    out: &mut [usize],
) -> BatchRead
    requires ripe { Ripe tag.now (stands_at at starts.old ends.old hashes.old) }
    requires sieve_of { SieveOf at.checks sieve.old hashes.old at.count }
    ensures { batched (Ok result) starts.new ends.new hashes.new out.new
        ≡ ready_shown finished tag.now (stands_at at starts.old ends.old hashes.old) out.old }
{
    let mut left = BatchRead {
        answers: 0,
        place: at.place,
        count: at.count,
        why: Why::OutFull,
    };
    for n in 0..out.len() / 5 {
        let here = Standing {
            place: left.place,
            count: left.count,
            ..at
        };
        if not_ready(tag, starts, ends, hashes, here, finished) {
            left.why = Why::AtEnd;
            return left;
        }
        let step = tag_step::step_in(tag, starts, ends, hashes, sieve, here);
        let Some(made) = step else {
            left.why = Why::LendMore;
            return left;
        };
        left.place = made.place;
        left.count = made.count;
        let x = tag_batch::numbers(made.answer);
        if x.code == 0 {
            left.why = Why::AtEnd;
            return left;
        }
        tag_batch::put(out, 5 * n, x);
        left.answers = n + 1;
    }
    left
}

// The same without its sieve, which is that of the hashes that are kept when the call begins.
fn take_good<'a>(
    tag: &[u8],
    starts: &'a mut [usize],
    ends: &'a mut [usize],
    hashes: &'a mut [u32],
    at: Standing,
    finished: bool,
    out: &mut [usize],
) -> BatchRead
    requires { Ripe tag.now (stands_at at starts.old ends.old hashes.old) }
    ensures { batched (Ok result) starts.new ends.new hashes.new out.new
        ≡ ready_shown finished tag.now (stands_at at starts.old ends.old hashes.old) out.old }
{
    let mut sieve = [0u64; tag_keys::SIEVE_WORDS];
    tag_keys::sieve_kept(&mut sieve, hashes, at.count);
    take_ready(tag, starts, ends, hashes, &mut sieve, at, finished, out)
}

// Refusal 7: one answer, and nothing is held any more.
fn empty<'a>(
    starts: &'a mut [usize],
    ends: &'a mut [usize],
    hashes: &'a mut [u32],
    at: Cursor,
    out: &mut [usize],
) -> TakesRead
    requires { 5 ≤ length out.old }
    ensures { (result ≡ record { answers = 1; cursor = emptied_at at; why = pick (ltb (length out.old) 10) OutFull AtEnd })
        × (starts.new ≡ replicate (length starts.old) 0)
        × (ends.new ≡ replicate (length ends.old) 0)
        × (hashes.new ≡ replicate (length hashes.old) 0)
        × (out.new ≡ over out.old 0 (five_of (Some (Err BadState)))) }
{
    tag_step::clear_keys(starts, ends, hashes);
    tag_batch::put(out, 0, tag_batch::numbers(Some(Err(AttrError::BadState))));
    TakesRead {
        answers: 1,
        cursor: Cursor {
            place: Place::Done,
            count: 0,
            held: 0,
            phase: Phase::Begin,
            ..at
        },
        why: tag_batch::after_seven(out.len()),
    }
}

// The reader after so many answers: the scan for the next one begins anew, unless there were none.
fn after(at: Cursor, n: usize, place: Place, count: usize) -> Cursor
    ensures { result ≡ cursor_after at n place count }
{
    let phase = if n == 0 { at.phase } else { Phase::Begin };
    Cursor {
        place,
        count,
        phase,
        ..at
    }
}

// Whether the phase says that no answer is ready. After the finish it is not asked.
fn phase_waits<'a>(
    tag: &[u8],
    starts: &'a [usize],
    ends: &'a [usize],
    hashes: &'a [u32],
    at: Standing,
    finished: bool,
    phase: Phase,
) -> bool
    requires { KeysIn starts.now ends.now hashes.now at.count tag.now }
    ensures { result ≡ (not finished && waits_on tag.now at.html at.checks (keys_lent starts.now ends.now hashes.now at.count) phase) }
{
    !finished && tag_phase::waits(tag, starts, ends, hashes, at, phase)
}

// As many answers as are ready and as `out` holds, five numbers each, in lent memory of any content. Refusal 7 comes first; where
// nothing is ready nothing is changed.
pub fn take_in<'a>(
    text: &[u8],
    starts: &'a mut [usize],
    ends: &'a mut [usize],
    hashes: &'a mut [u32],
    at: Cursor,
    out: &mut [usize],
) -> Result<TakesRead, WrongLength>
    ensures { took_end result at text.now starts.new ends.new hashes.new out.new
        ≡ take_all_of (lent_reader at text.now starts.old ends.old hashes.old) out.old }
{
    let Cursor {
        place,
        html,
        checks,
        count,
        held,
        finished,
        phase,
    } = at;
    if text.len() > HOLD || !tag_batch::tables_lent(starts, ends, hashes) {
        return Err(WrongLength);
    }
    if out.len() < 5 {
        return Ok(TakesRead {
            answers: 0,
            cursor: at,
            why: Why::OutFull,
        });
    }
    if held > text.len() || !tag_step::good_in(&text[..held], starts, ends, hashes, count, place) {
        return Ok(empty(starts, ends, hashes, at, out));
    }
    let here = Standing {
        place,
        html,
        checks,
        count,
    };
    if phase_waits(&text[..held], starts, ends, hashes, here, finished, phase) {
        return Ok(TakesRead {
            answers: 0,
            cursor: at,
            why: Why::AtEnd,
        });
    }
    let read = take_good(&text[..held], starts, ends, hashes, here, finished, out);
    Ok(TakesRead {
        answers: read.answers,
        cursor: after(at, read.answers, read.place, read.count),
        why: read.why,
    })
}
