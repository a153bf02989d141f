// A reader of a tag that arrives in pieces, by value: document 02, request 1. quick-xml has none.
//
// What it does is `piece_of`, `finish_of` and `take_of` of the crate `tag_pieces`, for every reader whatever. A call copies the
// reader, which holds 65,536 bytes and the key tables: whoever reads much lends memory (`tag_pieces`, `tag_takes`).
#![tactic(auto)]

ghost use Rattle.std.specs.Prelude.{◌≡◌, true, not, ◌&&◌, ◌||◌, ◌≤◌, length, take, leb};
ghost use Rattle.tag_keys.specs.Keys.{KeysIn};
ghost use Rattle.tag_step.specs.Next.{keys_lent, good_of};
ghost use Rattle.tag_step.specs.Look.{look_of};
ghost use Rattle.tag_phase.specs.Phase.{waits_on};
ghost use Rattle.tag_pieces.specs.Reader.{held_of, iterator_of, moved, phase_after, opened_reader, with_checks, piece_of, finish_of, emptied, answered_of, take_of};
ghost use Rattle.reader.specs.Numbers.{numbered_feeding, numbered_take};

use tag_keys::CAPACITY;
use tag_phase::Phase;
use tag_pieces::{Cursor, FeedError, Feeding, Growth, HOLD, Reader, Take};
use tag_step::{Answer, AttrError, IterState, Place, Standing};

// A reader that is opened at `offset`, with checks on. Nothing is held.
#[tactic(auto, unfolding(tag_step::specs::Next::no_keys, tag_pieces::specs::Reader::opened_reader))]
pub fn new(offset: usize, html: bool) -> Reader
    ensures { result ≡ opened_reader offset html true }
{
    Reader {
        text: [0; HOLD],
        held: 0,
        finished: false,
        phase: Phase::Begin,
        place: Place::Next(offset),
        html,
        check_duplicates: true,
        starts: [0; CAPACITY],
        ends: [0; CAPACITY],
        hashes: [0; CAPACITY],
        count: 0,
    }
}

// Sets whether keys are checked and recorded.
#[tactic(auto, unfolding(tag_pieces::specs::Reader::with_checks))]
pub fn with_checks(r: Reader, checks: bool) -> Reader
    ensures { result ≡ with_checks checks r }
{
    Reader {
        check_duplicates: checks,
        ..r
    }
}

// One piece more, of no bytes or more. Where it is refused the reader stays as it was.
pub fn piece(r: Reader, piece: &[u8]) -> Feeding
    ensures { numbered_feeding result ≡ numbered_feeding (piece_of piece.now r) }
{
    let mut text = r.text;
    let at = Cursor {
        place: r.place,
        html: r.html,
        checks: r.check_duplicates,
        count: r.count,
        held: r.held,
        finished: r.finished,
        phase: r.phase,
    };
    let Growth { fed, held, phase } = tag_pieces::piece_in(&mut text, at, piece);
    Feeding {
        fed,
        reader: Reader {
            text,
            held,
            phase,
            ..r
        },
    }
}

// The end of the tag: what is held is all of it.
pub fn finish(r: Reader) -> Feeding
    ensures { numbered_feeding result ≡ numbered_feeding (finish_of r) }
{
    if r.finished {
        return Feeding {
            fed: Err(FeedError::Finished),
            reader: r,
        };
    }
    Feeding {
        fed: Ok(()),
        reader: Reader {
            finished: true,
            ..r
        },
    }
}

// Whether what is held and the iterator are what reading leaves; refusal 7 is for the others.
fn good_in<'a>(
    text: &[u8],
    held: usize,
    starts: &'a [usize],
    ends: &'a [usize],
    hashes: &'a [u32],
    at: Standing,
) -> bool
    ensures { result ≡ (leb held (length text.now)
        && good_of (take held text.now) (keys_lent starts.now ends.now hashes.now at.count) at.place) }
{
    held <= text.len() && tag_step::good_in(&text[..held], starts, ends, hashes, at.count, at.place)
}

// Whether no answer is ready.
fn waits_for<'a>(
    tag: &[u8],
    starts: &'a [usize],
    ends: &'a [usize],
    hashes: &'a [u32],
    at: Standing,
    finished: bool,
    phase: Phase,
) -> bool
    requires { KeysIn starts.now ends.now hashes.now at.count tag.now }
    ensures { result ≡ (not finished
        && (waits_on tag.now at.html at.checks (keys_lent starts.now ends.now hashes.now at.count) phase
        || leb (length tag.now) (look_of tag.now at.html at.checks (keys_lent starts.now ends.now hashes.now at.count) at.place))) }
{
    !finished
        && (tag_phase::waits(tag, starts, ends, hashes, at, phase)
            || tag_look::look_in(tag, starts, ends, hashes, at) >= tag.len())
}

// The reader with another iterator, so many bytes held, and another phase.
fn moved(r: Reader, st: IterState, held: usize, phase: Phase) -> Reader
    ensures { result ≡ moved r st held phase }
{
    let IterState {
        place,
        starts,
        ends,
        hashes,
        count,
        ..
    } = st;
    Reader {
        held,
        phase,
        place,
        starts,
        ends,
        hashes,
        count,
        ..r
    }
}

// What refusal 7 leaves: the text stays, but none of it is held.
fn emptied(r: Reader) -> Reader
    ensures { result ≡ emptied r }
{
    let st = IterState {
        place: Place::Done,
        html: r.html,
        check_duplicates: r.check_duplicates,
        starts: [0; CAPACITY],
        ends: [0; CAPACITY],
        hashes: [0; CAPACITY],
        count: 0,
    };
    moved(r, st, 0, Phase::Begin)
}

// After an answer the scan for the next one begins anew; after the end nothing is looked for.
#[tactic(auto, unfolding(tag_step::specs::Run::is_end))]
fn phase_after(answer: Answer, phase: Phase) -> Phase
    ensures { result ≡ phase_after answer phase }
{
    match answer {
        None => phase,
        Some(_) => Phase::Begin,
    }
}

// The iterator's answer over what is held.
fn answered(r: Reader) -> Take
    requires { r.held ≤ length r.text }
    ensures { result ≡ answered_of (held_of r) (iterator_of r) r }
{
    let Reader {
        text,
        held,
        phase,
        place,
        html,
        check_duplicates,
        starts,
        ends,
        hashes,
        count,
        ..
    } = r;
    let state = IterState {
        place,
        html,
        check_duplicates,
        starts,
        ends,
        hashes,
        count,
    };
    let step = state.next(&text[..held]);
    let answer = step.answer;
    Take {
        taken: Ok(Some(answer)),
        reader: moved(r, step.state, held, phase_after(answer, phase)),
    }
}

// One answer, or that none is ready. Refusal 7 comes first; more changes nothing.
pub fn take(r: Reader) -> Take
    ensures { numbered_take result ≡ numbered_take (take_of r) }
{
    let at = Standing {
        place: r.place,
        html: r.html,
        checks: r.check_duplicates,
        count: r.count,
    };
    if !good_in(&r.text, r.held, &r.starts, &r.ends, &r.hashes, at) {
        return Take {
            taken: Ok(Some(Some(Err(AttrError::BadState)))),
            reader: emptied(r),
        };
    }
    if waits_for(
        &r.text[..r.held],
        &r.starts,
        &r.ends,
        &r.hashes,
        at,
        r.finished,
        r.phase,
    ) {
        return Take {
            taken: Ok(None),
            reader: r,
        };
    }
    answered(r)
}
