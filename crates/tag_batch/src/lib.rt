// A whole tag in one call: as many answers as a lent output holds, on tables that the caller keeps.
//
// The crate's iterator is asked once for each attribute. Here its state is tested once a call, and `next`'s step is taken
// on the lent tables, so that nothing is copied and nothing is cleared between tags: what a program that reads many tags
// calls.
#![tactic(auto)]

ghost use Rattle.std.specs.Prelude.{◌≡◌, [], ◌∷◌, ◌+◌, ◌≤◌, ◌<◌, length, ltb, ◌&&◌, leb};
ghost use Rattle.scan.specs.First.{pick};
ghost use Rattle.scan.specs.Lists.{over};
ghost use Rattle.tag_keys.specs.Keys.{capacity};
ghost use Rattle.tag_keys.specs.Sieve.{SieveOf};
ghost use Rattle.tag_step.specs.Next.{stands_at};
ghost use Rattle.tag_batch.specs.Batch.{why_number, listed, five_of, Ripe, batched, read_of, batch_of};
ghost use Rattle.tag_batch.specs.declared.Why.TheVariants.{OutFull, AtEnd};

use tag_keys::CAPACITY;
use tag_step::{Answer, Attr, AttrError, Place, Span, Standing};

// Why a batch has no more answers.
#[derive(Clone, Copy)]
pub enum Why {
    // `out` has no room for another.
    OutFull,
    // There are no more.
    AtEnd,
    // The next key is due to be recorded, and no place is lent for it. The caller lends longer tables, with the recorded keys
    // in their places, and goes on.
    LendMore,
}

// What a batch leaves.
#[derive(Clone, Copy)]
pub struct BatchRead {
    // how many answers were written
    pub answers: usize,
    // the place and the number of recorded keys with which the next call goes on
    pub place: Place,
    pub count: usize,
    pub why: Why,
}

// A table has more places than an iterator's: nothing was read or written.
#[derive(Clone, Copy)]
pub struct WrongTables;

impl Why {
    // 0 for a full output, 1 for the end, 2 where a place is lacking.
    #[tactic(auto, unfolding(crate::specs::Batch::why_number))]
    pub fn number(self) -> usize
        ensures { result ≡ why_number self }
    {
        match self {
            Why::OutFull => 0,
            Why::AtEnd => 1,
            Why::LendMore => 2,
        }
    }
}

// An answer as five numbers.
#[derive(Clone, Copy)]
pub struct Five {
    pub code: usize,
    pub a: usize,
    pub b: usize,
    pub c: usize,
    pub d: usize,
}

fn values(code: usize, a: usize, b: usize, c: usize, d: usize) -> Five
    ensures { listed result ≡ code ∷ a ∷ b ∷ c ∷ d ∷ [] }
{
    Five { code, a, b, c, d }
}

// The bounds of an attribute.
fn bounds(code: usize, key: Span, value: Span) -> Five
    ensures { listed result ≡ code ∷ key.start ∷ key.end ∷ value.start ∷ value.end ∷ [] }
{
    values(code, key.start, key.end, value.start, value.end)
}

// Document 01's number of an answer and its values in the table's order, then zeros. Only the end has the number 0.
#[tactic(auto, unfolding(tag_step::specs::Numbers::numbers_of, crate::specs::Batch::five_of))]
pub fn numbers(answer: Answer) -> Five
    ensures { listed result ≡ five_of answer }
{
    match answer {
        None => values(0, 0, 0, 0, 0),
        Some(Ok(Attr::DoubleQ(key, value))) => bounds(101, key, value),
        Some(Ok(Attr::SingleQ(key, value))) => bounds(102, key, value),
        Some(Ok(Attr::Unquoted(key, value))) => bounds(103, key, value),
        Some(Ok(Attr::Empty(key))) => values(104, key.start, key.end, 0, 0),
        Some(Err(AttrError::ExpectedEq(pos))) => values(1, pos, 0, 0, 0),
        Some(Err(AttrError::ExpectedValue(len))) => values(2, len, 0, 0, 0),
        Some(Err(AttrError::UnquotedValue(pos))) => values(3, pos, 0, 0, 0),
        Some(Err(AttrError::ExpectedQuote(len, quote))) => values(4, len, quote, 0, 0),
        Some(Err(AttrError::Duplicated(this, earlier))) => values(5, this, earlier, 0, 0),
        Some(Err(AttrError::KeyTableFull(this))) => values(6, this, 0, 0, 0),
        Some(Err(AttrError::BadState)) => values(7, 0, 0, 0, 0),
    }
}

// Writes five numbers from `at` on.
pub fn put(out: &mut [usize], at: usize, x: Five)
    requires { at + 5 ≤ length out.old }
    ensures { out.new ≡ over out.old at (listed x) }
{
    out[at] = x.code;
    out[at + 1] = x.a;
    out[at + 2] = x.b;
    out[at + 3] = x.c;
    out[at + 4] = x.d;
}

// The batch of a state that is good: a step for each answer that there is room for, up to the end, or to a key that has no
// place. While checks are on the sieve is that of the kept hashes.
fn read_good<'a>(
    tag: &[u8],
    starts: &'a mut [usize],
    ends: &'a mut [usize],
    hashes: &'a mut [u32],
    sieve: &'a mut [u64],
    at: Standing,
    out: &mut [usize],
) -> BatchRead
    requires ripe { Ripe tag.now (stands_at at starts.old ends.old hashes.old) }
    requires sieve_of { SieveOf at.checks sieve.old hashes.old at.count }
    ensures { batched (Ok result) starts.new ends.new hashes.new out.new
        ≡ read_of tag.now (stands_at at starts.old ends.old hashes.old) out.old }
{
    let mut left = BatchRead {
        answers: 0,
        place: at.place,
        count: at.count,
        why: Why::OutFull,
    };
    for n in 0..out.len() / 5 {
        let here = Standing {
            place: left.place,
            count: left.count,
            ..at
        };
        let step = tag_step::step_in(tag, starts, ends, hashes, sieve, here);
        let Some(made) = step else {
            left.why = Why::LendMore;
            return left;
        };
        left.place = made.place;
        left.count = made.count;
        let x = numbers(made.answer);
        if x.code == 0 {
            left.why = Why::AtEnd;
            return left;
        }
        put(out, 5 * n, x);
        left.answers = n + 1;
    }
    left
}

// Refusal 7 is one answer, and the end follows it.
pub fn after_seven(room: usize) -> Why
    ensures { result ≡ pick (ltb room 10) OutFull AtEnd }
{
    if room < 10 { Why::OutFull } else { Why::AtEnd }
}

// Whether no table has more places than an iterator's.
pub fn tables_lent(starts: &[usize], ends: &[usize], hashes: &[u32]) -> bool
    ensures { result ≡ (leb (length starts.now) capacity && (leb (length ends.now) capacity && leb (length hashes.now) capacity)) }
{
    starts.len() <= CAPACITY && ends.len() <= CAPACITY && hashes.len() <= CAPACITY
}

// As many answers of a run as `out` holds, five numbers each, from the place and the recorded keys that are given; the end
// writes nothing. What stands in `out` behind them stays, and so do unused places of the tables. Refusal 7 comes first,
// as in `next`. An output that holds no answer: nothing is written and nothing moves.
pub fn read_batch<'a>(
    tag: &[u8],
    starts: &'a mut [usize],
    ends: &'a mut [usize],
    hashes: &'a mut [u32],
    at: Standing,
    out: &mut [usize],
) -> Result<BatchRead, WrongTables>
    ensures { batched result starts.new ends.new hashes.new out.new
        ≡ batch_of tag.now (stands_at at starts.old ends.old hashes.old) out.old }
{
    let Standing { place, count, .. } = at;
    if !tables_lent(starts, ends, hashes) {
        return Err(WrongTables);
    }
    if out.len() < 5 {
        return Ok(BatchRead {
            answers: 0,
            place,
            count,
            why: Why::OutFull,
        });
    }
    if !tag_step::good_in(tag, starts, ends, hashes, count, place) {
        tag_step::clear_keys(starts, ends, hashes);
        put(out, 0, numbers(Some(Err(AttrError::BadState))));
        return Ok(BatchRead {
            answers: 1,
            place: Place::Done,
            count: 0,
            why: after_seven(out.len()),
        });
    }
    let mut sieve = [0u64; tag_keys::SIEVE_WORDS];
    tag_keys::sieve_kept(&mut sieve, hashes, count);
    Ok(read_good(tag, starts, ends, hashes, &mut sieve, at, out))
}
