// The attribute iterator over the bytes of a start tag.
//
// Ports `IterState` of src/events/attributes.rs, with `with_checks` of `Attributes`. What it answers is `next_of` of
// specs/Next.antt, for every tag and every state. The work is done on tables that the caller lends (`step_in`,
// after the test of refusal 7, `good_in`); `IterState::next` lends its own.
//
// The names are the crate's. Its `keys: Vec<Range<usize>>` is three tables and a count here. Documents number the refusals:
// `numbers_of` (specs/Numbers.antt) gives an answer's number and values.
#![tactic(auto)]

ghost use Rattle.std.specs.Prelude.{◌≡◌, true, ◌+◌, ◌^◌, ◌<◌, ◌≤◌, length, replicate};
ghost use Rattle.tag_step.specs.Numbers.{numbered_step};
ghost use Rattle.tag_step.specs.Read.{is_quote, skip_of, recover_of, key_at, closed_of, quoted_of, value_at};
ghost use Rattle.tag_step.specs.Next.{keys_lent, stands_at, advanced, leaves, place_at, place_good, good_of, next_of, unchecked_of, opened, with_checks};
ghost use Rattle.tag_step.specs.Lent.{taken, kept_in, bare_in, valued_in, step_in};
ghost use Rattle.tag_keys.specs.Sieve.{sieve_left, SieveOf};
ghost use Rattle.tag_keys.specs.Keys.{capacity, KeysIn};

use tag_keys::{CAPACITY, Hashed, KeyRefusal, SIEVE_WORDS};

// Where a key or a value stands in the tag: `Range<usize>` of the crate, the end not included.
#[derive(Clone, Copy)]
pub struct Span {
    pub start: usize,
    pub end: usize,
}

// Where reading goes on: `State` of the crate.
#[derive(Clone, Copy)]
pub enum Place {
    // Reading has ended.
    Done,
    // The next key is looked for from here.
    Next(usize),
    // After refusal 3: the value that begins here is passed over first.
    SkipValue(usize),
    // After refusal 5 of a key with a value: the `=` here and its value are passed over first.
    SkipEqValue(usize),
}

// An attribute: `Attr` of the crate. Each case with an input that gives it.
#[derive(Clone, Copy)]
pub enum Attr {
    // `key="value"`: the key, and the value without its quotes.
    DoubleQ(Span, Span),
    // `key='value'`.
    SingleQ(Span, Span),
    // `key=value`, in HTML mode.
    Unquoted(Span, Span),
    // `key` with no value, in HTML mode.
    Empty(Span),
}

// A refusal: `AttrError` of the crate, with two cases that it lacks, 6 and 7. Each with an input that gives it.
#[derive(Clone, Copy)]
pub enum AttrError {
    // 1: `key key2="v"` where `key2` begins; reading goes on there.
    ExpectedEq(usize),
    // 2: `key=` and no more: the tag's length.
    ExpectedValue(usize),
    // 3: `key=value` where the value begins, in XML mode; reading goes on at the next whitespace.
    UnquotedValue(usize),
    // 4: `key="value` and no more: the tag's length, and the byte of the quote that is missing, as a number like the rest.
    ExpectedQuote(usize, usize),
    // 5: `key="1" key="2"`: where this key and the earlier one begin; reading goes on at the first whitespace after the
    // `=`, also where it stands in the value.
    Duplicated(usize, usize),
    // 6: as many keys are recorded as can be, and another one is due: where it begins.
    KeyTableFull(usize),
    // 7: a state that no reading of this tag leaves.
    BadState,
}

// One answer: an attribute, a refusal, or `None` where nothing is left.
pub type Answer = Option<Result<Attr, AttrError>>;

// The state of an iterator: `IterState` of the crate. The recorded keys are the first `count` of `starts`, `ends` and `hashes`.
#[derive(Clone, Copy)]
pub struct IterState {
    pub place: Place,
    pub html: bool,
    pub check_duplicates: bool,
    pub starts: [usize; CAPACITY],
    pub ends: [usize; CAPACITY],
    pub hashes: [u32; CAPACITY],
    pub count: usize,
}

// What an iterator has beside its key tables.
#[derive(Clone, Copy)]
pub struct Standing {
    pub place: Place,
    pub html: bool,
    pub checks: bool,
    // how many keys are recorded
    pub count: usize,
}

// An answer, and the state that it leaves.
#[derive(Clone, Copy)]
pub struct Step {
    pub answer: Answer,
    pub state: IterState,
}

// A key and what stands after it: no `=`, with the place of what follows, or the place of its `=`.
#[derive(Clone, Copy)]
pub enum KeyRead {
    Bare(Span, usize),
    Valued(Span, usize),
}

// What a value or a bare key gives: an answer, and the place that it leaves.
#[derive(Clone, Copy)]
pub struct Found {
    pub answer: Answer,
    pub place: Place,
}

// What a step on lent tables makes: the answer, the place that it leaves, and how many keys are recorded.
#[derive(Clone, Copy)]
pub struct Advance {
    pub answer: Answer,
    pub place: Place,
    pub count: usize,
}

// Whether a byte opens a quoted value.
#[tactic(auto, unfolding(crate::specs::Read::is_quote))]
pub fn is_quote(b: u8) -> bool
    ensures { result ≡ is_quote b }
{
    b == b'"' || b == b'\''
}

// Passes over a value: `IterState::skip_value`.
//
//     key  =  value  next
//             |    ^
//        offset    the answer
#[tactic(auto, unfolding(crate::specs::Read::skip_of, crate::specs::Read::skip_to))]
fn skip_value(tag: &[u8], offset: usize) -> Option<usize>
    ensures { result ≡ skip_of tag.now offset }
{
    let e = scan::whitespace_from(tag, offset);
    if e < tag.len() { Some(e) } else { None }
}

// Where the search for the next key begins, after what the last answer left: `IterState::recover`. From the `=` of a
// duplicate the crate goes on by `skip_eq_value`, which looks for a quote first; since it finds the `=`, that is
// `skip_value` (`dead_quotes` of crate `law_steps`), and quotes are not honoured:
//
//     key  ="a value"  next
//          |  ^
//     offset  the answer
#[tactic(auto, unfolding(crate::specs::Read::recover_of))]
pub fn recover(tag: &[u8], place: Place) -> Option<usize>
    ensures { result ≡ recover_of tag.now place }
{
    match place {
        Place::Next(offset) if offset <= tag.len() => Some(offset),
        Place::Done | Place::Next(_) => None,
        Place::SkipValue(offset) | Place::SkipEqValue(offset) => skip_value(tag, offset),
    }
}

// The key at or after `from`, if there is one, and what follows it: the first half of `IterState::next`.
//
//        key  =  value           key  x            key
//     |  |  | ^               |  |  | ^         |  |  ^
//  from  s  e  at          from  s  e  at    from  s  e, at: the length
#[tactic(auto, unfolding(crate::specs::Read::key_at, crate::specs::Read::key_from, crate::specs::Read::key_to, crate::specs::Read::key_eq, crate::specs::Read::is_at))]
pub fn read_key(tag: &[u8], from: usize) -> Option<KeyRead>
    ensures { result ≡ key_at tag.now from }
{
    let start = scan::content_from(tag, from);
    if start >= tag.len() {
        return None;
    }
    let end = scan::key_end_from(tag, start + 1);
    let at = scan::content_from(tag, end);
    let key = Span { start, end };
    if at < tag.len() && tag[at] == b'=' {
        return Some(KeyRead::Valued(key, at));
    }
    Some(KeyRead::Bare(key, at))
}

// An attribute in the quotes `quote`: `IterState::double_q` and `IterState::single_q`. Reading goes on after the closing quote.
#[tactic(auto, unfolding(crate::specs::Read::closed_of, crate::specs::Read::quoted))]
fn closed(quote: u8, key: Span, value: Span) -> Found
    requires { value.end + 1 < 2 ^ 64 }
    ensures { result ≡ closed_of quote key value }
{
    let answer = if quote == b'"' {
        Some(Ok(Attr::DoubleQ(key, value)))
    } else {
        Some(Ok(Attr::SingleQ(key, value)))
    };
    Found {
        answer,
        place: Place::Next(value.end + 1),
    }
}

// The value in the quotes `quote` that begins at `from`: the end of `IterState::next`.
//
//     key = "value" next
//            |    ^
//         from    the same quote
#[tactic(auto, unfolding(crate::specs::Read::quoted_of, crate::specs::Read::quoted_to))]
fn read_quoted(tag: &[u8], quote: u8, key: Span, from: usize) -> Found
    ensures { result ≡ quoted_of tag.now quote key from }
{
    let e = scan::byte_from(tag, from, quote);
    if e >= tag.len() {
        return Found {
            answer: Some(Err(AttrError::ExpectedQuote(tag.len(), usize::from(quote)))),
            place: Place::Done,
        };
    }
    closed(
        quote,
        key,
        Span {
            start: from,
            end: e,
        },
    )
}

// The value after the `=` at `eq`: the second half of `IterState::next`.
//
//     key =  "value"      key =  value next      key =
//         |  ^                |  ^    ^              |  ^
//        eq  v               eq  v    e             eq  v: the length
#[tactic(auto, unfolding(crate::specs::Read::value_at, crate::specs::Read::value_from, crate::specs::Read::value_by, crate::specs::Read::other_of, crate::specs::Read::unquoted_to))]
fn read_value(tag: &[u8], html: bool, key: Span, eq: usize) -> Found
    requires { eq < length tag.now }
    ensures { result ≡ value_at tag.now html key eq }
{
    let v = scan::content_from(tag, eq + 1);
    if v >= tag.len() {
        return Found {
            answer: Some(Err(AttrError::ExpectedValue(tag.len()))),
            place: Place::Done,
        };
    }
    let b = tag[v];
    if is_quote(b) {
        return read_quoted(tag, b, key, v + 1);
    }
    if html {
        let e = scan::whitespace_from(tag, v);
        return Found {
            answer: Some(Ok(Attr::Unquoted(key, Span { start: v, end: e }))),
            place: Place::Next(e),
        };
    }
    Found {
        answer: Some(Err(AttrError::UnquotedValue(v))),
        place: Place::SkipValue(v),
    }
}

// Where a bare key leaves the reading: at what follows it, or done.
#[tactic(auto, unfolding(crate::specs::Next::place_at))]
fn place_at(tag: &[u8], at: usize) -> Place
    ensures { result ≡ place_at tag.now at }
{
    if at < tag.len() {
        Place::Next(at)
    } else {
        Place::Done
    }
}

// Whether a place is one that reading this tag leaves.
#[tactic(auto, unfolding(crate::specs::Next::place_good, crate::specs::Read::is_at))]
fn place_good(tag: &[u8], place: Place) -> bool
    ensures { result ≡ place_good tag.now place }
{
    match place {
        Place::Done | Place::Next(_) => true,
        Place::SkipValue(offset) => offset < tag.len(),
        Place::SkipEqValue(offset) => offset < tag.len() && tag[offset] == b'=',
    }
}

// Whether lent tables and a place are what reading this tag leaves; refusal 7 is for the others.
pub fn good_in<'a>(
    tag: &[u8],
    starts: &'a [usize],
    ends: &'a [usize],
    hashes: &'a [u32],
    count: usize,
    place: Place,
) -> bool
    ensures { result ≡ good_of tag.now (keys_lent starts.now ends.now hashes.now count) place }
{
    tag_keys::keys_good(tag, starts, ends, hashes, count) && place_good(tag, place)
}

// A key with no value: `IterState::key_only`. HTML mode checks it as any other; XML mode refuses it and does not.
//
//     key  key2="v"
//     |  | ^
//      key offset
fn key_only<'a>(
    tag: &[u8],
    starts: &'a mut [usize],
    ends: &'a mut [usize],
    hashes: &'a mut [u32],
    sieve: &'a mut [u64],
    at: Standing,
    key: Span,
    offset: usize,
) -> Option<Advance>
    requires keys_in { KeysIn starts.old ends.old hashes.old at.count tag.now }
    requires start_lt_end { (key.start < key.end) × (key.end ≤ length tag.now) }
    requires sieve_of { SieveOf at.checks sieve.old hashes.old at.count }
    ensures { (taken result starts.new ends.new hashes.new at.count ≡ bare_in tag.now at.html at.checks (keys_lent starts.old ends.old hashes.old at.count) key offset)
        × (sieve.new ≡ sieve_left at.checks sieve.old hashes.new (kept_in result at.count)) }
{
    let count = at.count;
    let place = place_at(tag, offset);
    if !at.html {
        return Some(Advance {
            answer: Some(Err(AttrError::ExpectedEq(offset))),
            place,
            count,
        });
    }
    let checks = at.checks;
    let hash = tag_keys::hash_for(tag, checks, key.start, key.end);
    let hashed = Hashed {
        start: key.start,
        end: key.end,
        hash,
    };
    match tag_keys::check_unsifted(tag, starts, ends, hashes, checks, count, hashed) {
        Ok(more) => {
            if !tag_keys::record_key(starts, ends, hashes, sieve, checks, count, hashed) {
                return None;
            }
            Some(Advance {
                answer: Some(Ok(Attr::Empty(key))),
                place,
                count: more,
            })
        }
        Err(KeyRefusal::Same(earlier)) => Some(Advance {
            answer: Some(Err(AttrError::Duplicated(key.start, earlier))),
            place,
            count,
        }),
        Err(KeyRefusal::Full) => Some(Advance {
            answer: Some(Err(AttrError::KeyTableFull(key.start))),
            place: Place::Done,
            count,
        }),
    }
}

// A key whose `=` stands at `eq`: it is checked and recorded before its value is looked at. From `IterState::next`.
fn key_valued<'a>(
    tag: &[u8],
    starts: &'a mut [usize],
    ends: &'a mut [usize],
    hashes: &'a mut [u32],
    sieve: &'a mut [u64],
    at: Standing,
    key: Span,
    eq: usize,
) -> Option<Advance>
    requires keys_in { KeysIn starts.old ends.old hashes.old at.count tag.now }
    requires start_lt_end { (key.start < key.end) × (key.end ≤ length tag.now) }
    requires eq_in_bounds { eq < length tag.now }
    requires sieve_of { SieveOf at.checks sieve.old hashes.old at.count }
    ensures { (taken result starts.new ends.new hashes.new at.count ≡ valued_in tag.now at.html at.checks (keys_lent starts.old ends.old hashes.old at.count) key eq)
        × (sieve.new ≡ sieve_left at.checks sieve.old hashes.new (kept_in result at.count)) }
{
    let checks = at.checks;
    let count = at.count;
    let hash = tag_keys::hash_for(tag, checks, key.start, key.end);
    let hashed = Hashed {
        start: key.start,
        end: key.end,
        hash,
    };
    match tag_keys::check_for_duplicates(tag, starts, ends, hashes, sieve, checks, count, hashed) {
        Ok(more) => {
            if !tag_keys::record_key(starts, ends, hashes, sieve, checks, count, hashed) {
                return None;
            }
            let value = read_value(tag, at.html, key, eq);
            let answer = value.answer;
            let place = value.place;
            Some(Advance {
                answer,
                place,
                count: more,
            })
        }
        Err(KeyRefusal::Same(earlier)) => Some(Advance {
            answer: Some(Err(AttrError::Duplicated(key.start, earlier))),
            place: Place::SkipEqValue(eq),
            count,
        }),
        Err(KeyRefusal::Full) => Some(Advance {
            answer: Some(Err(AttrError::KeyTableFull(key.start))),
            place: Place::Done,
            count,
        }),
    }
}

// One step on lent tables of any length whose recorded keys lie in the tag: `IterState::next`. Nothing is copied, so whoever
// reads a whole tag tests the state once, makes the sieve of its kept hashes, and calls this. `None`: the next key is due to
// be recorded, and no place is lent for it; nothing is changed. The caller lends longer tables, with the recorded keys in
// their places, and goes on.
pub fn step_in<'a>(
    tag: &[u8],
    starts: &'a mut [usize],
    ends: &'a mut [usize],
    hashes: &'a mut [u32],
    sieve: &'a mut [u64],
    at: Standing,
) -> Option<Advance>
    requires keys_in { KeysIn starts.old ends.old hashes.old at.count tag.now }
    requires sieve_of { SieveOf at.checks sieve.old hashes.old at.count }
    ensures { (taken result starts.new ends.new hashes.new at.count ≡ step_in tag.now at.html at.checks (keys_lent starts.old ends.old hashes.old at.count) at.place)
        × (sieve.new ≡ sieve_left at.checks sieve.old hashes.new (kept_in result at.count)) }
{
    let place = at.place;
    let Some(from) = recover(tag, place) else {
        return Some(Advance {
            answer: None,
            place,
            count: at.count,
        });
    };
    match read_key(tag, from) {
        None => Some(Advance {
            answer: None,
            place: Place::Done,
            count: at.count,
        }),
        Some(KeyRead::Bare(key, offset)) => key_only(
            tag, starts, ends, hashes, sieve, at, key, offset,
        ),
        Some(KeyRead::Valued(key, eq)) => key_valued(tag, starts, ends, hashes, sieve, at, key, eq),
    }
}

// One step with checks off, which neither compares nor records a key, and so wants no tables: what a reader calls that takes
// every attribute as it comes.
pub fn step_unchecked(tag: &[u8], html: bool, place: Place) -> Found
    requires { place_good tag.now place ≡ true }
    ensures { result ≡ unchecked_of tag.now html place }
{
    let mut starts = [0usize; 0];
    let mut ends = [0usize; 0];
    let mut hashes = [0u32; 0];
    let mut sieve = [0u64; 0];
    let at = Standing {
        place,
        html,
        checks: false,
        count: 0,
    };
    let step = step_in(tag, &mut starts, &mut ends, &mut hashes, &mut sieve, at);
    match step {
        Some(made) => {
            let answer = made.answer;
            let left = made.place;
            Found {
                answer,
                place: left,
            }
        }
        // Never: no key is due to be recorded.
        None => Found {
            answer: None,
            place,
        },
    }
}

// Sets every place of key tables to zero, used or not: what refusal 7 leaves.
pub fn clear_keys<'a>(starts: &'a mut [usize], ends: &'a mut [usize], hashes: &'a mut [u32])
    ensures { (starts.new ≡ replicate (length starts.old) 0)
        × (ends.new ≡ replicate (length ends.old) 0)
        × (hashes.new ≡ replicate (length hashes.old) 0) }
{
    starts.fill(0);
    ends.fill(0);
    hashes.fill(0);
}

// One answer on tables of full size, for any state whatever: 7 first, which clears them; then a step.
fn next_in<'a>(
    tag: &[u8],
    starts: &'a mut [usize],
    ends: &'a mut [usize],
    hashes: &'a mut [u32],
    at: Standing,
) -> Advance
    requires { (length starts.old ≡ capacity) × (length ends.old ≡ capacity) × (length hashes.old ≡ capacity) }
    ensures { leaves (stands_at at starts.old ends.old hashes.old) (advanced result starts.new ends.new hashes.new)
        ≡ next_of tag.now (stands_at at starts.old ends.old hashes.old) }
{
    let count = at.count;
    let place = at.place;
    if !good_in(tag, starts, ends, hashes, count, place) {
        clear_keys(starts, ends, hashes);
        return Advance {
            answer: Some(Err(AttrError::BadState)),
            place: Place::Done,
            count: 0,
        };
    }
    let mut sieve = [0u64; SIEVE_WORDS];
    tag_keys::sieve_kept(&mut sieve, hashes, count);
    match step_in(tag, starts, ends, hashes, &mut sieve, at) {
        Some(made) => made,
        // Never: tables of full size have a place for every key that is due to be recorded.
        None => Advance {
            answer: None,
            place,
            count,
        },
    }
}

impl IterState {
    // An iterator that is opened at `offset`, with checks on.
    #[tactic(auto, unfolding(crate::specs::Next::opened, crate::specs::Next::no_keys))]
    pub fn new(offset: usize, html: bool) -> Self
        ensures { result ≡ opened offset html true }
    {
        Self {
            place: Place::Next(offset),
            html,
            check_duplicates: true,
            starts: [0; CAPACITY],
            ends: [0; CAPACITY],
            hashes: [0; CAPACITY],
            count: 0,
        }
    }

    // Sets whether keys are checked and recorded: `Attributes::with_checks`.
    #[tactic(auto, unfolding(crate::specs::Next::with_checks))]
    pub fn with_checks(mut self, checks: bool) -> Self
        ensures { result ≡ with_checks checks self }
    {
        self.check_duplicates = checks;
        self
    }

    // One answer, and the state after it: `IterState::next`, for any state whatever.
    pub fn next(mut self, tag: &[u8]) -> Step
        ensures { numbered_step result ≡ numbered_step (next_of tag.now self) }
    {
        let at = Standing {
            place: self.place,
            html: self.html,
            checks: self.check_duplicates,
            count: self.count,
        };
        let made = next_in(tag, &mut self.starts, &mut self.ends, &mut self.hashes, at);
        self.place = made.place;
        self.count = made.count;
        Step {
            answer: made.answer,
            state: self,
        }
    }
}
