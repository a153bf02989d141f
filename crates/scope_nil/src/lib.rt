// What stands on both the iterator and the resolver: `Attributes::has_nil`, src/events/attributes.rs.
//
//     tag   e  f:nil="0"  f:nil="true"  x:nil="1"       within  xmlns:f="http://www.w3.org/2001/XMLSchema-instance"
//            |           |            ^
//         opened        no           yes: the iterator is left here
//
// Both are tested once a call: every name is then looked up in a table that was found good.
#![tactic(auto)]

ghost use Rattle.std.specs.Prelude.{◌≡◌, ◌≤◌, length, ◌++◌, drop};
ghost use Rattle.scope_table.specs.Table.{resolver_of};
ghost use Rattle.scope_lookup.specs.Inside.{Inside};
ghost use Rattle.tag_step.specs.Next.{stands_at};
ghost use Rattle.scope_nil.specs.Nil.{nil_number, refused_nil, numbered_nil, is_nil, searched, whole_search, has_nil_of, has_nil_in, nil_left_by, unmoved_by, Searchable, Resting};

use scope_table::{FormError, Head, NamespaceResolver};
use tag_keys::{CAPACITY, SIEVE_WORDS};
use tag_step::{Answer, IterState, Place, Standing};

// Why a tag is not searched for a `nil` that is true. Else the answer is the crate's bool: true for `f:nil="true"` where `f` is
// bound to the XMLSchema-instance URI, and false for every other tag, also one whose attributes are refused.
#[derive(Clone, Copy)]
pub enum NilError {
    // 7: an iterator that no reading of this tag leaves
    BadState,
    // 20: a resolver that no calls leave
    BadResolver,
    // 98: a key is due to be recorded past what is lent; nothing is changed
    LendMore,
    // 99: what the head says is in use is not lent, or more than a capacity is; nothing is changed
    WrongLength,
}

impl From<FormError> for NilError {
    ghost from_gives = { λ e error. error ≡ refused_nil e };

    fn from(e: FormError) -> NilError {
        match e {
            FormError::BadResolver => NilError::BadResolver,
            FormError::WrongLength => NilError::WrongLength,
        }
    }
}

// What a search found, as a number, for an exported function, which hands out no enum.
pub fn nil_number(found: Result<bool, NilError>) -> usize
    ensures { result ≡ nil_number found }
{
    match found {
        Ok(false) => 0,
        Ok(true) => 1,
        Err(NilError::BadState) => 7,
        Err(NilError::BadResolver) => 20,
        Err(NilError::LendMore) => 98,
        Err(NilError::WrongLength) => 99,
    }
}

// The answer, and the iterator that it leaves: after the attribute that was a yes, or after the end.
#[derive(Clone, Copy)]
pub struct HasNil {
    pub answer: Result<bool, NilError>,
    pub state: IterState,
}

// The answer, and what it leaves beside lent tables. Mode and checks stay.
#[derive(Clone, Copy)]
pub struct Left {
    pub answer: Result<bool, NilError>,
    pub place: Place,
    pub count: usize,
}

// Whether one attribute is what `has_nil` looks for: the closure in `Attributes::has_nil`. The name is resolved last, as
// that costs most and most names are not called `nil`.
#[tactic(auto, unfolding(crate::specs::Nil::is_nil, crate::specs::Nil::is_yes, crate::specs::Nil::instance_uri, scan::specs::Bytes::bytes, scan::specs::Bytes::bytes_from))]
fn is_nil<'t, 'n>(
    text: &'t [u8],
    records: &'t [usize],
    head: Head,
    key: &'n [u8],
    value: &'n [u8],
) -> bool
    requires { Inside records.now head.count (length text.now) }
    ensures { result ≡ is_nil (resolver_of text.now records.now head) key.now value.now }
{
    if !scan::same(name::local_name(key), b"nil") || tag_parts::as_bool(value) != Some(true) {
        return false;
    }
    let found = scope_lookup::name_among(text, records, head.count, key, false);
    let uri = scope_lookup::uri_part(text, key, Ok(found));
    scan::same(uri, b"http://www.w3.org/2001/XMLSchema-instance")
}

// The search on an iterator that is good, its tables of full size: a step for each answer, up to the first yes or the end.
fn search<'k, 't>(
    tag: &[u8],
    starts: &'k mut [usize],
    ends: &'k mut [usize],
    hashes: &'k mut [u32],
    at: Standing,
    text: &'t [u8],
    records: &'t [usize],
    head: Head,
) -> Left
    requires { Searchable tag.now (stands_at at starts.old ends.old hashes.old) × Inside records.now head.count (length text.now) }
    ensures { nil_left_by at result starts.new ends.new hashes.new
        ≡ searched (resolver_of text.now records.now head) tag.now (stands_at at starts.old ends.old hashes.old) }
{
    let html = at.html;
    let checks = at.checks;
    let mut stand = at.place;
    let mut recorded = at.count;
    let mut sieve = [0u64; SIEVE_WORDS];
    tag_keys::sieve_kept(&mut sieve, hashes, recorded);
    // No `for` over a range: the loop counts no index, it steps the iterator until its end.
    loop {
        let here = Standing {
            place: stand,
            html,
            checks,
            count: recorded,
        };
        let step = tag_step::step_in(tag, starts, ends, hashes, &mut sieve, here);
        // Tables of full size have a place for every key: the other case never comes.
        let Some(made) = step else {
            return Left {
                answer: Err(NilError::LendMore),
                place: stand,
                count: recorded,
            };
        };
        let answer = made.answer;
        stand = made.place;
        recorded = made.count;
        if answer.is_none() {
            return Left {
                answer: Ok(false),
                place: stand,
                count: recorded,
            };
        }
        let key = tag_parts::key_part(tag, answer);
        let value = tag_parts::value_part(tag, answer);
        if is_nil(text, records, head, key, value) {
            return Left {
                answer: Ok(true),
                place: stand,
                count: recorded,
            };
        }
    }
}

// Writes a slice over the first places of another, whose other places stay.
fn write_over<T: Copy>(to: &mut [T], from: &[T])
    requires { length from.now ≤ length to.old }
    ensures { to.new ≡ from.now ++ drop (length from.now) to.old }
{
    to[..from.len()].copy_from_slice(from);
}

// The same search on tables that may be shorter. It reads into tables of its own, which have room for every key, so that
// nothing has changed where the lent ones do not hold what it leaves. These take 20 KB of stack, which a call on tables of
// full size, or one that is refused, does without: so it stays a function of its own.
#[inline(never)]
fn search_short<'k, 't>(
    tag: &[u8],
    starts: &'k mut [usize],
    ends: &'k mut [usize],
    hashes: &'k mut [u32],
    at: Standing,
    text: &'t [u8],
    records: &'t [usize],
    head: Head,
) -> Left
    requires { Resting tag.now (stands_at at starts.old ends.old hashes.old) × Inside records.now head.count (length text.now) }
    ensures { nil_left_by at result starts.new ends.new hashes.new
        ≡ whole_search (resolver_of text.now records.now head) tag.now (stands_at at starts.old ends.old hashes.old) }
{
    let mut all_starts = [0usize; CAPACITY];
    let mut all_ends = [0usize; CAPACITY];
    let mut all_hashes = [0u32; CAPACITY];
    write_over(&mut all_starts, starts);
    write_over(&mut all_ends, ends);
    write_over(&mut all_hashes, hashes);
    let found = search(
        tag,
        &mut all_starts,
        &mut all_ends,
        &mut all_hashes,
        at,
        text,
        records,
        head,
    );
    let count = found.count;
    if !tag_keys::holds(starts, ends, hashes, count) {
        return unmoved(Err(NilError::LendMore), at);
    }
    starts.copy_from_slice(&all_starts[..starts.len()]);
    ends.copy_from_slice(&all_ends[..ends.len()]);
    hashes.copy_from_slice(&all_hashes[..hashes.len()]);
    found
}

// An answer that leaves the iterator where it stands.
fn unmoved(answer: Result<bool, NilError>, at: Standing) -> Left
    ensures { result ≡ unmoved_by answer at }
{
    let place = at.place;
    Left {
        answer,
        place,
        count: at.count,
    }
}

// `Attributes::has_nil`, src/events/attributes.rs, on lent memory: key tables and scopes of any length up to the capacity.
pub fn has_nil_in<'k, 't>(
    tag: &[u8],
    starts: &'k mut [usize],
    ends: &'k mut [usize],
    hashes: &'k mut [u32],
    at: Standing,
    text: &'t [u8],
    records: &'t [usize],
    head: Head,
) -> Left
    ensures { nil_left_by at result starts.new ends.new hashes.new
        ≡ has_nil_in tag.now (stands_at at starts.old ends.old hashes.old) text.now records.now head }
{
    if CAPACITY < starts.len() || CAPACITY < ends.len() || CAPACITY < hashes.len() {
        return unmoved(Err(NilError::WrongLength), at);
    }
    if let Err(wrong) = scope_table::form_in(text, records, head) {
        return unmoved(Err(NilError::from(wrong)), at);
    }
    let place = at.place;
    let count = at.count;
    if !tag_step::good_in(tag, starts, ends, hashes, count, place) {
        tag_step::clear_keys(starts, ends, hashes);
        return Left {
            answer: Err(NilError::BadState),
            place: Place::Done,
            count: 0,
        };
    }
    if starts.len() == CAPACITY && ends.len() == CAPACITY && hashes.len() == CAPACITY {
        return search(tag, starts, ends, hashes, at, text, records, head);
    }
    search_short(tag, starts, ends, hashes, at, text, records, head)
}

// `Attributes::has_nil`, src/events/attributes.rs: whether an attribute from here on says that the element is nil.
pub fn has_nil(state: IterState, tag: &[u8], resolver: NamespaceResolver) -> HasNil
    ensures { numbered_nil result ≡ numbered_nil (has_nil_of tag.now state resolver) }
{
    let html = state.html;
    let checks = state.check_duplicates;
    let mut starts = state.starts;
    let mut ends = state.ends;
    let mut hashes = state.hashes;
    let count = state.count;
    let place = state.place;
    let at = Standing {
        place,
        html,
        checks,
        count,
    };
    let head = resolver.head;
    let out = has_nil_in(
        tag,
        &mut starts,
        &mut ends,
        &mut hashes,
        at,
        &resolver.text,
        &resolver.records,
        head,
    );
    let answer = out.answer;
    let left = out.place;
    HasNil {
        answer,
        state: IterState {
            place: left,
            html,
            check_duplicates: checks,
            starts,
            ends,
            hashes,
            count: out.count,
        },
    }
}
