// How far the scan for the next answer has come, so that no byte of a tag that arrives in pieces is looked at again and again.
//
// Each piece carries the phase over its own bytes alone. A phase saves time and decides nothing: what it lets through is looked
// at by `tag_look::look_in`, and where it waits there is no answer yet (`waits_look`, proofs/Truth.antt, for the phases that
// pieces leave).
#![tactic(auto)]

ghost use Rattle.std.specs.Prelude.{◌≡◌};
ghost use Rattle.tag_keys.specs.Keys.{KeysIn};
ghost use Rattle.tag_step.specs.Next.{keys_lent};
ghost use Rattle.tag_phase.specs.Phase.{unquoted_from, open_in, quoted_from, value_from, after_from, key_from, space_from, skip_from, begin_at, carried_of, waiting_of, refused_of, waits_on};

use tag_step::{Place, Span, Standing};

// Where the scan stands at the end of what is held. A key that is in it is its bounds.
#[derive(Clone, Copy)]
pub enum Phase {
    // Nothing is known: the scan begins at the place.
    Begin,
    // All that the next answer looks at is held, in both modes.
    Due,
    // Whitespace is waited for, which ends a skip.
    InSkip,
    // The first byte of a key.
    InSpace,
    // The end of the key that starts here.
    InKey(usize),
    // The first byte after this key that is no whitespace.
    AfterKey(Span),
    // The first byte of its value.
    BeforeValue(Span),
    // The closing `"`.
    InDouble(Span),
    // The closing `'`.
    InSingle(Span),
    // The whitespace after its unquoted value. XML mode does not wait for it.
    InUnquoted(Span),
}

// Whether a phase waits, as far as it can tell without the recorded keys.
#[derive(Clone, Copy)]
pub enum Waiting {
    Never,
    Always,
    // It does not wait where refusal 5 or 6 answers this key: then the value is not looked at.
    UnlessRefused(Span),
}

// Inside an unquoted value.
//
//     key=value
//         |    ^
//      from    whitespace
#[tactic(auto, unfolding(crate::specs::Phase::unquoted_from))]
fn unquoted_from(tag: &[u8], key: Span, from: usize) -> Phase
    ensures { result ≡ unquoted_from tag.now key from }
{
    if scan::whitespace_from(tag, from) < tag.len() {
        return Phase::Due;
    }
    Phase::InUnquoted(key)
}

#[tactic(auto, unfolding(crate::specs::Phase::open_in))]
fn open_in(quote: u8, key: Span) -> Phase
    ensures { result ≡ open_in quote key }
{
    if quote == b'"' {
        return Phase::InDouble(key);
    }
    Phase::InSingle(key)
}

// Inside the quotes `quote`.
//
//     key="value"
//          |    ^
//       from    the same quote
#[tactic(auto, unfolding(crate::specs::Phase::quoted_from))]
fn quoted_from(tag: &[u8], quote: u8, key: Span, from: usize) -> Phase
    ensures { result ≡ quoted_from tag.now quote key from }
{
    if scan::byte_from(tag, from, quote) < tag.len() {
        return Phase::Due;
    }
    open_in(quote, key)
}

// Behind the `=`.
//
//     key=  "value"
//         | ^
//      from v
#[tactic(auto, unfolding(crate::specs::Phase::value_from, crate::specs::Phase::value_on, crate::specs::Phase::value_by))]
fn value_from(tag: &[u8], key: Span, from: usize) -> Phase
    ensures { result ≡ value_from tag.now key from }
{
    let v = scan::content_from(tag, from);
    if v >= tag.len() {
        return Phase::BeforeValue(key);
    }
    let b = tag[v];
    if tag_step::is_quote(b) {
        return quoted_from(tag, b, key, v + 1);
    }
    unquoted_from(tag, key, v)
}

// Behind a key.
//
//     key  =
//        | ^
//     from x
#[tactic(auto, unfolding(crate::specs::Phase::after_from, crate::specs::Phase::after_on, crate::specs::Phase::after_by))]
fn after_from(tag: &[u8], key: Span, from: usize) -> Phase
    ensures { result ≡ after_from tag.now key from }
{
    let x = scan::content_from(tag, from);
    if x >= tag.len() {
        return Phase::AfterKey(key);
    }
    if tag[x] == b'=' {
        return value_from(tag, key, x + 1);
    }
    Phase::Due
}

// In the key that starts at `start`.
//
//     key =
//     | |^
//     | |e
//     | from
//     start
#[tactic(auto, unfolding(crate::specs::Phase::key_from, crate::specs::Phase::key_on))]
fn key_from(tag: &[u8], start: usize, from: usize) -> Phase
    ensures { result ≡ key_from tag.now start from }
{
    let e = scan::key_end_from(tag, from);
    if e >= tag.len() {
        return Phase::InKey(start);
    }
    let key = Span { start, end: e };
    after_from(tag, key, e)
}

// Before a key.
#[tactic(auto, unfolding(crate::specs::Phase::space_from, crate::specs::Phase::space_on))]
fn space_from(tag: &[u8], from: usize) -> Phase
    ensures { result ≡ space_from tag.now from }
{
    let k = scan::content_from(tag, from);
    if k >= tag.len() {
        return Phase::InSpace;
    }
    key_from(tag, k, k + 1)
}

// In what is passed over after refusal 3 or 5.
#[tactic(auto, unfolding(crate::specs::Phase::skip_from, crate::specs::Phase::skip_on))]
fn skip_from(tag: &[u8], from: usize) -> Phase
    ensures { result ≡ skip_from tag.now from }
{
    let w = scan::whitespace_from(tag, from);
    if w >= tag.len() {
        return Phase::InSkip;
    }
    space_from(tag, w)
}

// From the place on.
#[tactic(auto, unfolding(crate::specs::Phase::begin_at))]
fn begin_at(tag: &[u8], place: Place) -> Phase
    ensures { result ≡ begin_at tag.now place }
{
    match place {
        Place::Next(offset) if offset <= tag.len() => space_from(tag, offset),
        Place::Done | Place::Next(_) => Phase::Begin,
        Place::SkipValue(offset) | Place::SkipEqValue(offset) => skip_from(tag, offset),
    }
}

// The phase of what is held now, `tag`, where it was `phase` for the bytes before `from`.
#[tactic(auto, unfolding(crate::specs::Phase::carried_of))]
pub fn carry(tag: &[u8], from: usize, place: Place, phase: Phase) -> Phase
    ensures { result ≡ carried_of tag.now from place phase }
{
    match phase {
        Phase::Begin => begin_at(tag, place),
        Phase::Due => Phase::Due,
        Phase::InSkip => skip_from(tag, from),
        Phase::InSpace => space_from(tag, from),
        Phase::InKey(start) => key_from(tag, start, from),
        Phase::AfterKey(key) => after_from(tag, key, from),
        Phase::BeforeValue(key) => value_from(tag, key, from),
        Phase::InDouble(key) => quoted_from(tag, b'"', key, from),
        Phase::InSingle(key) => quoted_from(tag, b'\'', key, from),
        Phase::InUnquoted(key) => unquoted_from(tag, key, from),
    }
}

// Whether a phase waits in this mode.
#[tactic(auto, unfolding(crate::specs::Phase::waiting_of))]
fn waiting_in(html: bool, phase: Phase) -> Waiting
    ensures { result ≡ waiting_of html phase }
{
    match phase {
        Phase::Begin | Phase::Due => Waiting::Never,
        Phase::InSkip | Phase::InSpace | Phase::InKey(_) | Phase::AfterKey(_) => Waiting::Always,
        Phase::InUnquoted(_) if !html => Waiting::Never,
        Phase::BeforeValue(key)
        | Phase::InDouble(key)
        | Phase::InSingle(key)
        | Phase::InUnquoted(key) => Waiting::UnlessRefused(key),
    }
}

// Whether refusal 5 or 6 answers a key.
fn refused<'a>(
    tag: &[u8],
    starts: &'a [usize],
    ends: &'a [usize],
    hashes: &'a [u32],
    checks: bool,
    count: usize,
    key: Span,
) -> bool
    requires { KeysIn starts.now ends.now hashes.now count tag.now }
    ensures { result ≡ refused_of tag.now checks (keys_lent starts.now ends.now hashes.now count) key }
{
    key.start < key.end
        && key.end <= tag.len()
        && tag_look::check_in(tag, starts, ends, hashes, checks, count, key).is_err()
}

// Whether the phase says that the next answer needs bytes that are not held yet.
#[tactic(auto, unfolding(crate::specs::Phase::waits_on, crate::specs::Phase::waits_by))]
pub fn waits<'a>(
    tag: &[u8],
    starts: &'a [usize],
    ends: &'a [usize],
    hashes: &'a [u32],
    at: Standing,
    phase: Phase,
) -> bool
    requires { KeysIn starts.now ends.now hashes.now at.count tag.now }
    ensures { result ≡ waits_on tag.now at.html at.checks (keys_lent starts.now ends.now hashes.now at.count) phase }
{
    match waiting_in(at.html, phase) {
        Waiting::Never => false,
        Waiting::Always => true,
        Waiting::UnlessRefused(key) => !refused(
            tag, starts, ends, hashes, at.checks, at.count, key,
        ),
    }
}
