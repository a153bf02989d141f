// Holds answers to questions within the scope of one tag against recorded ones, read from standard input: the namespace of a
// name and of a prefix, an unknown one as refusal 11, and searches for `nil`. A record, with the numbers of two bytes lower
// byte first:
//
//     question   settings   position   length   scope ..   length   text ..   code   values
//     1          1, 1       2          2        length     2        length    2      6
//
// The questions are those of `reply_to`. Each is asked twice: of a resolver and an iterator by value, and of those that a
// form over references left. What is compared are numbers: each call has its own exact contract, and here none is repeated.
#![tactic(auto)]

ghost use Rattle.std.specs.Prelude.{◌≤◌, ◌≡◌, length};

use replay::{Agreed, RecordError, Replayed, RunError};
use scope_lookup::{LookupError, Namespace};
use scope_nil::HasNil;
use scope_table::{FormError, NamespaceResolver};
use std::io;
use std::io::Read;
use tag_step::{IterState, Place};

// An answer in numbers, with zeros behind them.
#[derive(Clone, Copy)]
struct Reply {
    code: usize,
    first: usize,
    second: usize,
    third: usize,
}

fn says(code: usize, first: usize, second: usize, third: usize) -> Reply {
    Reply {
        code,
        first,
        second,
        third,
    }
}

// 0 for a namespace, with the bounds of the URI, and for none; 11 with those of the prefix.
fn namespace_reply(told: Result<Option<Namespace>, LookupError>) -> Reply {
    match told {
        Ok(Some(found)) => says(0, found.start, found.end, 0),
        Ok(None) => says(0, 0, 0, 0),
        Err(LookupError::UnknownPrefix(from, to)) => says(11, from, to, 0),
        Err(LookupError::Form(FormError::BadResolver)) => says(20, 0, 0, 0),
        Err(LookupError::Form(FormError::WrongLength)) => says(99, 0, 0, 0),
    }
}

// The code, the place that is left, by its kind and its position, and how many keys are recorded.
fn nil_reply(found: HasNil) -> Reply {
    let state = found.state;
    let code = scope_nil::nil_number(found.answer);
    let count = state.count;
    let place = state.place;
    match place {
        Place::Done => says(code, 0, 0, count),
        Place::Next(at) => says(code, 1, at, count),
        Place::SkipValue(at) => says(code, 2, at, count),
        Place::SkipEqValue(at) => says(code, 3, at, count),
    }
}

// A form of the calls.
trait Form {
    // The resolver within a tag.
    fn scope_of(tag: &[u8]) -> NamespaceResolver;

    // An iterator as it opens.
    fn opened(tag: &[u8], at: usize, html: bool, checks: bool) -> IterState;

    // A search for `nil`.
    fn has_nil(state: IterState, tag: &[u8], r: NamespaceResolver) -> HasNil;
}

struct ByValue;

impl Form for ByValue {
    fn scope_of(tag: &[u8]) -> NamespaceResolver {
        let pushed = scope_push::push(NamespaceResolver::fresh(), tag, 0);
        pushed.resolver
    }

    fn opened(tag: &[u8], at: usize, html: bool, checks: bool) -> IterState {
        IterState::new(at, html).with_checks(checks)
    }

    fn has_nil(state: IterState, tag: &[u8], r: NamespaceResolver) -> HasNil {
        scope_nil::has_nil(state, tag, r)
    }
}

// On a resolver that is lent, and by the iterator that carries its tag.
struct OverReferences;

impl Form for OverReferences {
    fn scope_of(tag: &[u8]) -> NamespaceResolver {
        let pushed = replay_forms::push(NamespaceResolver::fresh(), tag, 0);
        pushed.resolver
    }

    fn opened(tag: &[u8], at: usize, html: bool, checks: bool) -> IterState {
        if html {
            return replay_forms::opened_html(tag, at, checks);
        }
        replay_forms::opened(tag, at, checks)
    }

    fn has_nil(state: IterState, tag: &[u8], r: NamespaceResolver) -> HasNil {
        replay_forms::has_nil(state, tag, r)
    }
}

// The questions by their numbers: 0 a name, with the default wanted or not; 1 the same of a prefix, if there is one; any
// other a search for `nil`, in HTML mode or not, with checks or without.
fn reply_to<F: Form>(
    question: u8,
    one: bool,
    other: bool,
    at: usize,
    scope: &[u8],
    text: &[u8],
) -> Reply {
    let r = F::scope_of(scope);
    if question == 0 {
        let found = scope_lookup::resolve(r, text, one);
        return namespace_reply(scope_lookup::namespace_of(found));
    }
    if question == 1 {
        let found = scope_lookup::resolve_prefix(r, text, other, one);
        return namespace_reply(scope_lookup::namespace_of(found));
    }
    nil_reply(F::has_nil(F::opened(text, at, one, other), text, r))
}

// Whether a reply is the one that is recorded at the front of some bytes.
fn same_reply(x: Reply, recorded: &[u8]) -> bool
    requires { 8 ≤ length recorded.now }
{
    replay::is_two(recorded, 0, x.code)
        && replay::is_two(recorded, 2, x.first)
        && replay::is_two(recorded, 4, x.second)
        && replay::is_two(recorded, 6, x.third)
}

// The record at the front.
fn record_of<F: Form>(rest: &[u8]) -> Result<Agreed, RecordError> {
    if rest.len() < 17 {
        return Err(RecordError::Cut);
    }
    let n = replay::number_at(rest, 5);
    if rest.len() - 17 < n {
        return Err(RecordError::Cut);
    }
    let m = replay::number_at(rest, 7 + n);
    if rest.len() - 17 - n < m {
        return Err(RecordError::Cut);
    }
    let to = 7 + n;
    let from = 9 + n;
    let end = from + m;
    let x = reply_to::<F>(
        rest[0],
        rest[1] == 1,
        rest[2] == 1,
        replay::number_at(rest, 3),
        &rest[7..to],
        &rest[from..end],
    );
    if same_reply(x, &rest[end..]) {
        return Ok(Agreed {
            size: 8 + end,
            names: 0,
            bindings: 0,
        });
    }
    Err(RecordError::Differs)
}

// How many records agree before the first that does not, and where that one is. A size of none, or past the last byte, is
// no whole record.
fn replay<F: Form>(records: &[u8]) -> Replayed {
    let mut run = replay::begun();
    // a `while`, as records have any size: no range gives the places
    while run.at < records.len() {
        let at = run.at;
        let left = records.len() - at;
        match record_of::<F>(&records[at..]) {
            Ok(record) if 0 < record.size && record.size <= left => {
                run.at += record.size;
                run.records += 1;
            }
            Ok(_) | Err(RecordError::Cut) => {
                run.end = Err(RunError::Cut(at));
                return run;
            }
            Err(RecordError::Differs) => {
                run.end = Err(RunError::Differs(at));
                return run;
            }
        }
    }
    run
}

// Room for the records. The contract gives the length, which lending the array as a slice needs.
fn room() -> [u8; 131072]
    ensures { 131072 ≡ length result }
{
    [0; 131072]
}

// A number on standard output, with the words before it.
fn say(rt: &impl Print, words: &str, n: usize) -> io::Result<()> {
    print!(rt; "{words}{n}")
}

// The end of a line of counts: all agreed, or where the run stopped.
fn say_end(rt: &impl Print, end: Result<(), RunError>) -> io::Result<()> {
    match end {
        Ok(()) => println!(rt; ", all as recorded"),
        Err(RunError::Differs(at)) => println!(rt;
            " as recorded, and one that is not at byte {at}"
        ),
        Err(RunError::Cut(at)) => println!(rt; " as recorded, and no whole record at byte {at}"),
    }
}

// Whether standard input goes on behind what was read, which is then said.
fn too_long(rt: &impl Print, from: &mut impl Read) -> io::Result<bool> {
    let mut one = [0u8; 1];
    if from.read(&mut one)? > 0 {
        println!(rt; "too long")?;
        return Ok(true);
    }
    Ok(false)
}

fn show(rt: &impl Print, run: Replayed) -> io::Result<()> {
    say(rt, "questions ", run.records)?;
    say_end(rt, run.end)
}

fn main(rt: HostRuntime) -> io::Result<()> {
    let mut buffer = room();
    let count = io::copy(&mut rt.stdin().take(131072), &mut &mut buffer[..])?;
    let n = buffer.len().min(count as usize);
    if too_long(&rt, &mut rt.stdin())? {
        return Ok(());
    }
    show(&rt, replay::<ByValue>(&buffer[..n]))?;
    show(&rt, replay::<OverReferences>(&buffer[..n]))
}
