// Holds a resolver's answers against recorded ones, read from standard input. A record is one call, with the numbers of
// two bytes lower byte first:
//
//     call   numbers   length   first ..   length   second ..   code   values   used   count   level
//     1      2, 2      2        length     2        length      2      10       2      2       2
//
// The calls are those of `RecordedCall`, in its order, and each acts on what the calls before it have left. `code` and five
// values are the answer; then how many bytes of text and how many records are in use, and at which level. The resolver
// goes from call to call by value, so that each contract is one equation on all of it. The calls are made twice: each by
// value, and each on a resolver in a local that is lent to it. What is counted is `calls_replayed`, specs/Replay.antt.
#![tactic(auto)]

ghost use Rattle.std.specs.Prelude.{true, false, ◌≡◌, ◌+◌, ◌≤◌, length};
ghost use Rattle.scope_change.specs.Change.{level_of};
ghost use Rattle.scope_declare.specs.Declare.{add_of, pop_of, limited_of};
ghost use Rattle.scope_push.specs.Push.{push_of};
ghost use Rattle.scope_lookup.specs.Lookup.{resolve_of};
ghost use Rattle.scope_listing.specs.Listing.{bindings_of, bindings_at_of};
ghost use Rattle.replay_scopes.specs.Calls.{said_numbers, change_said, lookup_said, place_after, listing_said, shown_in, changed_by, reset_to, called_lookup, called_listing, recorded_call_of, called_of};
ghost use Rattle.replay_scopes.specs.Replay.{same_said, same_left, lengths_of, held_to, turn_of, call_record_of, calls_replayed};

use name::PrefixDeclaration;
use replay::{Agreed, RecordError, Replayed, RunError};
use scope_listing::{Binding, Listing};
use scope_lookup::ResolveResult;
use scope_table::{Changed, FormError, NamespaceError, NamespaceResolver};
use std::io;
use std::io::Read;

// A recorded call, with what its numbers and texts are.
#[derive(Clone, Copy)]
enum RecordedCall {
    Fresh,
    // second text: the value
    AddDefault,
    // the prefix, the value
    AddNamed,
    // first number: where the attributes begin; first text: the tag
    Push,
    Pop,
    // the level
    SetLevel,
    // the limit
    SetLimit,
    // the name
    ResolveAttribute,
    // the name
    ResolveElement,
    // the place
    Bindings,
    // the place, the level
    BindingsOf,
}

// An answer in numbers: its code, and its values with zeros after them.
#[derive(Clone, Copy)]
struct Said {
    code: usize,
    first: usize,
    second: usize,
    third: usize,
    fourth: usize,
    fifth: usize,
}

// What a call answers, how many names it resolves and how many bindings it shows, and the resolver that it leaves.
#[derive(Clone, Copy)]
struct Called {
    said: Said,
    names: usize,
    bindings: usize,
    resolver: NamespaceResolver,
}

// The lengths of a record's two texts.
#[derive(Clone, Copy)]
struct Lengths {
    first: usize,
    second: usize,
}

// What stands at the front of some bytes, and the resolver after it.
#[derive(Clone, Copy)]
struct Turn {
    step: Result<Agreed, RecordError>,
    resolver: NamespaceResolver,
}

// The call of a number. It can't fail, so it is no TryFrom: the definition gives each number a call.
#[tactic(auto, unfolding(crate::specs::Calls::recorded_call_of))]
fn call_of(number: u8) -> RecordedCall
    ensures { result ≡ recorded_call_of number }
{
    match number {
        0 => RecordedCall::Fresh,
        1 => RecordedCall::AddDefault,
        2 => RecordedCall::AddNamed,
        3 => RecordedCall::Push,
        4 => RecordedCall::Pop,
        5 => RecordedCall::SetLevel,
        6 => RecordedCall::SetLimit,
        7 => RecordedCall::ResolveAttribute,
        8 => RecordedCall::ResolveElement,
        9 => RecordedCall::Bindings,
        _ => RecordedCall::BindingsOf,
    }
}

// An answer of at most two values.
fn says(code: usize, first: usize, second: usize) -> Said
    ensures { result ≡ said_numbers code first second }
{
    Said {
        code,
        first,
        second,
        third: 0,
        fourth: 0,
        fifth: 0,
    }
}

// A changing call: 0, or a refusal's number and its values.
fn change_said(answer: Result<(), NamespaceError>) -> Said
    ensures { result ≡ change_said answer }
{
    let told = scope_table::change_numbers(answer);
    says(told.number, told.first, told.second)
}

// A lookup: 0 unbound, 1 bound with the bounds of the URI in the resolver's text, 2 unknown with those of the prefix.
fn lookup_said(found: Result<ResolveResult, FormError>) -> Said
    ensures { result ≡ lookup_said found }
{
    let told = scope_lookup::resolved_numbers(found);
    says(told.number, told.first, told.second)
}

// The place to go on from, which is recorded where a binding is shown.
#[tactic(auto, unfolding(crate::specs::Calls::place_after))]
fn place_after(answer: Result<Option<Binding>, FormError>, place: usize) -> usize
    ensures { result ≡ place_after answer place }
{
    match answer {
        Ok(Some(_)) => place,
        Ok(None) | Err(_) => 0,
    }
}

// A listing: 0 for its end; 1 for a default, which has no prefix, and 2 for a named one, with the bounds of prefix and
// value, and the place to go on from.
fn listing_said(answer: Result<Option<Binding>, FormError>, place: usize) -> Said
    ensures { result ≡ listing_said answer place }
{
    let told = scope_listing::listed_numbers(answer);
    let after = place_after(answer, place);
    Said {
        code: told.number,
        first: told.prefix_from,
        second: told.prefix_to,
        third: told.value_from,
        fourth: told.value_to,
        fifth: after,
    }
}

#[tactic(auto, unfolding(crate::specs::Calls::shown_in))]
fn shown_in(answer: Result<Option<Binding>, FormError>) -> usize
    ensures { result ≡ shown_in answer }
{
    match answer {
        Ok(Some(_)) => 1,
        Ok(None) | Err(_) => 0,
    }
}

// A changing call that may refuse.
#[tactic(auto, unfolding(crate::specs::Calls::changed_by))]
fn changed_by(c: Changed) -> Called
    ensures { result ≡ changed_by c }
{
    let answer = c.answer;
    let left = c.resolver;
    Called {
        said: change_said(answer),
        names: 0,
        bindings: 0,
        resolver: left,
    }
}

// One that never does: a fresh resolver, or another limit.
#[tactic(auto, unfolding(crate::specs::Calls::reset_to))]
fn reset_to(r: NamespaceResolver) -> Called
    ensures { result ≡ reset_to r }
{
    Called {
        said: says(0, 0, 0),
        names: 0,
        bindings: 0,
        resolver: r,
    }
}

// A question, which leaves the resolver as it was.
fn looked_up(r: NamespaceResolver, found: Result<ResolveResult, FormError>) -> Called
    ensures { result ≡ called_lookup r found }
{
    Called {
        said: lookup_said(found),
        names: 1,
        bindings: 0,
        resolver: r,
    }
}

#[tactic(auto, unfolding(crate::specs::Calls::called_listing))]
fn listed_as(r: NamespaceResolver, listing: Listing) -> Called
    ensures { result ≡ called_listing r listing }
{
    let answer = listing.answer;
    Called {
        said: listing_said(answer, listing.place),
        names: 0,
        bindings: shown_in(answer),
        resolver: r,
    }
}

// A form of the resolver's calls: what each answers, and the resolver that it leaves.
trait Form {
    fn add(
        r: NamespaceResolver,
        declares: Option<PrefixDeclaration>,
        prefix: &[u8],
        value: &[u8],
    ) -> Changed
        ensures { result ≡ add_of declares prefix.now value.now r };

    fn push(r: NamespaceResolver, tag: &[u8], from: usize) -> Changed
        ensures { result ≡ push_of tag.now from r };

    fn pop(r: NamespaceResolver) -> Changed
        ensures { result ≡ pop_of r };

    fn set_level(r: NamespaceResolver, level: u16) -> Changed
        ensures { result ≡ level_of level r };

    fn set_limit(r: NamespaceResolver, limit: usize) -> NamespaceResolver
        ensures { result ≡ limited_of limit r };

    fn resolve_attribute(r: NamespaceResolver, name: &[u8]) -> Result<ResolveResult, FormError>
        ensures { result ≡ resolve_of name.now false r };

    fn resolve_element(r: NamespaceResolver, name: &[u8]) -> Result<ResolveResult, FormError>
        ensures { result ≡ resolve_of name.now true r };

    fn bindings(r: NamespaceResolver, place: usize) -> Listing
        ensures { result ≡ bindings_of place r };

    fn bindings_of(r: NamespaceResolver, level: u16, place: usize) -> Listing
        ensures { result ≡ bindings_at_of level place r };
}

// Each call by value.
struct ByValue;

#[tactic(auto, using(scope_table::proofs::Answers::change_apart, scope_lookup::proofs::Numbers::resolved_apart, scope_listing::proofs::Numbers::listing_apart))]
impl Form for ByValue {
    fn add(
        r: NamespaceResolver,
        declares: Option<PrefixDeclaration>,
        prefix: &[u8],
        value: &[u8],
    ) -> Changed {
        scope_declare::add(r, declares, prefix, value)
    }

    fn push(r: NamespaceResolver, tag: &[u8], from: usize) -> Changed {
        scope_push::push(r, tag, from)
    }

    fn pop(r: NamespaceResolver) -> Changed {
        scope_declare::pop(r)
    }

    fn set_level(r: NamespaceResolver, level: u16) -> Changed {
        scope_declare::set_level(r, level)
    }

    fn set_limit(r: NamespaceResolver, limit: usize) -> NamespaceResolver {
        scope_declare::set_max_namespace_bindings(r, limit)
    }

    fn resolve_attribute(r: NamespaceResolver, name: &[u8]) -> Result<ResolveResult, FormError> {
        scope_lookup::resolve_attribute(r, name)
    }

    fn resolve_element(r: NamespaceResolver, name: &[u8]) -> Result<ResolveResult, FormError> {
        scope_lookup::resolve_element(r, name)
    }

    fn bindings(r: NamespaceResolver, place: usize) -> Listing {
        scope_listing::bindings(r, place)
    }

    fn bindings_of(r: NamespaceResolver, level: u16, place: usize) -> Listing {
        scope_listing::bindings_of(r, level, place)
    }
}

// Those that change a resolver on one that is lent to them, names by the call that is told whether a default is wanted, and
// listings by the iterators that carry the resolver.
struct Lent;

#[tactic(auto, using(scope_lookup::proofs::Numbers::resolved_apart))]
impl Form for Lent {
    fn add(
        r: NamespaceResolver,
        declares: Option<PrefixDeclaration>,
        prefix: &[u8],
        value: &[u8],
    ) -> Changed {
        replay_forms::add(r, declares, prefix, value)
    }

    fn push(r: NamespaceResolver, tag: &[u8], from: usize) -> Changed {
        replay_forms::push(r, tag, from)
    }

    fn pop(r: NamespaceResolver) -> Changed {
        replay_forms::pop(r)
    }

    fn set_level(r: NamespaceResolver, level: u16) -> Changed {
        replay_forms::set_level(r, level)
    }

    fn set_limit(r: NamespaceResolver, limit: usize) -> NamespaceResolver {
        replay_forms::set_max_namespace_bindings(r, limit)
    }

    fn resolve_attribute(r: NamespaceResolver, name: &[u8]) -> Result<ResolveResult, FormError> {
        scope_lookup::resolve(r, name, false)
    }

    fn resolve_element(r: NamespaceResolver, name: &[u8]) -> Result<ResolveResult, FormError> {
        scope_lookup::resolve(r, name, true)
    }

    fn bindings(r: NamespaceResolver, place: usize) -> Listing {
        replay_forms::bindings(r, place)
    }

    fn bindings_of(r: NamespaceResolver, level: u16, place: usize) -> Listing {
        replay_forms::bindings_of(r, level, place)
    }
}

// A call is made, with its numbers and texts.
fn make<F: Form>(
    r: NamespaceResolver,
    call: RecordedCall,
    a: u16,
    b: u16,
    first: &[u8],
    second: &[u8],
) -> Called
    ensures { result ≡ called_of r call a b first.now second.now }
{
    match call {
        RecordedCall::Fresh => reset_to(NamespaceResolver::fresh()),
        RecordedCall::AddDefault => {
            changed_by(F::add(r, Some(PrefixDeclaration::Default), first, second))
        }
        RecordedCall::AddNamed => changed_by(F::add(
            r,
            Some(PrefixDeclaration::Named),
            first,
            second,
        )),
        RecordedCall::Push => changed_by(F::push(r, first, replay::wide(a))),
        RecordedCall::Pop => changed_by(F::pop(r)),
        RecordedCall::SetLevel => changed_by(F::set_level(r, a)),
        RecordedCall::SetLimit => reset_to(F::set_limit(r, replay::wide(a))),
        RecordedCall::ResolveAttribute => looked_up(r, F::resolve_attribute(r, first)),
        RecordedCall::ResolveElement => looked_up(r, F::resolve_element(r, first)),
        RecordedCall::Bindings => listed_as(r, F::bindings(r, replay::wide(a))),
        RecordedCall::BindingsOf => listed_as(r, F::bindings_of(r, b, replay::wide(a))),
    }
}

// Whether an answer is the one that is recorded at the front of some bytes.
#[tactic(auto, unfolding(crate::specs::Replay::same_said))]
fn same_said(answer: Said, recorded: &[u8]) -> bool
    requires { 18 ≤ length recorded.now }
    ensures { result ≡ same_said answer recorded.now }
{
    replay::is_two(recorded, 0, answer.code)
        && replay::is_two(recorded, 2, answer.first)
        && replay::is_two(recorded, 4, answer.second)
        && replay::is_two(recorded, 6, answer.third)
        && replay::is_two(recorded, 8, answer.fourth)
        && replay::is_two(recorded, 10, answer.fifth)
}

// Whether the text in use, the record count and the level are those that stand after it.
#[tactic(auto, unfolding(crate::specs::Replay::same_left))]
fn same_left(used: usize, count: usize, level: usize, recorded: &[u8]) -> bool
    requires { 18 ≤ length recorded.now }
    ensures { result ≡ same_left used count level recorded.now }
{
    replay::is_two(recorded, 12, used)
        && replay::is_two(recorded, 14, count)
        && replay::is_two(recorded, 16, level)
}

// What a call of a record of so many bytes made is held against what is recorded.
#[tactic(auto, unfolding(crate::specs::Replay::held_to))]
fn held_to(made: Called, size: usize, recorded: &[u8]) -> Turn
    requires { 18 ≤ length recorded.now }
    ensures { result ≡ held_to made size recorded.now }
{
    let resolver = made.resolver;
    let head = resolver.head;
    let same = same_said(made.said, recorded)
        && same_left(head.used, head.count, head.level, recorded);
    let step = if same {
        Ok(Agreed {
            size,
            names: made.names,
            bindings: made.bindings,
        })
    } else {
        Err(RecordError::Differs)
    };
    Turn { step, resolver }
}

// The lengths of the record at the front, where the whole record is there.
#[tactic(auto, unfolding(crate::specs::Replay::lengths_of))]
fn lengths_of(rest: &[u8]) -> Option<Lengths>
    ensures { result ≡ lengths_of rest.now }
{
    if rest.len() < 27 {
        return None;
    }
    if 10 < rest[0] {
        return None;
    }
    let n = replay::wide(replay::two_at(rest, 5));
    if rest.len() - 27 < n {
        return None;
    }
    let m = replay::wide(replay::two_at(rest, 7 + n));
    if rest.len() - 27 - n < m {
        return None;
    }
    Some(Lengths {
        first: n,
        second: m,
    })
}

// The call of a whole record, whose texts have n and m bytes.
fn turn_of<F: Form>(r: NamespaceResolver, rest: &[u8], n: usize, m: usize) -> Turn
    requires { 27 + n + m ≤ length rest.now }
    ensures { result ≡ turn_of r rest.now n m }
{
    let to = 7 + n;
    let from = 9 + n;
    let end = from + m;
    let made = make::<F>(
        r,
        call_of(rest[0]),
        replay::two_at(rest, 1),
        replay::two_at(rest, 3),
        &rest[7..to],
        &rest[from..end],
    );
    held_to(made, 18 + end, &rest[end..])
}

fn record_of<F: Form>(r: NamespaceResolver, rest: &[u8]) -> Turn
    ensures { result ≡ call_record_of r rest.now }
{
    let lengths = lengths_of(rest);
    match lengths {
        Some(whole) => turn_of::<F>(r, rest, whole.first, whole.second),
        None => Turn {
            step: Err(RecordError::Cut),
            resolver: r,
        },
    }
}

// How many records agree before the first that does not, and where that one is. A fresh resolver is there from the start.
fn replay<F: Form>(records: &[u8]) -> Replayed
    ensures { result ≡ calls_replayed records.now }
{
    let mut resolver = NamespaceResolver::fresh();
    let mut run = replay::begun();
    // a `while`, as records have any size: no range gives the places
    while run.at < records.len() {
        let at = run.at;
        let turn = record_of::<F>(resolver, &records[at..]);
        resolver = turn.resolver;
        run = replay::after(run, turn.step, records.len());
    }
    run
}

// Room for the records. The contract gives the length, which lending the array as a slice needs.
fn room() -> [u8; 262144]
    ensures { 262144 ≡ length result }
{
    [0; 262144]
}

// A number on standard output, with the words before it.
fn say(rt: &impl Print, words: &str, n: usize) -> io::Result<()> {
    print!(rt; "{words}{n}")
}

// The end of a line of counts: all agreed, or where the run stopped. `which` says what a record is.
fn say_end(rt: &impl Print, end: Result<(), RunError>, which: &str) -> io::Result<()> {
    match end {
        Ok(()) => println!(rt; ", all as recorded"),
        Err(RunError::Differs(at)) => {
            println!(rt; " as recorded, and {which} that is not at byte {at}")
        }
        Err(RunError::Cut(at)) => println!(rt; " as recorded, and no whole record at byte {at}"),
    }
}

// Whether standard input goes on behind what was read, which is then said.
fn too_long(rt: &impl Print, from: &mut impl Read) -> io::Result<bool> {
    let mut one = [0u8; 1];
    if from.read(&mut one)? > 0 {
        println!(rt; "too long")?;
        return Ok(true);
    }
    Ok(false)
}

fn show(rt: &impl Print, run: Replayed) -> io::Result<()> {
    say(rt, "calls ", run.records)?;
    say(rt, ", names ", run.names)?;
    say(rt, ", bindings ", run.bindings)?;
    say_end(rt, run.end, "a call")
}

fn main(rt: HostRuntime) -> io::Result<()> {
    let mut buffer = room();
    let count = io::copy(&mut rt.stdin().take(262144), &mut &mut buffer[..])?;
    let n = buffer.len().min(count as usize);
    if too_long(&rt, &mut rt.stdin())? {
        return Ok(());
    }
    show(&rt, replay::<ByValue>(&buffer[..n]))?;
    show(&rt, replay::<Lent>(&buffer[..n]))
}
