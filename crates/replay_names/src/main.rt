// Holds the answers of `name` against recorded ones, read from standard input. A record, with the numbers of two bytes
// lower byte first:
//
//     length   name ..   colon   declares   declared prefix   xml   xmlns
//     2        length    2       1          2                 1     1
//
// `colon` is the index of the first colon, 65,535 for none; `declares` is 0 for nothing, 1 for the default, 2 for a
// prefix; then where that prefix starts, 0 for none; then whether the part before the colon is `xml`, and `xmlns`, 0
// where there is no colon. What is counted is `names_replayed`, specs/Replay.antt.
#![tactic(auto)]

ghost use Rattle.std.specs.Prelude.{◌≡◌, ◌≤◌, length};
ghost use Rattle.replay_names.specs.Replay.{colon_number, start_number, xml_number, xmlns_number, name_agrees, name_record_of, names_replayed};

use replay::{Agreed, RecordError, Replayed, RunError};
use std::io;
use std::io::Read;

fn colon_number(name: &[u8]) -> usize
    ensures { result ≡ colon_number name.now }
{
    name::index(name).unwrap_or(65535)
}

// Where the declared prefix starts: as many bytes from the end as it has.
fn start_number(name: &[u8]) -> usize
    ensures { result ≡ start_number name.now }
{
    if name::declares_number(name::as_namespace_binding(name)) != 2 {
        return 0;
    }
    let declared = name::declared_prefix(name);
    name.len() - declared.len()
}

#[tactic(auto, unfolding(crate::specs::Replay::xml_number))]
fn xml_number(name: &[u8]) -> usize
    ensures { result ≡ xml_number name.now }
{
    usize::from(name::is_xml(name::prefix(name)))
}

#[tactic(auto, unfolding(crate::specs::Replay::xmlns_number))]
fn xmlns_number(name: &[u8]) -> usize
    ensures { result ≡ xmlns_number name.now }
{
    usize::from(name::is_xmlns(name::prefix(name)))
}

// Whether the answers to a name are the recorded ones, which stand at the front of `recorded`.
#[tactic(auto, unfolding(crate::specs::Replay::name_agrees))]
fn agrees(name: &[u8], recorded: &[u8]) -> bool
    requires { 7 ≤ length recorded.now }
    ensures { result ≡ name_agrees name.now recorded.now }
{
    replay::is_two(recorded, 0, colon_number(name))
        && replay::is_byte(
            recorded,
            2,
            name::declares_number(name::as_namespace_binding(name)),
        )
        && replay::is_two(recorded, 3, start_number(name))
        && replay::is_byte(recorded, 5, xml_number(name))
        && replay::is_byte(recorded, 6, xmlns_number(name))
}

fn record_of(rest: &[u8]) -> Result<Agreed, RecordError>
    ensures { result ≡ name_record_of rest.now }
{
    if rest.len() < 9 {
        return Err(RecordError::Cut);
    }
    let n = replay::number_at(rest, 0);
    if rest.len() - 9 < n {
        return Err(RecordError::Cut);
    }
    let to = 2 + n;
    if agrees(&rest[2..to], &rest[to..]) {
        return Ok(Agreed {
            size: 9 + n,
            names: 0,
            bindings: 0,
        });
    }
    Err(RecordError::Differs)
}

// How many records agree before the first that does not, and where that one is.
fn replay(records: &[u8]) -> Replayed
    ensures { result ≡ names_replayed records.now }
{
    let mut run = replay::begun();
    // a `while`, as records have any size: no range gives the places
    while run.at < records.len() {
        let at = run.at;
        let step = record_of(&records[at..]);
        run = replay::after(run, step, records.len());
    }
    run
}

// Room for the records. The contract gives the length, which lending the array as a slice needs.
fn room() -> [u8; 262144]
    ensures { 262144 ≡ length result }
{
    [0; 262144]
}

// A number on standard output, with the words before it.
fn say(rt: &impl Print, words: &str, n: usize) -> io::Result<()> {
    print!(rt; "{words}{n}")
}

// The end of a line of counts: all agreed, or where the run stopped. `which` says what a record is.
fn say_end(rt: &impl Print, end: Result<(), RunError>, which: &str) -> io::Result<()> {
    match end {
        Ok(()) => println!(rt; ", all as recorded"),
        Err(RunError::Differs(at)) => {
            println!(rt; " as recorded, and {which} that is not at byte {at}")
        }
        Err(RunError::Cut(at)) => println!(rt; " as recorded, and no whole record at byte {at}"),
    }
}

// Whether standard input goes on behind what was read, which is then said.
fn too_long(rt: &impl Print, from: &mut impl Read) -> io::Result<bool> {
    let mut one = [0u8; 1];
    if from.read(&mut one)? > 0 {
        println!(rt; "too long")?;
        return Ok(true);
    }
    Ok(false)
}

fn show(rt: &impl Print, run: Replayed) -> io::Result<()> {
    say(rt, "names ", run.records)?;
    say_end(rt, run.end, "one")
}

fn main(rt: HostRuntime) -> io::Result<()> {
    let mut buffer = room();
    let count = io::copy(&mut rt.stdin().take(262144), &mut &mut buffer[..])?;
    let n = buffer.len().min(count as usize);
    if too_long(&rt, &mut rt.stdin())? {
        return Ok(());
    }
    show(&rt, replay(&buffer[..n]))
}
