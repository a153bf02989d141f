// Holds the iterator's answers against recorded ones, read from standard input. A record, with the numbers of two bytes
// lower byte first:
//
//     length   tag ..    html   checks   opening   answers   five numbers for each ..
//     2        length    1      1        2         2         10 * answers
//
// An answer's five numbers are those of `tag_batch::numbers`. Each record is read three times: in batches of 512 answers and of
// one, since the run is the same however it is cut, and by the iterator that carries its tag, one `next` after another. What
// is counted is `tags_replayed`, specs/Replay.antt.
#![tactic(auto)]

ghost use Rattle.std.specs.Prelude.{◌≡◌, ◌*◌, ◌≤◌, length};
ghost use Rattle.scan.specs.Bytes.{same_bytes};
ghost use Rattle.tag_step.specs.Next.{opened};
ghost use Rattle.tag_batch.specs.Batch.{listed};
ghost use Rattle.replay.specs.Numbers.{twos_of};
ghost use Rattle.replay_tags.specs.Replay.{answers_agree, ReplayMemory, replay_opened, tag_record_of, tags_replayed};

use replay::{Agreed, RecordError, Replayed, RunError};
use std::io;
use std::io::Read;
use tag_batch::Five;
use tag_keys::CAPACITY;
use tag_step::{IterState, Place, Standing};

// How a recorded tag was read: in HTML mode or in XML mode, whether keys were checked and recorded, and from where.
#[derive(Clone, Copy)]
pub struct Mode {
    pub html: bool,
    pub checks: bool,
    pub opening: usize,
}

fn wide(b: u8) -> usize
    ensures { result ≡ b }
{
    b as usize
}

// Whether the recorded answers are those of a fresh iterator on lent tables, read in batches of as many as `out` holds.
fn agrees_on<'a>(
    tag: &[u8],
    mode: Mode,
    answers: usize,
    recorded: &[u8],
    starts: &'a mut [usize],
    ends: &'a mut [usize],
    hashes: &'a mut [u32],
    out: &mut [usize],
) -> bool
    requires { ReplayMemory starts.old ends.old hashes.old out.old answers recorded.now }
    ensures { result ≡ answers_agree tag.now
        (replay_opened mode.opening mode.html mode.checks starts.old ends.old hashes.old)
        answers recorded.now }
{
    let html = mode.html;
    let checks = mode.checks;
    let mut place = Place::Next(mode.opening);
    let mut keys = 0;
    let mut total = 0;
    // a `loop`, as the answers that were read say whether there is another page: no range gives the pages
    loop {
        let at = Standing {
            place,
            html,
            checks,
            count: keys,
        };
        let left = tag_batch::read_batch(tag, starts, ends, hashes, at, out);
        let Ok(read) = left else {
            return false;
        };
        let n = read.answers;
        if answers - total < n {
            return false;
        }
        let from = 10 * total;
        let to = 5 * n;
        if !replay::same_numbers(&out[..to], &recorded[from..]) {
            return false;
        }
        if n < out.len() / 5 {
            return total + n == answers;
        }
        total += n;
        place = read.place;
        keys = read.count;
    }
}

fn agrees(tag: &[u8], mode: Mode, answers: usize, recorded: &[u8], out: &mut [usize]) -> bool
    requires { (5 ≤ length out.old) × (10 * answers ≤ length recorded.now) }
    ensures { result ≡ answers_agree tag.now (opened mode.opening mode.html mode.checks) answers recorded.now }
{
    let mut starts = [0usize; CAPACITY];
    let mut ends = [0usize; CAPACITY];
    let mut hashes = [0u32; CAPACITY];
    agrees_on(
        tag,
        mode,
        answers,
        recorded,
        &mut starts,
        &mut ends,
        &mut hashes,
        out,
    )
}

// An iterator that carries its tag, as it opens.
fn opened_as(tag: &[u8], html: bool, checks: bool, opening: usize) -> IterState
    ensures { result ≡ opened opening html checks }
{
    if html {
        return replay_forms::opened_html(tag, opening, checks);
    }
    replay_forms::opened(tag, opening, checks)
}

// Whether five numbers are those that are recorded at the front of some bytes.
fn same_answer(x: Five, recorded: &[u8]) -> bool
    requires { 10 ≤ length recorded.now }
    ensures { result ≡ same_bytes (listed x) (twos_of 5 recorded.now) }
{
    let five = [x.code, x.a, x.b, x.c, x.d];
    replay::same_numbers(&five, recorded)
}

// Whether the recorded answers are those of an iterator that carries its tag.
fn agrees_carried(
    tag: &[u8],
    html: bool,
    checks: bool,
    opening: usize,
    answers: usize,
    recorded: &[u8],
) -> bool
    requires { 10 * answers ≤ length recorded.now }
    ensures { result ≡ answers_agree tag.now (opened opening html checks) answers recorded.now }
{
    let mut state = opened_as(tag, html, checks, opening);
    let mut total = 0;
    // a `loop`, as the tag's end is an answer too and is looked at: a range over the recorded answers would leave it out
    loop {
        let step = replay_forms::next(state, tag);
        let answer = step.answer;
        let x = tag_batch::numbers(answer);
        if x.code == 0 {
            return total == answers;
        }
        if total == answers {
            return false;
        }
        let from = 10 * total;
        if !same_answer(x, &recorded[from..]) {
            return false;
        }
        let left = step.state;
        state = left;
        total += 1;
    }
}

// By the one or the other.
fn agrees_by(
    carried: bool,
    tag: &[u8],
    mode: Mode,
    answers: usize,
    recorded: &[u8],
    out: &mut [usize],
) -> bool
    requires { (5 ≤ length out.old) × (10 * answers ≤ length recorded.now) }
    ensures { result ≡ answers_agree tag.now (opened mode.opening mode.html mode.checks) answers recorded.now }
{
    if carried {
        return agrees_carried(tag, mode.html, mode.checks, mode.opening, answers, recorded);
    }
    agrees(tag, mode, answers, recorded, out)
}

fn record_of(rest: &[u8], carried: bool, out: &mut [usize]) -> Result<Agreed, RecordError>
    requires { 5 ≤ length out.old }
    ensures { result ≡ tag_record_of rest.now }
{
    if rest.len() < 8 {
        return Err(RecordError::Cut);
    }
    let n = replay::number_at(rest, 0);
    if rest.len() - 8 < n {
        return Err(RecordError::Cut);
    }
    let to = 2 + n;
    let tail = &rest[to..];
    let answers = replay::number_at(tail, 4);
    if (tail.len() - 6) / 10 < answers {
        return Err(RecordError::Cut);
    }
    let mode = Mode {
        html: wide(tail[0]) == 1,
        checks: wide(tail[1]) == 1,
        opening: replay::number_at(tail, 2),
    };
    if agrees_by(carried, &rest[2..to], mode, answers, &tail[6..], out) {
        return Ok(Agreed {
            size: 8 + n + 10 * answers,
            names: 0,
            bindings: 0,
        });
    }
    Err(RecordError::Differs)
}

// How many records agree before the first that does not, and where that one is.
fn replay(records: &[u8], carried: bool, out: &mut [usize]) -> Replayed
    requires { 5 ≤ length out.old }
    ensures { result ≡ tags_replayed records.now }
{
    let mut run = replay::begun();
    // a `while`, as records have any size: no range gives the places
    while run.at < records.len() {
        let at = run.at;
        let step = record_of(&records[at..], carried, out);
        run = replay::after(run, step, records.len());
    }
    run
}

// Room for the records. The contract gives the length, which lending the array as a slice needs.
fn room() -> [u8; 262144]
    ensures { 262144 ≡ length result }
{
    [0; 262144]
}

// A number on standard output, with the words before it.
fn say(rt: &impl Print, words: &str, n: usize) -> io::Result<()> {
    print!(rt; "{words}{n}")
}

// The end of a line of counts: all agreed, or where the run stopped. `which` says what a record is.
fn say_end(rt: &impl Print, end: Result<(), RunError>, which: &str) -> io::Result<()> {
    match end {
        Ok(()) => println!(rt; ", all as recorded"),
        Err(RunError::Differs(at)) => {
            println!(rt; " as recorded, and {which} that is not at byte {at}")
        }
        Err(RunError::Cut(at)) => println!(rt; " as recorded, and no whole record at byte {at}"),
    }
}

// Whether standard input goes on behind what was read, which is then said.
fn too_long(rt: &impl Print, from: &mut impl Read) -> io::Result<bool> {
    let mut one = [0u8; 1];
    if from.read(&mut one)? > 0 {
        println!(rt; "too long")?;
        return Ok(true);
    }
    Ok(false)
}

fn show(rt: &impl Print, run: Replayed) -> io::Result<()> {
    say(rt, "tags ", run.records)?;
    say_end(rt, run.end, "one")
}

fn replay_thrice(rt: &impl Print, records: &[u8]) -> io::Result<()> {
    let mut many = [0usize; 2560];
    let mut single = [0usize; 5];
    show(rt, replay(records, false, &mut many))?;
    show(rt, replay(records, false, &mut single))?;
    show(rt, replay(records, true, &mut single))
}

fn main(rt: HostRuntime) -> io::Result<()> {
    let mut buffer = room();
    let count = io::copy(&mut rt.stdin().take(262144), &mut &mut buffer[..])?;
    let n = buffer.len().min(count as usize);
    if too_long(&rt, &mut rt.stdin())? {
        return Ok(());
    }
    replay_thrice(&rt, &buffer[..n])
}
