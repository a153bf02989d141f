// Reads one tag from standard input and shows its answers: XML mode, checks on, from position 0.
//
//     a=1 b='2'        answers 2
//                      E 3 2
//                      S 4 5 7 8
//
// At most 65,536 bytes are read; all of them are the tag, a line end too. The count comes first, so the tag is read twice,
// 256 answers at a time: once to count them, once to show them.
#![tactic(auto)]

ghost use Rattle.std.specs.Prelude.{◌≡◌, ◌+◌, ◌≤◌, length, IfOk, OnOk, OnErr};
ghost use Rattle.tag_step.specs.Run.{answers_of};
ghost use Rattle.attrs.specs.Count.{AttrsMemory, attrs_opened, attrs_answers};
ghost use Rattle.attrs.specs.Output.{count_line, output_of, ComesNext, ToCount, Counted, ToShow};

use std::io::Read;
use tag_keys::CAPACITY;
use tag_step::{Place, Standing};

// How many answers a batch holds, five numbers each, and the bytes that their lines have room in.
const ANSWERS: usize = 256;

const NUMBERS: usize = 1280;

const TEXT: usize = 27392;

// The memory that a tag is read in: the tables of recorded keys, a batch of answers in numbers, and their lines.
#[derive(Drop)]
struct Memory {
    starts: [usize; CAPACITY],
    ends: [usize; CAPACITY],
    hashes: [u32; CAPACITY],
    numbers: [usize; NUMBERS],
    text: [u8; TEXT],
}

impl Memory {
    // How many answers the run of a fresh iterator has, refusals with them and the end not.
    fn count(&mut self, tag: &[u8]) -> usize
        requires { AttrsMemory self.old.starts self.old.ends self.old.hashes self.old.numbers }
        ensures { result ≡ length (answers_of tag.now (attrs_opened self.old.starts self.old.ends self.old.hashes)) }
    {
        let mut place = Place::Next(0);
        let mut recorded = 0;
        let mut total = 0;
        // a `loop`, as only a page that isn't full ends it: no range gives the pages
        loop {
            let at = Standing {
                place,
                html: false,
                checks: true,
                count: recorded,
            };
            let left = tag_batch::read_batch(
                tag,
                &mut self.starts,
                &mut self.ends,
                &mut self.hashes,
                at,
                &mut self.numbers,
            );
            let Ok(read) = left else {
                return total;
            };
            let n = read.answers;
            total += n;
            if n < ANSWERS {
                return total;
            }
            place = read.place;
            recorded = read.count;
        }
    }
}

fn count(tag: &[u8]) -> usize
    ensures { result ≡ length (attrs_answers tag.now) }
{
    let mut memory = Memory {
        starts: [0; CAPACITY],
        ends: [0; CAPACITY],
        hashes: [0; CAPACITY],
        numbers: [0; NUMBERS],
        text: [0; TEXT],
    };
    memory.count(tag)
}

// The output for a tag, of which `written` bytes are written already.
#[derive(Drop)]
struct Output<'a> {
    tag: &'a [u8],
    written: usize,
}

impl Output<'_> {
    // Writes the next part of the output. All that a tag gives goes this way. Where it can't be written it does not count.
    fn write_next(&mut self, rt: &impl Print, text: &[u8]) -> std::io::Result<()>
        requires { ComesNext self.old.tag.now self.old.written text.now }
        ensures tag { self.new.tag ≡ self.old.tag }
        ensures ok { OnOk result (self.new.written ≡ self.old.written + length text.now) }
        ensures err { OnErr result (self.new.written ≡ self.old.written) }
    {
        rt.write_all(text)?;
        self.written += text.len();
        Ok(())
    }

    // The count, as a line.
    fn show_count(&mut self, rt: &impl Print, total: usize) -> std::io::Result<()>
        requires { ToCount self.old.tag.now self.old.written total }
        ensures tag { self.new.tag ≡ self.old.tag }
        ensures ok { OnOk result (self.new.written ≡ length (count_line total)) }
        ensures err { OnErr result (self.new.written ≤ length (output_of self.old.tag.now)) }
    {
        self.write_next(rt, b"answers ")?;
        let mut digits = [0u8; 20];
        let k = io::decimal(total as u64, &mut digits);
        self.write_next(rt, &digits[..k])?;
        self.write_next(rt, b"\n")
    }

    // The lines of the answers, one page after another: each page is the next 256 answers, the last one fewer.
    fn show_on(&mut self, rt: &impl Print, memory: &mut Memory) -> std::io::Result<()>
        requires { ToShow self.old.tag.now memory.old.starts memory.old.ends memory.old.hashes memory.old.numbers memory.old.text self.old.written }
        ensures ok { OnOk result (self.new.written ≡ length (output_of self.old.tag.now)) }
        ensures err { OnErr result (self.new.written ≤ length (output_of self.old.tag.now)) }
    {
        let tag = self.tag;
        let mut place = Place::Next(0);
        let mut recorded = 0;
        let mut shown = 0;
        // a `loop`, as only a page that isn't full ends it: no range gives the pages
        loop {
            let at = Standing {
                place,
                html: false,
                checks: true,
                count: recorded,
            };
            let page = lines::page(
                tag,
                &mut memory.starts,
                &mut memory.ends,
                &mut memory.hashes,
                at,
                &mut memory.numbers,
                &mut memory.text,
            );
            let length = page.length;
            self.write_next(rt, &memory.text[..length])?;
            let left = page.left;
            let Ok(read) = left else {
                return Ok(());
            };
            let n = read.answers;
            let behind = read.place;
            if n < ANSWERS {
                return Ok(());
            }
            shown += n;
            place = behind;
            recorded = read.count;
        }
    }

    fn show(&mut self, rt: &impl Print) -> std::io::Result<()>
        requires { Counted self.old.tag.now self.old.written }
        ensures ok { OnOk result (self.new.written ≡ length (output_of self.old.tag.now)) }
        ensures err { OnErr result (self.new.written ≤ length (output_of self.old.tag.now)) }
    {
        let mut memory = Memory {
            starts: [0; CAPACITY],
            ends: [0; CAPACITY],
            hashes: [0; CAPACITY],
            numbers: [0; NUMBERS],
            text: [0; TEXT],
        };
        self.show_on(rt, &mut memory)
    }
}

// Writes the whole output, from its first byte on, and answers how many bytes that are.
fn print(rt: &impl Print, tag: &[u8]) -> std::io::Result<usize>
    requires { length tag.now ≤ 65536 }
    ensures { IfOk result (λ n. n ≡ length (output_of tag.now)) }
{
    let mut output = Output { tag, written: 0 };
    let total = count(tag);
    output.show_count(rt, total)?;
    output.show(rt)?;
    Ok(output.written)
}

fn main(rt: HostRuntime) -> std::io::Result<()> {
    let mut buffer = [0u8; 65536];
    let count = std::io::copy(&mut rt.stdin().take(65536), &mut &mut buffer[..])?;
    let n = buffer.len().min(count as usize);
    let mut one = [0u8; 1];
    if rt.stdin().read(&mut one)? > 0 {
        return println!(rt; "too long");
    }
    print(&rt, &buffer[..n])?;
    Ok(())
}
