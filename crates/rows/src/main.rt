// The iterator's rows of document 01, "Bytes to hold against the rules", read with checks on. What it writes is held against
// `stdout`, which was written from the document. A row: the mode (`x` XML, `h` HTML), the opening position, the tag between
// bars; then its answers, a line each (crates/lines), and `end`.
#![tactic(auto)]

use std::io;
use tag_keys::CAPACITY;
use tag_step::{Place, Standing};

// The memory that a row is read in: the tables of recorded keys, the answers in numbers, and their lines.
#[derive(Drop)]
struct Memory {
    starts: [usize; CAPACITY],
    ends: [usize; CAPACITY],
    hashes: [u32; CAPACITY],
    numbers: [usize; 80],
    text: [u8; 1712],
}

impl Memory {
    fn new() -> Memory {
        Memory {
            starts: [0; CAPACITY],
            ends: [0; CAPACITY],
            hashes: [0; CAPACITY],
            numbers: [0; 80],
            text: [0; 1712],
        }
    }

    // The lines of a tag's answers, from an opening position on.
    fn lines(&mut self, tag: &[u8], html: bool, open: usize) -> Option<&[u8]> {
        let at = Standing {
            place: Place::Next(open),
            html,
            checks: true,
            count: 0,
        };
        let page = lines::page(
            tag,
            &mut self.starts,
            &mut self.ends,
            &mut self.hashes,
            at,
            &mut self.numbers,
            &mut self.text,
        );
        self.text.get(..page.length)
    }
}

// Each part is a write of its own: those before one that is refused whole are out.
fn row(rt: &impl Print, tag: &[u8], html: bool, open: usize) -> io::Result<()> {
    let mode = if html { "h" } else { "x" };
    print!(rt; "{mode} ")?;
    print!(rt; "{open} |")?;
    rt.write_all(tag)?;
    println!(rt; "|")?;
    let mut memory = Memory::new();
    if let Some(lines) = memory.lines(tag, html, open) {
        rt.write_all(lines)?;
    }
    println!(rt; "end")
}

fn main(rt: HostRuntime) -> io::Result<()> {
    row(&rt, b"", false, 0)?;
    row(&rt, b"", false, 1)?;
    row(&rt, b"a=\"1\"b='2'", false, 0)?;
    row(&rt, b"a b=\"1\"", false, 0)?;
    row(&rt, b"a=1 b='2'", false, 0)?;
    row(&rt, b"a=\"1", false, 0)?;
    row(&rt, b"a='1' a=\"2 3\" b='4'", false, 0)?;
    row(&rt, b"=\"1\"", false, 0)?;
    row(&rt, b"a=1 a='2'", false, 0)?;
    row(&rt, b"a=='1'", false, 0)?;
    row(&rt, b"a=='1'", true, 0)?;
    row(&rt, b"a b=1", true, 0)
}
