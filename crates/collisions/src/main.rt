// Names that share a hash: reads one tag from standard input, in XML mode with checks on, and shows its answers, a line each
// (crates/lines), then the recorded keys, a line each:
//
//     K 1 6 2931895284        the bounds of the key, and the hash that is kept beside it
//
// Its input has names that have one hash of 32 bits, and such as have one hash of 8 bits. `stdout` has what is due; tests/collisions
// runs the same code with the hash cut to 8 bits, and the answers are the same.
#![tactic(auto)]

use lines::Paged;
use std::io;
use std::io::Read;
use tag_keys::CAPACITY;
use tag_step::{Place, Standing};

// The memory that the tag is read in: the tables of recorded keys, the answers in numbers, and their lines.
#[derive(Drop)]
struct Memory {
    starts: [usize; CAPACITY],
    ends: [usize; CAPACITY],
    hashes: [u32; CAPACITY],
    numbers: [usize; 320],
    text: [u8; 6848],
}

impl Memory {
    fn new() -> Memory {
        Memory {
            starts: [0; CAPACITY],
            ends: [0; CAPACITY],
            hashes: [0; CAPACITY],
            numbers: [0; 320],
            text: [0; 6848],
        }
    }

    // Reads the tag: its lines then stand at the front of the text, as many bytes as it answers.
    fn read(&mut self, tag: &[u8]) -> Paged {
        let at = Standing {
            place: Place::Next(0),
            html: false,
            checks: true,
            count: 0,
        };
        lines::page(
            tag,
            &mut self.starts,
            &mut self.ends,
            &mut self.hashes,
            at,
            &mut self.numbers,
            &mut self.text,
        )
    }

    // The first `count` keys of the tables. Each part of a line is a write of its own: those before one that is refused whole are out.
    fn show_kept(&self, rt: &impl Print, count: usize) -> io::Result<()> {
        let bounds = self.starts.iter().zip(&self.ends);
        for ((start, end), hash) in bounds.zip(&self.hashes).take(count) {
            print!(rt; "K")?;
            print!(rt; " {start}")?;
            print!(rt; " {end}")?;
            print!(rt; " {hash}")?;
            println!(rt)?;
        }
        Ok(())
    }
}

fn show(rt: &impl Print, tag: &[u8]) -> io::Result<()> {
    let mut memory = Memory::new();
    let page = memory.read(tag);
    if let Some(lines) = memory.text.get(..page.length) {
        rt.write_all(lines)?;
    }
    let Ok(read) = page.left else {
        return Ok(());
    };
    memory.show_kept(rt, read.count)
}

fn main(rt: HostRuntime) -> io::Result<()> {
    let mut buffer = [0u8; 65536];
    let count = io::copy(&mut rt.stdin().take(65536), &mut &mut buffer[..])?;
    let n = buffer.len().min(count as usize);
    show(&rt, &buffer[..n])
}
