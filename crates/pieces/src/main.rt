// Reads one tag from standard input in pieces, and shows each answer as soon as it is there: XML mode, checks on, from position 0.
//
//     a=1 b='2'        E 3 2            once `a=1` is there
//                      S 4 5 7 8
//                      answers 2
//
// Its word is how many bytes a piece has at most; a piece is what is there, also where that is less. At most 65,536 bytes are
// read; all of them are the tag, a line end too. It works on memory that it lends to `tag_pieces::piece_in` and
// `tag_takes::take_in`: nothing is copied but a piece, once.
#![tactic(auto)]

ghost use Rattle.std.specs.Prelude.{◌≤◌, IfSome};

use std::env::Env;
use std::io::Read;
use std::{fmt, io};
use tag_keys::CAPACITY;
use tag_phase::Phase;
use tag_pieces::{Cursor, HOLD};
use tag_step::Place;

// How many answers are taken at once, five numbers each, and the bytes that their lines have room in.
const ANSWERS: usize = 256;

const NUMBERS: usize = 1280;

const TEXT: usize = 27392;

// Why the program ends early.
#[derive(Drop)]
enum Failure {
    Read(io::Error),
    Write(io::Error),
}

impl fmt::Display for Failure {
    fn fmt<W: fmt::Write>(&self, f: &mut fmt::Formatter<W>) -> fmt::Result {
        match self {
            Failure::Read(why) => write!(f, "can't read standard input: {why}"),
            Failure::Write(why) => write!(f, "can't write to standard output: {why}"),
        }
    }
}

fn write(rt: &impl Print, text: &[u8]) -> Result<(), Failure> {
    rt.write_all(text).map_err(Failure::Write)
}

// A number from 1 to 65,536, written out.
fn size_of(word: &[u8]) -> Option<usize>
    ensures { IfSome result (λ n. n ≤ 65536) }
{
    let mut n = 0usize;
    for byte in word {
        if !byte.is_ascii_digit() {
            return None;
        }
        n = n.checked_mul(10)?.checked_add(usize::from(byte - b'0'))?;
    }
    match n {
        1..=HOLD => Some(n),
        _ => None,
    }
}

// A tag that comes in pieces: the reader's memory and where it stands, the answers that were taken last, as numbers and as
// lines, and how many were shown.
#[derive(Drop)]
struct Reading {
    text: [u8; HOLD],
    starts: [usize; CAPACITY],
    ends: [usize; CAPACITY],
    hashes: [u32; CAPACITY],
    at: Cursor,
    numbers: [usize; NUMBERS],
    out: [u8; TEXT],
    shown: usize,
}

impl Reading {
    // Nothing is held, and nothing shown.
    fn new() -> Reading {
        Reading {
            text: [0; HOLD],
            starts: [0; CAPACITY],
            ends: [0; CAPACITY],
            hashes: [0; CAPACITY],
            at: Cursor {
                place: Place::Next(0),
                html: false,
                checks: true,
                count: 0,
                held: 0,
                finished: false,
                phase: Phase::Begin,
            },
            numbers: [0; NUMBERS],
            out: [0; TEXT],
            shown: 0,
        }
    }

    // Takes in one piece more, and answers whether it did: not where more would be held than a reader holds.
    fn takes_in(&mut self, piece: &[u8]) -> bool {
        let growth = tag_pieces::piece_in(&mut self.text, self.at, piece);
        if growth.fed.is_err() {
            return false;
        }
        self.at.held = growth.held;
        self.at.phase = growth.phase;
        true
    }

    // Shows the answers that are ready, so many at a time. No tag has more than one for each byte. Where lines can't be written
    // and more answers may be ready, that is said, and the next ones are tried.
    fn show_ready(&mut self, rt: &(impl Print + Eprint)) -> Result<(), Failure> {
        for _ in 0..HOLD {
            let taken = tag_takes::take_in(
                &self.text,
                &mut self.starts,
                &mut self.ends,
                &mut self.hashes,
                self.at,
                &mut self.numbers,
            );
            // text and tables have the lengths of a reader's
            let Ok(read) = taken else {
                return Ok(());
            };
            self.at = read.cursor;
            let written = self.show_taken(rt, read.answers.min(ANSWERS));
            if read.answers < ANSWERS {
                return written;
            }
            if let Err(why) = written {
                let _ = eprintln!(rt; "{why}");
            }
        }
        Ok(())
    }

    // The lines of the first `n` answers that were taken.
    fn show_taken(&mut self, rt: &impl Print, n: usize) -> Result<(), Failure>
        requires { n ≤ 256 }
    {
        let length = lines::put_lines(&self.numbers[..5 * n], &mut self.out);
        self.shown = self.shown.wrapping_add(n);
        match self.out.get(..length) {
            Some(lines) => write(rt, lines),
            None => Ok(()),
        }
    }

    // Shows what is left once all came in, and how many answers there were: in three writes, of which those before one that is refused
    // whole are out.
    fn show_rest(&mut self, rt: &(impl Print + Eprint)) -> Result<(), Failure> {
        self.at.finished = true;
        self.show_ready(rt)?;
        let shown = self.shown;
        write(rt, b"answers ")?;
        print!(rt; "{shown}").map_err(Failure::Write)?;
        write(rt, b"\n")
    }

    // Reads to the end of standard input, as many bytes at a time as are there and as `buffer` holds. A piece has a byte at
    // least, so that there is one for each byte that can be held, and one that is too long, at most.
    fn read(
        &mut self,
        rt: &(impl Print + Eprint),
        from: &mut impl Read,
        buffer: &mut [u8],
    ) -> Result<(), Failure> {
        for _ in 0..=HOLD {
            let n = from.read(buffer).map_err(Failure::Read)?;
            if n == 0 {
                return self.show_rest(rt);
            }
            if !self.takes_in(&buffer[..n]) {
                return write(rt, b"too long\n");
            }
            self.show_ready(rt)?;
        }
        Ok(())
    }
}

fn main(rt: HostRuntime) {
    let mut word = [0u8; 5];
    // no word, and one that is longer, is no size
    let k = rt.arg(1, &mut word).unwrap_or(0);
    let Some(size) = size_of(&word[..k]) else {
        let _ = eprintln!(rt; "a size from 1 to 65,536 is wanted");
        return;
    };
    let mut buffer = [0u8; HOLD];
    let read = Reading::new().read(&rt, &mut rt.stdin(), &mut buffer[..size]);
    if let Err(why) = read {
        let _ = eprintln!(rt; "{why}");
    }
}
