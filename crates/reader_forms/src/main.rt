// Runs the reader by value (crate `reader`) and on the caller's own (crate `reader_in_place`, through `replay_pieces`): reads one
// tag from standard input, gives it to each byte by byte, and shows each answer as soon as it is there, behind how many bytes are
// held then:
//
//     a=1 b='2'        3 E 3 2
//                      9 S 4 5 7 8
//
// Then what each says once the tag is finished, and of a reader that no reading leaves. `stdout` has what is due; tests/attrs_pieces
// holds the answers against those of `attrs`.
#![tactic(auto)]

ghost use Rattle.std.specs.Prelude.{◌≡◌};
ghost use Rattle.tag_pieces.specs.Reader.{piece_of, finish_of, take_of};

use std::io;
use std::io::Read;
use tag_pieces::{Feeding, HOLD, Reader, Take};
use tag_step::Answer;

// A form of the reader: what each of its calls answers, and the reader then.
trait Form {
    fn piece(r: Reader, piece: &[u8]) -> Feeding
        ensures { result ≡ piece_of piece.now r };

    fn finish(r: Reader) -> Feeding
        ensures { result ≡ finish_of r };

    fn take(r: Reader) -> Take
        ensures { result ≡ take_of r };
}

struct ByValue;

#[tactic(auto, using(reader::proofs::Numbers::feeding_apart, reader::proofs::Numbers::take_apart))]
impl Form for ByValue {
    fn piece(r: Reader, piece: &[u8]) -> Feeding {
        reader::piece(r, piece)
    }

    fn finish(r: Reader) -> Feeding {
        reader::finish(r)
    }

    fn take(r: Reader) -> Take {
        reader::take(r)
    }
}

struct InPlace;

impl Form for InPlace {
    fn piece(r: Reader, piece: &[u8]) -> Feeding {
        replay_pieces::piece(r, piece)
    }

    fn finish(r: Reader) -> Feeding {
        replay_pieces::finish(r)
    }

    fn take(r: Reader) -> Take {
        replay_pieces::take(r)
    }
}

// An answer's line, behind the number of bytes that are held.
fn show(rt: &impl Print, held: usize, answer: Answer) -> io::Result<()> {
    let mut five = [0usize; 5];
    tag_batch::put(&mut five, 0, tag_batch::numbers(answer));
    let mut text = [0u8; lines::LONGEST];
    let length = lines::put_lines(&five, &mut text);
    print!(rt; "{held} ")?;
    if length <= text.len() {
        rt.write_all(&text[..length])?;
    }
    Ok(())
}

// Shows the answers that are ready, and gives back the reader then. There is one for each byte that is held at most.
fn show_ready<F: Form>(rt: &impl Print, r: Reader) -> io::Result<Reader> {
    let mut left = r;
    for _ in 0..HOLD {
        let x = F::take(left);
        left = x.reader;
        let taken = x.taken;
        let Ok(Some(answer)) = taken else {
            return Ok(left);
        };
        if answer.is_none() {
            return Ok(left);
        }
        show(rt, left.held, answer)?;
    }
    Ok(left)
}

// The number of what became of a piece or a finish.
fn say(rt: &impl Print, what: &str, x: Feeding) -> io::Result<()> {
    let number = tag_pieces::fed_number(x.fed);
    println!(rt; "{what}{number}")
}

// One after another: a piece of each byte, the finish, a second one, a piece after it, and then a count of held bytes that no
// reader has.
fn run<F: Form>(rt: &impl Print, tag: &[u8], html: bool, checks: bool) -> io::Result<()> {
    let mut r = reader::with_checks(reader::new(0, html), checks);
    for byte in tag.chunks(1) {
        r = show_ready::<F>(rt, F::piece(r, byte).reader)?;
    }
    r = show_ready::<F>(rt, F::finish(r).reader)?;
    say(rt, "finish ", F::finish(r))?;
    say(rt, "piece ", F::piece(r, tag))?;
    r.held = HOLD + 1;
    show_ready::<F>(rt, r)?;
    Ok(())
}

// In both modes, and with checks off.
fn run_form<F: Form>(rt: &impl Print, tag: &[u8]) -> io::Result<()> {
    println!(rt; "XML")?;
    run::<F>(rt, tag, false, true)?;
    println!(rt; "HTML")?;
    run::<F>(rt, tag, true, true)?;
    println!(rt; "HTML, checks off")?;
    run::<F>(rt, tag, true, false)
}

fn main(rt: HostRuntime) -> io::Result<()> {
    let mut buffer = [0u8; 4096];
    let count = io::copy(&mut rt.stdin().take(4096), &mut &mut buffer[..])?;
    let n = buffer.len().min(count as usize);
    println!(rt; "by value")?;
    run_form::<ByValue>(&rt, &buffer[..n])?;
    println!(rt; "in place")?;
    run_form::<InPlace>(&rt, &buffer[..n])
}
