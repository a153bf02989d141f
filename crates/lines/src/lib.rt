// Answers as text, a line for each:
//
//     a="1" b=2        D 0 1 3 4
//                      E 3 8
//
// `D`, `S`, `U` with the bounds of key and value, `B` with those of a bare key, `E` with a refusal's number and its values.
// The definitions are in specs/Lines.antt.
#![tactic(auto)]

ghost use Rattle.std.specs.Prelude.{◌≡◌, ◌+◌, ◌*◌, ◌≤◌, length};
ghost use Rattle.scan.specs.Lists.{over};
ghost use Rattle.tag_step.specs.Next.{stands_at};
ghost use Rattle.lines.specs.Lines.{decimal_of, spaced, letter_of, shown_from, values_of, own_of, line_of, lines_in};
ghost use Rattle.lines.specs.Page.{answers_count, page_left, page_of};

use tag_batch::{BatchRead, WrongTables};
use tag_step::Standing;

// No line is longer: a letter, five numbers of at most 20 digits with a blank before each, a line feed.
pub const LONGEST: usize = 107;

// A number's digits, and the place behind them.
fn put_number(n: usize, out: &mut [u8], at: usize) -> usize
    requires { at + 20 ≤ length out.old }
    ensures { (result ≡ at + length (decimal_of n)) × (out.new ≡ over out.old at (decimal_of n)) }
{
    let mut digits = [0u8; 20];
    let k = io::decimal(n as u64, &mut digits);
    scan::put(out, at, &digits[..k]);
    at + k
}

// Numbers with a blank before each.
fn put_numbers(numbers: &[usize], out: &mut [u8], at: usize) -> usize
    requires { at + 21 * length numbers.now ≤ length out.old }
    ensures { (result ≡ at + length (spaced numbers.now)) × (out.new ≡ over out.old at (spaced numbers.now)) }
{
    let mut end = at;
    for n in numbers {
        out[end] = b' ';
        end = put_number(*n, out, end + 1);
    }
    end
}

#[tactic(auto, unfolding(crate::specs::Lines::letter_of))]
fn letter_of(code: usize) -> u8
    ensures { result ≡ letter_of code }
{
    match code {
        101 => b'D',
        102 => b'S',
        103 => b'U',
        104 => b'B',
        _ => b'E',
    }
}

// An attribute's code is not shown, a refusal's is.
fn shown_from(code: usize) -> usize
    ensures { result ≡ shown_from code }
{
    usize::from(code > 100)
}

// How many values stand behind a code.
#[tactic(auto, unfolding(crate::specs::Lines::values_of))]
fn values_of(code: usize) -> usize
    ensures { result ≡ values_of code }
{
    match code {
        0 | 7 => 0,
        4 | 5 | 104 => 2,
        1..=6 => 1,
        _ => 4,
    }
}

// The line of an answer's five numbers.
fn put_line(five: &[usize], out: &mut [u8], at: usize) -> usize
    requires { (length five.now ≡ 5) × (at + 107 ≤ length out.old) }
    ensures { (result ≡ at + length (line_of (own_of five.now))) × (out.new ≡ over out.old at (line_of (own_of five.now))) }
{
    let code = five[0];
    out[at] = letter_of(code);
    let from = shown_from(code);
    let to = 1 + values_of(code);
    let end = put_numbers(&five[from..to], out, at + 1);
    out[end] = b'\n';
    end + 1
}

// The lines of answers, five numbers each, at the front of `out`, and their length. Nothing where `out` has not 107 bytes
// for each.
pub fn put_lines(numbers: &[usize], out: &mut [u8]) -> usize
    ensures { (result ≡ length (lines_in numbers.now out.old)) × (out.new ≡ over out.old 0 (lines_in numbers.now out.old)) }
{
    let n = numbers.len() / 5;
    if out.len() / LONGEST < n {
        return 0;
    }
    let mut end = 0;
    for five in numbers.chunks_exact(5) {
        end = put_line(five, out, end);
    }
    end
}

// How many answers a batch wrote.
pub fn answers(left: Result<BatchRead, WrongTables>) -> usize
    ensures { result ≡ answers_count left }
{
    match left {
        Ok(read) => read.answers,
        Err(_) => 0,
    }
}

// What a page leaves: as `tag_batch::read_batch` does, and how long the text is.
#[derive(Clone, Copy)]
pub struct Paged {
    pub left: Result<BatchRead, WrongTables>,
    pub length: usize,
}

// The lines of the next answers of a run, as many as `numbers` holds, at the front of `out`. The rest is as in
// `tag_batch::read_batch`.
pub fn page<'a>(
    tag: &[u8],
    starts: &'a mut [usize],
    ends: &'a mut [usize],
    hashes: &'a mut [u32],
    at: Standing,
    numbers: &mut [usize],
    out: &mut [u8],
) -> Paged
    ensures { page_left result starts.new ends.new hashes.new numbers.new out.new
        ≡ page_of tag.now (stands_at at starts.old ends.old hashes.old) numbers.old out.old }
{
    let left = tag_batch::read_batch(tag, starts, ends, hashes, at, numbers);
    let to = 5 * answers(left);
    let length = put_lines(&numbers[..to], out);
    Paged { left, length }
}
