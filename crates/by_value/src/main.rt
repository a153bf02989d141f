// Reads a catalogue tag with the step by value, once for each byte of standard input, and prints how many answers it has.
// `./bench --by-value` times it; nothing stands on it.
#![tactic(auto)]

use std::io;
use std::io::Read;
use tag_step::IterState;

// A chunk of a catalogue.
const TAG: &[u8] =
    b" id=\"c-0000042\" offset=\"18446744\" length=\"65536\" volume=\"archive/north-17\" sha=\"9f86d081884c7d659a2feaa0c55ad015a3bf4f1b\"";

// How many answers the tag has, the end not counted. Each takes a byte of the tag at least.
fn answers(tag: &[u8]) -> usize {
    let mut state = IterState::new(0, false);
    for count in 0..tag.len() {
        let step = state.next(tag);
        if step.answer.is_none() {
            return count;
        }
        state = step.state;
    }
    tag.len()
}

fn main(rt: HostRuntime) -> io::Result<()> {
    let mut buffer = [0u8; 65536];
    let count = io::copy(&mut rt.stdin().take(65536), &mut &mut buffer[..])?;
    let times = buffer.len().min(count as usize);
    let mut last = 0;
    for _ in 0..times {
        last = answers(TAG);
    }
    println!(rt; "{last}")
}
