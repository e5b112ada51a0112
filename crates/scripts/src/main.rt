// Answers the scripts on standard input, one line each, in the format that second/README.md gives: the questions that keep a state.
#![tactic(auto)]

mod answers;
mod asked;
mod members;
mod parts;
mod venues;

use answers::Bench;
use asking::lines;
use std::io;

// Room for a question's bytes, for the book and for the log, the bench, and the questions answered.
fn main(rt: HostRuntime) -> io::Result<()> {
    let mut bytes = [0u8; 4096];
    let mut book = [0xFFu8; 16384];
    let mut log = [0xFFu8; 16384];
    let mut bench = Bench::new();
    lines::answer_all(&rt, |line| {
        answers::answered(&rt, line, &mut bench, &mut bytes, &mut book, &mut log)
    })
}
