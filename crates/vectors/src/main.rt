// Answers the questions on standard input, one line each, in the format that second/README.md gives.
#![tactic(auto)]

mod answers;
mod books;

use asking::lines;
use std::io;

// Room for a question's bytes, and the questions answered.
fn main(rt: HostRuntime) -> io::Result<()> {
    let mut bytes = [0u8; 4096];
    lines::answer_all(&rt, |line| answers::answered(&rt, line, &mut bytes))
}
