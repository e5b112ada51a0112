// The questions on standard input, a line each, in memory that no line outgrows.
ghost use Rattle.std.specs.Prelude.{◌≡◌, ◌++◌, ◌∷◌, [], ◌≤◌, ◌<◌, length, take, MatchOption};

use crate::writing;
use std::io;
use std::io::Read;

// The most characters of a question, and one more, by which a longer line is known.
const LONGEST: usize = 8000;

const ROOM: usize = 8001;

// A line begun: its characters, as many as there is room for.
#[derive(Drop)]
struct Line {
    characters: [u8; ROOM],
    length: usize,
    ghost in_room: { length ≤ 8001 },
}

impl Line {
    // No character yet.
    fn new() -> Line
        ensures { take result.length result.characters ≡ [] }
    {
        Line {
            characters: [0; ROOM],
            length: 0,
        }
    }

    // One character more; where there is no room it is passed over.
    fn push(&mut self, character: u8)
        ensures { take self.new.length self.new.characters ≡ take 8001 (take self.old.length self.old.characters ++ character ∷ []) }
    {
        if self.length < ROOM {
            self.characters[self.length] = character;
            self.length += 1;
        }
    }

    // The line as a question, if it is not too long for one.
    fn question(&self) -> Option<&[u8]>
        ensures { MatchOption result (8000 < self.now.length) (λ s. (s.now ≡ take self.now.length self.now.characters) × (self.now.length ≤ 8000)) }
    {
        if self.length <= LONGEST {
            Some(&self.characters[..self.length])
        } else {
            None
        }
    }

    // The next line begins.
    fn clear(&mut self)
        ensures { take self.new.length self.new.characters ≡ [] }
    {
        self.length = 0;
    }
}

// The end of the answer to a line, which a question's answer has written up to there; a line that is no question is told so.
fn ended(rt: &impl Print, answered: Option<io::Result<()>>) -> io::Result<()> {
    match answered {
        Some(written) => {
            written?;
            writing::line_end(rt)
        }
        None => writing::unknown(rt),
    }
}

// Reads to the end of the input, and has each line that ends answered. A proved loop has to end, so it has as many turns as no run uses up.
pub fn answer_all<F: FnMut(&[u8]) -> Option<io::Result<()>>>(
    rt: &(impl Print + Input),
    mut answer: F,
) -> io::Result<()>
    requires { F.IsAlwaysCallable answer }
{
    let mut piece = [0u8; 4096];
    let mut line = Line::new();
    for _ in 0..u64::MAX {
        let n = rt.reader().read(&mut piece)?;
        if n == 0 {
            break;
        }
        for character in &piece[..n] {
            if *character != b'\n' {
                line.push(*character);
                continue;
            }
            let answered = match line.question() {
                Some(question) => answer(question),
                None => None,
            };
            ended(rt, answered)?;
            line.clear();
        }
    }
    Ok(())
}
