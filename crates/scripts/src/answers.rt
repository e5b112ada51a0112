// Which call a line names, and the bench that it is put to.
use crate::{members, venues};
use asking::words;
use orders::Market;
use session::Session;
use std::io;
use venue::Venue;

// The states that a script keeps from line to line, beside the buffers of the book and of the log.
#[derive(Clone, Copy)]
pub struct Bench {
    pub session: Session,
    pub venue: Venue,
}

impl Bench {
    // The bench at the start: a closed member of the equities market with a blank book, a venue with a new log.
    pub fn new() -> Bench {
        Bench {
            session: session::closed_with(Market::Equities, book::blank_book()),
            venue: venue::new_venue(),
        }
    }
}

// The calls that a question's first word names: `new`, those of the member, and those of the venue.
#[derive(Clone, Copy)]
enum Call {
    New,
    Member(members::Call),
    Venue(venues::Call),
}

// Which call a word names.
fn call_of(word: &[u8]) -> Option<Call> {
    if let Some(call) = members::call_of(word) {
        return Some(Call::Member(call));
    }
    if let Some(call) = venues::call_of(word) {
        return Some(Call::Venue(call));
    }
    if word == b"new".as_slice() {
        return Some(Call::New);
    }
    None
}

// How many words a question of a call has.
fn words_of(call: Call) -> usize {
    match call {
        Call::New => 1,
        Call::Member(call) => members::words_of(call),
        Call::Venue(call) => venues::words_of(call),
    }
}

// Answers a line, if it is a question. `bytes` is room for a question's bytes.
pub fn answered(
    rt: &impl Print,
    line: &[u8],
    bench: &mut Bench,
    bytes: &mut [u8],
    book: &mut [u8],
    log: &mut [u8],
) -> Option<io::Result<()>> {
    let call = call_of(words::word(line, 0))?;
    if words::count(line) != words_of(call) {
        return None;
    }
    match call {
        Call::New => {
            *bench = Bench::new();
            book.fill(0xFF);
            log.fill(0xFF);
            Some(rt.print("0"))
        }
        Call::Member(call) => members::answered(rt, call, line, &mut bench.session, bytes, book),
        Call::Venue(call) => venues::answered(rt, call, line, &mut bench.venue, bytes, log),
    }
}
