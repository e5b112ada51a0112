// A power failure, and the restart after it; and the listing of a book.
use crate::bench::{Bench, Room};
use crate::say::{self, Who};
use asking::writing;
use book_lines::Line;
use std::io;

// The power fails: of our book the first n bytes are on the disk, and the session is gone from memory.
pub fn power_fails(rt: &impl Print, b: Bench, n: u32) -> io::Result<Bench> {
    let all = b.book_length();
    say::row(rt, b.clock, Who::Gateway)?;
    println!(rt;
        "loses power while it writes that message: {n} of the book's {all} bytes are on the disk"
    )?;
    say::row(rt, b.clock, Who::Venue)?;
    println!(rt; "sees the line break")?;
    Ok(Bench {
        session: session::closed_with(b.market(), book::blank_book()),
        venue: b.venue.broken(),
        ..b
    })
}

// Our gateway restarts for a date from the first n bytes of a book.
pub fn restarts(rt: &impl Print, b: Bench, date: u32, book: &Room, n: u32) -> io::Result<Bench> {
    let restarted = book_restart::restart(date, wire::first_part(book, n as usize));
    print!(rt; " and restarts for {date}: ")?;
    let kept = match restarted {
        Ok(kept) => kept,
        Err(refusal) => {
            println!(rt; "{}, nothing is loaded", say::Refused(refusal))?;
            return Ok(b);
        }
    };
    println!(rt; "accepted")?;
    say::further(rt)?;
    print!(rt;
        "kept {} whole messages, good length {} bytes; ",
        kept.count, kept.length
    )?;
    let torn = n.wrapping_sub(kept.length);
    println!(rt;
        "torn and cut off {torn} bytes; table: {}",
        say::Numbers(kept.table)
    )?;
    Ok(b.with_session(session::closed_with(b.market(), kept)))
}

// Writes a line of a listing.
fn put(rt: &impl Print, l: Line) -> io::Result<()> {
    if l.length <= 96 {
        writing::text(rt, &l.bytes[..l.length])?;
    }
    Ok(())
}

// The listing of our book. A step tells how far the next one is: no range counts them.
pub fn lists(rt: &impl Print, b: Bench, book: &Room) -> io::Result<()> {
    let part = wire::first_part(book, b.book_length() as usize);
    let mut at = book_listing::start();
    let mut place: usize = 0;
    loop {
        let left = &part[place..];
        let stepped = book_listing::step(at, left, true);
        put(rt, stepped.line)?;
        at = stepped.listing;
        let taken = stepped.taken;
        if taken == 0 || left.len() < taken {
            return Ok(());
        }
        place += taken;
    }
}
