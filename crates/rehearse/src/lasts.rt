// The last message of a unit, which the book's table finds by its place.
use crate::bench::{Bench, Room};
use crate::say::Who;
use crate::{say, told};
use std::io;
use table::Unit;

// The desk asks for the last message of each unit of the day, and of one that sent nothing.
pub fn tells_all(rt: &impl Print, b: Bench, book: &Room) -> io::Result<()> {
    say::row(rt, b.clock, Who::Gateway)?;
    println!(rt; "is asked for the last message of units 1 to 4")?;
    for unit in 1..5 {
        tells(rt, b, unit, book)?;
    }
    Ok(())
}

// A unit's last message, and where it starts in the book.
fn tells(rt: &impl Print, b: Bench, unit: u8, book: &Room) -> io::Result<()> {
    let kept = b.session.book;
    let found = last_message::check_last(kept, Unit(unit), book);
    say::further(rt)?;
    if let Err(refusal) = found {
        return println!(rt; "unit {unit}: {}", say::Refused(refusal));
    }
    let m = last_message::last_message(kept, Unit(unit), book);
    told::report(rt, m)?;
    told::size(rt, m)?;
    println!(rt;
        ", at byte {} of the book",
        kept.table.entry(Unit(unit)).place.0
    )
}
