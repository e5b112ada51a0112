// The end of a replay: what the log held at the login beside what the book holds, unit by unit.
use crate::bench::Bench;
use crate::say;
use std::io;
use table::{Table, Unit};

// Replay Complete has arrived.
pub fn completes(rt: &impl Print, b: Bench) -> io::Result<()> {
    println!(rt;
        "has Replay Complete and is {}",
        say::phase(b.session.phase)
    )?;
    let same = compares(rt, b.held, b.table())?;
    say::further(rt)?;
    if same {
        println!(rt; "the 32 units agree: the book holds all that the log held at the login")
    } else {
        println!(rt; "THE BOOK DOES NOT HOLD WHAT THE LOG HELD AT THE LOGIN")
    }
}

// The numbers of each unit that has messages: whether the 32 units agree.
fn compares(rt: &impl Print, held: Table, ours: Table) -> io::Result<bool> {
    let mut same = true;
    for unit in 1..33 {
        let theirs = held.entry(Unit(unit)).last.0;
        let our = ours.entry(Unit(unit)).last.0;
        compared(rt, unit, theirs, our)?;
        same = same && theirs == our;
    }
    Ok(same)
}

// One unit's row, if it has messages.
fn compared(rt: &impl Print, unit: u8, theirs: u32, our: u32) -> io::Result<()> {
    if theirs == 0 && our == 0 {
        return Ok(());
    }
    say::further(rt)?;
    println!(rt; "unit {unit}: the log held {theirs} messages at the login, the book holds {our}")
}
