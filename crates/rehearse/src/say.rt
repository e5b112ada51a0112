// The words of the rehearsal: who acts and when, tables, phases and refusals.
use asking::writing;
use orders::Market;
use refusals::Refusal;
use session::Phase;
use std::{fmt, io};
use table::{Table, Unit};

// A time of the day, which a clock counts in milliseconds from midnight.
#[derive(Drop)]
struct Time(u32);

impl fmt::Display for Time {
    fn fmt<W: fmt::Write>(&self, f: &mut fmt::Formatter<W>) -> fmt::Result {
        let clock = self.0;
        write!(
            f,
            "{:02}:{:02}:{:02}.{:03}",
            clock / 3600000 % 100,
            clock / 60000 % 60,
            clock / 1000 % 60,
            clock % 1000
        )
    }
}

// A title, with an empty line before it.
pub fn title(rt: &impl Print, words: &str) -> io::Result<()> {
    println!(rt; "\n{words}")
}

// Who a row is about: our gateway, the venue, or the line between them.
#[derive(Clone, Copy)]
pub enum Who {
    Gateway,
    Venue,
    Line,
}

// Begins a row on what one of them does at a time.
pub fn row(rt: &impl Print, clock: u32, who: Who) -> io::Result<()> {
    let name = match who {
        Who::Gateway => "gateway",
        Who::Venue => "venue",
        Who::Line => "line",
    };
    print!(rt; "{}  {name:<9}", Time(clock))
}

// Begins a row that goes on with the one before.
pub fn further(rt: &impl Print) -> io::Result<()> {
    rt.print("                       ")
}

// A number between two texts.
pub fn count(rt: &impl Print, before: &[u8], n: u64, after: &[u8]) -> io::Result<()> {
    writing::text(rt, before)?;
    writing::decimal(rt, n)?;
    writing::text(rt, after)
}

// A text field up to its first NUL.
pub fn name(rt: &impl Print, field: &[u8]) -> io::Result<()> {
    let n = field.iter().position(|b| *b == 0).unwrap_or(field.len());
    writing::text(rt, &field[..n])
}

// A market.
pub fn market(m: Market) -> &'static str {
    match m {
        Market::Equities => "equities",
        Market::Options => "options",
    }
}

// A phase of our session.
pub fn phase(p: Phase) -> &'static str {
    match p {
        Phase::Closed => "closed",
        Phase::Asked => "waiting for the answer to its login",
        Phase::Replaying => "replaying",
        Phase::Live => "live",
    }
}

// A table in short: the last number of each unit that has one.
#[derive(Drop)]
pub struct Numbers(pub Table);

impl fmt::Display for Numbers {
    fn fmt<W: fmt::Write>(&self, f: &mut fmt::Formatter<W>) -> fmt::Result {
        let mut before = "";
        for u in 1..33u8 {
            let last = self.0.entry(Unit(u)).last.0;
            if last != 0 {
                write!(f, "{before}unit {u} at {last}")?;
                before = ", ";
            }
        }
        if before.is_empty() {
            write!(f, "all units at 0")?;
        }
        Ok(())
    }
}

// A refusal: its number, the byte place that it is about where it has one, and what it means.
#[derive(Drop)]
pub struct Refused(pub Refusal);

impl fmt::Display for Refused {
    fn fmt<W: fmt::Write>(&self, f: &mut fmt::Formatter<W>) -> fmt::Result {
        let number = refusals::number_in(self.0.code());
        let place = self.0.place();
        write!(f, "refused, {number}")?;
        if place != 0 {
            write!(f, " at byte {place}")?;
        }
        write!(f, " ({})", meaning(number))
    }
}

// What a number of refusal means.
fn meaning(n: u32) -> &'static str {
    match n {
        1 => "it does not begin with BA BA",
        2 => "its length is under 8 or over 2,046",
        3 => "it is not there as a whole",
        4 => "a type unknown in this direction",
        5 => "a unit or number against the rules",
        6 => "its length does not fit its contents",
        7 => "too many bitfields",
        8 => "a set bit that is not listed",
        9 => "a required field is not selected",
        10 => "a value against its kind or range",
        11 => "a login group against its rules",
        12 => "an unselected field is not zero",
        13 => "no room",
        14 => "its number is already taken",
        15 => "a gap, numbers before it are missing",
        16 => "not at this stage of the session",
        17 => "the book is of another date",
        18 => "the book is damaged",
        19 => "not a day of the calendar",
        20 => "the order numbers are used up",
        21 => "an order's number at or below the last one",
        22 => "the book has no first mark",
        23 => "fields that do not go together",
        26 => "the book has no message of that unit",
        _ => "no such number",
    }
}
