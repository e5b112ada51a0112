// The questions on the day book. A question on a book that stands has it restarted first, in a buffer with room after it.
ghost use Rattle.std.specs.Prelude.{◌≤◌, length};

use crate::answers;
use asking::{words, writing};
use book::Book;
use book_lines::Line;
use book_listing::{Asked, Listing};
use std::io;
use table::{Entry, Unit};

// Room for a question's book and for what it grows by.
const ROOM: usize = 6144;

// More lines than a question's book has.
const MOST_LINES: u32 = 8192;

// Where a listing stands, and what is kept of the unit that is asked for.
#[derive(Clone, Copy)]
struct Gone {
    listing: Listing,
    asked: Asked,
}

// `open DATE BYTES`: the refusal and the buffer after the call.
pub fn open(rt: &impl Print, line: &[u8], bytes: &mut [u8]) -> Option<io::Result<()>> {
    let date = words::read_number(words::word(line, 1), 4294967295)? as u32;
    let n = words::read_bytes(words::word(line, 2), bytes)?;
    let buffer = &mut bytes[..n];
    let opened = book::open(date, buffer);
    Some(answers::answered_by(rt, opened, buffer))
}

// `restart DATE BYTES`: the refusal, or 0, the length, where the last mark starts, the messages, and the table's numbers and places.
pub fn restart(rt: &impl Print, line: &[u8], bytes: &mut [u8]) -> Option<io::Result<()>> {
    let date = words::read_number(words::word(line, 1), 4294967295)? as u32;
    let n = words::read_bytes(words::word(line, 2), bytes)?;
    Some(restarted(rt, date, &bytes[..n]))
}

// The answer to `restart` of a book.
fn restarted(rt: &impl Print, date: u32, s: &[u8]) -> io::Result<()> {
    let restarted = book_restart::restart(date, s);
    writing::outcome(rt, &restarted)?;
    if let Ok(b) = restarted {
        print!(rt; " {} {} {} ", b.length, b.last, b.count)?;
        of_table(rt, b, |entry| entry.last.0)?;
        rt.print(" ")?;
        of_table(rt, b, |entry| entry.place.0)?;
    }
    Ok(())
}

// A part of each entry of a book's table, 4 bytes a unit: its numbers, or its places.
fn of_table<F: Fn(Entry) -> u32>(rt: &impl Print, b: Book, part: F) -> io::Result<()>
    requires { F.IsAlwaysCallable part }
{
    let mut out = [0u8; 128];
    for u in 0..32u8 {
        let entry = b.table.entry(Unit(u + 1));
        let _ = numbers::write_u32(&mut out, 4 * (u as usize), part(entry));
    }
    writing::hex(rt, &out)
}

// `append DATE BOOK ROOM MESSAGE`: restart's refusal, or 0, the refusal, the length and the buffer after the call.
pub fn append(rt: &impl Print, line: &[u8], bytes: &mut [u8]) -> Option<io::Result<()>> {
    let mut buffer = [0xFFu8; ROOM];
    let date = words::read_number(words::word(line, 1), 4294967295)? as u32;
    let n = words::read_bytes(words::word(line, 2), &mut buffer)?;
    let end = n + words::read_number(words::word(line, 3), 2100)? as usize;
    let k = words::read_bytes(words::word(line, 4), bytes)?;
    if ROOM < end {
        return None;
    }
    Some(appended(rt, date, n, &bytes[..k], &mut buffer[..end]))
}

// The answer to `append` to the book in the first n bytes of a buffer.
fn appended(
    rt: &impl Print,
    date: u32,
    n: usize,
    message: &[u8],
    buffer: &mut [u8],
) -> io::Result<()>
    requires { n ≤ length buffer.old }
{
    let restarted = book_restart::restart(date, &buffer[..n]);
    writing::outcome(rt, &restarted)?;
    if let Ok(b) = restarted {
        let after = b.append(message, buffer);
        rt.print(" ")?;
        writing::outcome(rt, &after)?;
        print!(rt; " {} ", after.unwrap_or(b).length)?;
        writing::hex(rt, buffer)?;
    }
    Ok(())
}

// `close DATE BOOK ROOM`: restart's refusal, or 0, the length and the buffer after the call.
pub fn close(rt: &impl Print, line: &[u8]) -> Option<io::Result<()>> {
    let mut buffer = [0xFFu8; ROOM];
    let date = words::read_number(words::word(line, 1), 4294967295)? as u32;
    let n = words::read_bytes(words::word(line, 2), &mut buffer)?;
    let end = n + words::read_number(words::word(line, 3), 2100)? as usize;
    if ROOM < end {
        return None;
    }
    Some(closed(rt, date, n, &mut buffer[..end]))
}

// The answer to `close` of the book in the first n bytes of a buffer.
fn closed(rt: &impl Print, date: u32, n: usize, buffer: &mut [u8]) -> io::Result<()>
    requires { n ≤ length buffer.old }
{
    let restarted = book_restart::restart(date, &buffer[..n]);
    writing::outcome(rt, &restarted)?;
    if let Ok(b) = restarted {
        let after = b.close(buffer);
        print!(rt; " {} ", after.length)?;
        writing::hex(rt, buffer)?;
    }
    Ok(())
}

// `list BYTES`: the lines of the book's listing, with | between them.
pub fn list(rt: &impl Print, line: &[u8], bytes: &mut [u8]) -> Option<io::Result<()>> {
    let n = words::read_bytes(words::word(line, 1), bytes)?;
    Some(all_lines(rt, &bytes[..n]))
}

// The answer to `list` of a book.
fn all_lines(rt: &impl Print, s: &[u8]) -> io::Result<()> {
    listed(rt, Unit(0), s)?;
    Ok(())
}

// Goes over a book's listing, and writes its lines where no unit is asked for: unit 0 stands for none. A proved loop has to end, so it has more turns than
// a question's book has lines.
fn listed(rt: &impl Print, unit: Unit, s: &[u8]) -> io::Result<Gone> {
    let mut at = book_listing::start();
    let mut asked = book_listing::ask(unit);
    let mut pos: usize = 0;
    for turn in 0..MOST_LINES {
        let stepped = book_listing::step(at, wire::rest(s, pos), true);
        if unit.0 == 0 {
            listed_line(rt, stepped.line, turn == 0)?;
        }
        asked = book_listing::kept(asked, at, stepped);
        pos = pos.saturating_add(stepped.taken).min(s.len());
        at = stepped.listing;
    }
    Ok(Gone {
        listing: at,
        asked: asked,
    })
}

// A line without its end, and | before it unless it is the first; nothing where there is no text.
fn listed_line(rt: &impl Print, l: Line, first: bool) -> io::Result<()> {
    if l.length < 1 {
        return Ok(());
    }
    if !first {
        rt.print("|")?;
    }
    let text = l.bytes;
    writing::text(rt, wire::first_part(&text, l.length - 1))
}

// `last DATE UNIT BOOK`: restart's refusal, or 0, the refusal of the question for the unit's last message, its place and the message.
pub fn last(rt: &impl Print, line: &[u8], bytes: &mut [u8]) -> Option<io::Result<()>> {
    let date = words::read_number(words::word(line, 1), 4294967295)? as u32;
    let unit = words::read_number(words::word(line, 2), 255)? as u8;
    let n = words::read_bytes(words::word(line, 3), bytes)?;
    Some(last_of(rt, date, Unit(unit), &bytes[..n]))
}

// The answer to `last` of a book; where the question is refused, place 0.
fn last_of(rt: &impl Print, date: u32, unit: Unit, s: &[u8]) -> io::Result<()> {
    let restarted = book_restart::restart(date, s);
    writing::outcome(rt, &restarted)?;
    if let Ok(b) = restarted {
        let found = last_message::check_last(b, unit, s);
        let message = last_message::last_message(b, unit, s);
        let place = if found.is_ok() {
            b.table.entry(unit).place.0
        } else {
            0
        };
        rt.print(" ")?;
        writing::outcome(rt, &found)?;
        print!(rt; " {place} ")?;
        writing::hex(rt, message)?;
    }
    Ok(())
}

// `last-state STATE UNIT BOOK`: the same by the C calls, of a state's bytes: the refusal, the place and the message.
pub fn last_state(rt: &impl Print, line: &[u8], bytes: &mut [u8]) -> Option<io::Result<()>> {
    let mut state = [0u8; 4096];
    let k = words::read_bytes(words::word(line, 1), &mut state)?;
    let unit = words::read_number(words::word(line, 2), 255)? as u8;
    let n = words::read_bytes(words::word(line, 3), bytes)?;
    Some(last_by(rt, unit, &bytes[..n], &state[..k]))
}

// The answer to `last-state`.
fn last_by(rt: &impl Print, unit: u8, s: &[u8], state: &[u8]) -> io::Result<()> {
    let at = gateway::books::boe_last_at(unit, s, state);
    let size = gateway::books::boe_last_length(unit, s, state);
    writing::refusal(rt, gateway::books::boe_last_refusal(unit, s, state))?;
    print!(rt; " {at} ")?;
    writing::hex(rt, wire::first_part(wire::rest(s, at), size))
}

// `last-line UNIT BYTES`: the lines that the listing program tells of a unit, with | between them.
pub fn last_line(rt: &impl Print, line: &[u8], bytes: &mut [u8]) -> Option<io::Result<()>> {
    let unit = words::read_number(words::word(line, 1), 255)? as u8;
    let n = words::read_bytes(words::word(line, 2), bytes)?;
    Some(last_told(rt, Unit(unit), &bytes[..n]))
}

// The answer to `last-line` of a book.
fn last_told(rt: &impl Print, unit: Unit, s: &[u8]) -> io::Result<()> {
    if let Err(refusal) = table::check_unit(unit) {
        return listed_line(rt, book_lines::refusal_line(refusal.code()), true);
    }
    let gone = listed(rt, unit, s)?;
    let told = book_listing::answer(gone.asked, gone.listing);
    listed_line(rt, told.first, true)?;
    listed_line(rt, told.second, false)
}
