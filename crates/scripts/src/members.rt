// The questions to the member: a session's state, and the buffer of its day book.
use crate::{asked, parts};
use asking::{words, writing};
use book::Book;
use orders::Market;
use refusals::Refusal;
use session::{Phase, Session, Told};
use std::io;
use table::{OutgoingNumber, Unit};

// The calls of the member.
#[derive(Clone, Copy)]
pub enum Call {
    Get,
    Order,
    Login,
    Break,
    Beat,
    Message,
    Response,
    Open,
    Restart,
    State,
    Book,
    Last,
}

// Which call of the member a word names.
pub fn call_of(word: &[u8]) -> Option<Call> {
    match word {
        b"m-get" => Some(Call::Get),
        b"m-order" => Some(Call::Order),
        b"m-login" => Some(Call::Login),
        b"m-break" => Some(Call::Break),
        b"m-beat" => Some(Call::Beat),
        b"m-message" => Some(Call::Message),
        b"m-response" => Some(Call::Response),
        b"m-open" => Some(Call::Open),
        b"m-restart" => Some(Call::Restart),
        b"m-state" => Some(Call::State),
        b"m-book" => Some(Call::Book),
        b"m-last" => Some(Call::Last),
        _ => None,
    }
}

// How many words a question of a call has.
pub fn words_of(call: Call) -> usize {
    match call {
        Call::Book => 1,
        Call::Break | Call::Beat => 2,
        Call::Get | Call::Order | Call::Message | Call::Response | Call::Last => 3,
        Call::Open | Call::Restart => 4,
        Call::State => 10,
        Call::Login => 13,
    }
}

// Answers a line by its call.
pub fn answered(
    rt: &impl Print,
    call: Call,
    line: &[u8],
    s: &mut Session,
    bytes: &mut [u8],
    book: &mut [u8],
) -> Option<io::Result<()>> {
    match call {
        Call::Get => get(rt, line, s, bytes, book),
        Call::Message => taken(rt, line, s, bytes, book, Session::message),
        Call::Response => taken(rt, line, s, bytes, book, Session::response),
        Call::Order => order(rt, line, s, bytes),
        Call::Login => login(rt, line, s),
        Call::Break => broken(rt, line, s, book),
        Call::Beat => beat(rt, line, s),
        Call::Open => open(rt, line, s, book),
        Call::Restart => restart(rt, line, s, book),
        Call::State => state(rt, line, s),
        Call::Book => Some(parts::stored(rt, book, s.book.length, s.book.table)),
        Call::Last => last(rt, line, s, book),
    }
}

// The phase of a number.
fn phase_of(n: u64) -> Option<Phase> {
    match n {
        0 => Some(Phase::Closed),
        1 => Some(Phase::Asked),
        2 => Some(Phase::Replaying),
        3 => Some(Phase::Live),
        _ => None,
    }
}

// The member's numbers, which are the answer or its end.
fn say(rt: &impl Print, s: &Session) -> io::Result<()> {
    let b = s.book;
    print!(rt; "{} {} {}", s.phase as u8, s.outgoing.0, s.market as u8)?;
    print!(rt; " {} {} {} {}", b.date, b.length, b.last, b.count)?;
    parts::next_sums(rt, b.table)
}

// What a call answered, 0 or its refusal, and the member after it.
fn refused<T>(rt: &impl Print, r: &Result<T, Refusal>, s: &Session) -> io::Result<()> {
    writing::outcome(rt, r)?;
    rt.print(" ")?;
    say(rt, s)
}

// The same after a call that writes, and the output buffer after it.
fn sent(
    rt: &impl Print,
    r: Result<Session, Refusal>,
    s: &mut Session,
    out: &[u8],
) -> io::Result<()> {
    *s = r.unwrap_or(*s);
    refused(rt, &r, s)?;
    parts::output(rt, out)
}

// The member of a market with the book that opening or restart answers, closed; or as it was, where they refuse.
fn begun(
    rt: &impl Print,
    market: Market,
    r: Result<Book, Refusal>,
    s: &mut Session,
) -> io::Result<()> {
    if let Ok(b) = r {
        *s = session::closed_with(market, b);
    }
    refused(rt, &r, s)
}

// `m-open DATE ROOM MARKET`: the refusal and the member.
fn open(rt: &impl Print, line: &[u8], s: &mut Session, book: &mut [u8]) -> Option<io::Result<()>> {
    let date = words::read_number(words::word(line, 1), 4294967295)? as u32;
    let n = words::read_number(words::word(line, 2), book.len() as u64)? as usize;
    let market = parts::read_market(words::word(line, 3))?;
    Some(begun(rt, market, book::open(date, &mut book[..n]), s))
}

// `m-restart DATE N MARKET`: the refusal and the member.
fn restart(rt: &impl Print, line: &[u8], s: &mut Session, book: &[u8]) -> Option<io::Result<()>> {
    let date = words::read_number(words::word(line, 1), 4294967295)? as u32;
    let n = words::read_number(words::word(line, 2), book.len() as u64)? as usize;
    let market = parts::read_market(words::word(line, 3))?;
    Some(begun(rt, market, book_restart::restart(date, &book[..n]), s))
}

// `m-state PHASE OUTGOING MARKET DATE LENGTH LAST COUNT TABLE PLACES`: the member.
fn state(rt: &impl Print, line: &[u8], s: &mut Session) -> Option<io::Result<()>> {
    let phase = phase_of(words::read_number(words::word(line, 1), 3)?)?;
    let outgoing = words::read_number(words::word(line, 2), 4294967295)? as u32;
    let market = parts::read_market(words::word(line, 3))?;
    let [date, length, last, count] = parts::read_four(line, 4)?;
    let table = parts::read_table(line, 8)?;
    *s = Session {
        phase,
        outgoing: OutgoingNumber(outgoing),
        market,
        book: Book {
            table,
            date,
            length,
            last,
            count,
        },
    };
    Some(say(rt, s))
}

// `m-login WHICH FLAG COUNT UNITS NAMES GIVEN COUNT BITS GIVEN COUNT BITS ROOM`: the refusal, the member and the output.
fn login(rt: &impl Print, line: &[u8], s: &mut Session) -> Option<io::Result<()>> {
    let choice = asked::read_units(line)?;
    let names = parts::read_exactly(words::word(line, 5))?;
    let acknowledgments = asked::read_bits(line, 6)?;
    let executions = asked::read_bits(line, 9)?;
    let n = words::read_number(words::word(line, 12), 600)? as usize;
    let mut room = [0xFFu8; 600];
    let out = &mut room[..n];
    let a = s.login(choice, names, acknowledgments, executions, out);
    Some(sent(rt, a, s, out))
}

// `m-get BYTES ROOM`: the refusal, what became of the message, and the member.
fn get(
    rt: &impl Print,
    line: &[u8],
    s: &mut Session,
    bytes: &mut [u8],
    book: &mut [u8],
) -> Option<io::Result<()>> {
    let k = words::read_bytes(words::word(line, 1), bytes)?;
    let n = words::read_number(words::word(line, 2), book.len() as u64)? as usize;
    let r = s.receive(&bytes[..k], &mut book[..n]);
    let (after, told) = r.unwrap_or((*s, Told::Nothing));
    *s = after;
    Some(received(rt, &r, told, s))
}

// The answer to `m-get`: a refusal, or 0, what became of the message (0 is nothing for the desk, 1 booked, 2 handed), and the member.
fn received<T>(rt: &impl Print, r: &Result<T, Refusal>, told: Told, s: &Session) -> io::Result<()> {
    writing::outcome(rt, r)?;
    print!(rt; " {} ", told as u8)?;
    say(rt, s)
}

// `m-message BYTES ROOM`, by the call for sequenced messages, and `m-response BYTES ROOM`, by that for a Login Response: the refusal and the member.
fn taken<F: FnOnce(Session, &[u8], &mut [u8]) -> Result<Session, Refusal>>(
    rt: &impl Print,
    line: &[u8],
    s: &mut Session,
    bytes: &mut [u8],
    book: &mut [u8],
    call: F,
) -> Option<io::Result<()>>
    requires { F.IsAlwaysCallable call }
{
    let k = words::read_bytes(words::word(line, 1), bytes)?;
    let n = words::read_number(words::word(line, 2), book.len() as u64)? as usize;
    let r = call(*s, &bytes[..k], &mut book[..n]);
    *s = r.unwrap_or(*s);
    Some(refused(rt, &r, s))
}

// `m-order RECORD ROOM`: the refusal, the member and the output.
fn order(
    rt: &impl Print,
    line: &[u8],
    s: &mut Session,
    bytes: &mut [u8],
) -> Option<io::Result<()>> {
    let k = words::read_bytes(words::word(line, 1), bytes)?;
    let n = words::read_number(words::word(line, 2), 2100)? as usize;
    let mut room = [0xFFu8; 2100];
    let out = &mut room[..n];
    let a = s.order(&bytes[..k], out);
    Some(sent(rt, a, s, out))
}

// `m-beat ROOM`: the refusal, the member and the output.
fn beat(rt: &impl Print, line: &[u8], s: &mut Session) -> Option<io::Result<()>> {
    let n = words::read_number(words::word(line, 1), 16384)? as usize;
    let mut room = [0xFFu8; 16384];
    let out = &mut room[..n];
    let a = s.heartbeat(out);
    Some(sent(rt, a, s, out))
}

// `m-break ROOM`: the member.
fn broken(
    rt: &impl Print,
    line: &[u8],
    s: &mut Session,
    book: &mut [u8],
) -> Option<io::Result<()>> {
    let n = words::read_number(words::word(line, 1), book.len() as u64)? as usize;
    *s = s.broken(&mut book[..n]);
    Some(say(rt, s))
}

// `m-last UNIT ROOM`: the refusal, and the place and the bytes of the last message of a unit.
fn last(rt: &impl Print, line: &[u8], s: &Session, book: &[u8]) -> Option<io::Result<()>> {
    let unit = words::read_number(words::word(line, 1), 255)? as u8;
    let n = words::read_number(words::word(line, 2), book.len() as u64)? as usize;
    Some(found(rt, s.book, Unit(unit), &book[..n]))
}

// The answer to `m-last` with the book's buffer; where it is refused, place 0 and no bytes.
fn found(rt: &impl Print, b: Book, unit: Unit, book: &[u8]) -> io::Result<()> {
    let found = last_message::check_last(b, unit, book);
    writing::outcome(rt, &found)?;
    if found.is_err() {
        return rt.print(" 0 -");
    }
    print!(rt; " {}", b.table.entry(unit).place.0)?;
    parts::output(rt, last_message::last_message(b, unit, book))
}
