// One function a call: each writes its answer without the line end, or answers none where the line is no such question.
ghost use Rattle.std.specs.Prelude.{◌≤◌};

use crate::books;
use asking::{words, writing};
use kinds::Kind;
use refusals::Refusal;
use std::io;

// The calls that a question's first word names.
#[derive(Clone, Copy)]
enum Call {
    Frame,
    Get,
    Put,
    Price,
    Kind,
    Filled,
    Step,
    Day,
    Told,
    Year,
    Due,
    Silent,
    Read,
    ReadInto,
    Write,
    Open,
    Restart,
    Append,
    Close,
    List,
    Last,
    LastState,
    LastLine,
}

// Which call a word names.
fn call_of(word: &[u8]) -> Option<Call> {
    match word {
        b"frame" => Some(Call::Frame),
        b"get" => Some(Call::Get),
        b"put" => Some(Call::Put),
        b"price" => Some(Call::Price),
        b"kind" => Some(Call::Kind),
        b"filled" => Some(Call::Filled),
        b"step" => Some(Call::Step),
        b"day" => Some(Call::Day),
        b"told" => Some(Call::Told),
        b"year" => Some(Call::Year),
        b"due" => Some(Call::Due),
        b"silent" => Some(Call::Silent),
        b"read" => Some(Call::Read),
        b"read-into" => Some(Call::ReadInto),
        b"write" => Some(Call::Write),
        b"open" => Some(Call::Open),
        b"restart" => Some(Call::Restart),
        b"append" => Some(Call::Append),
        b"close" => Some(Call::Close),
        b"list" => Some(Call::List),
        b"last" => Some(Call::Last),
        b"last-state" => Some(Call::LastState),
        b"last-line" => Some(Call::LastLine),
        _ => None,
    }
}

// How many words a question of a call has.
fn words_of(call: Call) -> usize {
    match call {
        Call::Frame | Call::Price | Call::Day | Call::Told | Call::Year | Call::List => 2,
        Call::Kind | Call::Filled | Call::Due | Call::Silent | Call::Read => 3,
        Call::Open | Call::Restart | Call::LastLine => 3,
        Call::Get | Call::Step | Call::ReadInto | Call::Write => 4,
        Call::Close | Call::Last | Call::LastState => 4,
        Call::Put | Call::Append => 5,
    }
}

// Answers a line, if it is a question. `bytes` is room for a question's bytes.
pub fn answered(rt: &impl Print, line: &[u8], bytes: &mut [u8]) -> Option<io::Result<()>> {
    let call = call_of(words::word(line, 0))?;
    if words::count(line) != words_of(call) {
        return None;
    }
    match call {
        Call::Frame => frame(rt, line, bytes),
        Call::Get => get(rt, line, bytes),
        Call::Put => put(rt, line, bytes),
        Call::Price => price(rt, line, bytes),
        Call::Kind => kind(rt, line, bytes, kinds::agrees),
        Call::Filled => kind(rt, line, bytes, kinds::agrees_filled),
        Call::Step => step(rt, line, bytes),
        Call::Day => day(rt, line),
        Call::Told => told(rt, line),
        Call::Year => year(rt, line),
        Call::Due => clocks(rt, line, pulse::heartbeat_due),
        Call::Silent => clocks(rt, line, pulse::peer_silent),
        Call::Read => read(rt, line, bytes),
        Call::ReadInto => lent(rt, line, bytes, gateway::boe_read),
        Call::Write => lent(rt, line, bytes, gateway::boe_write),
        Call::Open => books::open(rt, line, bytes),
        Call::Restart => books::restart(rt, line, bytes),
        Call::Append => books::append(rt, line, bytes),
        Call::Close => books::close(rt, line),
        Call::List => books::list(rt, line, bytes),
        Call::Last => books::last(rt, line, bytes),
        Call::LastState => books::last_state(rt, line, bytes),
        Call::LastLine => books::last_line(rt, line, bytes),
    }
}

// `frame BYTES`: the refusal, or 0 and the header of the first whole message.
fn frame(rt: &impl Print, line: &[u8], bytes: &mut [u8]) -> Option<io::Result<()>> {
    let n = words::read_bytes(words::word(line, 1), bytes)?;
    Some(framed(rt, &bytes[..n]))
}

// The answer to `frame` of the bytes.
fn framed(rt: &impl Print, s: &[u8]) -> io::Result<()> {
    let framed = wire::check_frame(s);
    writing::outcome(rt, &framed)?;
    if framed.is_ok() {
        header(rt, wire::frame(s))?;
    }
    Ok(())
}

// A message's total, type, unit and number.
fn header(rt: &impl Print, m: &[u8]) -> io::Result<()> {
    let total = m.len();
    let message = wire::header::type_of(m);
    let unit = wire::header::unit_of(m);
    let number = wire::header::number_of(m);
    print!(rt; " {total} {message} {unit} {number}")
}

// `get WIDTH BYTES AT`: the number at a place.
fn get(rt: &impl Print, line: &[u8], bytes: &mut [u8]) -> Option<io::Result<()>> {
    let width = words::read_number(words::word(line, 1), 8)?;
    let n = words::read_bytes(words::word(line, 2), bytes)?;
    let at = words::read_number(words::word(line, 3), u64::MAX)? as usize;
    let s = &bytes[..n];
    let value = match width {
        2 => numbers::read_u16(s, at) as u64,
        4 => numbers::read_u32(s, at) as u64,
        8 => numbers::read_u64(s, at),
        _ => return None,
    };
    Some(writing::decimal(rt, value))
}

// `put WIDTH BYTES AT VALUE`: the refusal and the buffer after the call.
fn put(rt: &impl Print, line: &[u8], bytes: &mut [u8]) -> Option<io::Result<()>> {
    let width = words::read_number(words::word(line, 1), 8)?;
    let n = words::read_bytes(words::word(line, 2), bytes)?;
    let at = words::read_number(words::word(line, 3), u64::MAX)? as usize;
    put_by(rt, width, &mut bytes[..n], at, words::word(line, 4))
}

// The answer to `put` by its width.
fn put_by(
    rt: &impl Print,
    width: u64,
    out: &mut [u8],
    at: usize,
    value: &[u8],
) -> Option<io::Result<()>> {
    let written = match width {
        2 => numbers::write_u16(out, at, words::read_number(value, 65535)? as u16),
        4 => numbers::write_u32(out, at, words::read_number(value, 4294967295)? as u32),
        8 => numbers::write_u64(out, at, words::read_number(value, u64::MAX)?),
        _ => return None,
    };
    Some(answered_by(rt, written, out))
}

// What a call answered, 0 or its refusal, and the buffer after it.
pub fn answered_by<T: Drop>(rt: &impl Print, r: Result<T, Refusal>, s: &[u8]) -> io::Result<()> {
    writing::outcome(rt, &r)?;
    rt.print(" ")?;
    writing::hex(rt, s)
}

// The same of a call of C's.
pub fn refused(rt: &impl Print, refusal: u32, s: &[u8]) -> io::Result<()> {
    writing::refusal(rt, refusal)?;
    rt.print(" ")?;
    writing::hex(rt, s)
}

// `price BYTES`: the price with its four decimals.
fn price(rt: &impl Print, line: &[u8], bytes: &mut [u8]) -> Option<io::Result<()>> {
    let n = words::read_bytes(words::word(line, 1), bytes)?;
    if n != 8 {
        return None;
    }
    Some(writing::price(rt, numbers::prices::read_price(bytes, 0)))
}

// Which kind a word names.
fn kind_of(word: &[u8]) -> Option<Kind> {
    match word {
        b"A" => Some(Kind::Letters),
        b"N" => Some(Kind::Alphanumeric),
        b"T" => Some(Kind::Text),
        b"I" => Some(Kind::Identifier),
        b"B" => Some(Kind::Binary),
        b"P" => Some(Kind::Price),
        b"F" => Some(Kind::FilledText),
        b"D" => Some(Kind::Day),
        _ => None,
    }
}

// `kind KIND BYTES`, and `filled KIND BYTES` for a field that is never blank: whether the bytes agree with the kind.
fn kind<F: Fn(Kind, &[u8]) -> bool>(
    rt: &impl Print,
    line: &[u8],
    bytes: &mut [u8],
    agrees: F,
) -> Option<io::Result<()>>
    requires { F.IsAlwaysCallable agrees }
{
    let kind = kind_of(words::word(line, 1))?;
    let n = words::read_bytes(words::word(line, 2), bytes)?;
    Some(writing::yes_or_no(rt, agrees(kind, &bytes[..n])))
}

// `step BYTES UNIT NUMBER`: the refusal and the table's bytes after the call.
fn step(rt: &impl Print, line: &[u8], bytes: &mut [u8]) -> Option<io::Result<()>> {
    let n = words::read_bytes(words::word(line, 1), bytes)?;
    let unit = words::read_number(words::word(line, 2), 255)? as u8;
    let number = words::read_number(words::word(line, 3), 4294967295)? as u32;
    let entries = &mut bytes[..n];
    let refusal = gateway::boe_table_step(unit, number, entries);
    Some(refused(rt, refusal, entries))
}

// `day NUMBER`: the refusal of a date.
fn day(rt: &impl Print, line: &[u8]) -> Option<io::Result<()>> {
    let date = words::read_number(words::word(line, 1), 4294967295)? as u32;
    Some(writing::outcome(rt, &calendar::check_day(date)))
}

// `told TYPE`: what becomes of a message of a type from the venue.
fn told(rt: &impl Print, line: &[u8]) -> Option<io::Result<()>> {
    let message = words::read_number(words::word(line, 1), 255)? as u8;
    Some(rt.print(gateway::boe_told(message)))
}

// `year NUMBER`: which dates of a year are days.
fn year(rt: &impl Print, line: &[u8]) -> Option<io::Result<()>> {
    let y = words::read_number(words::word(line, 1), 9999)? as u32;
    Some(writing::text(rt, &days_of(y)))
}

// For the months 0 to 13 and the days 0 to 32 of a year, 1 for a day and 0 for none.
fn days_of(y: u32) -> [u8; 462]
    requires { y ≤ 9999 }
{
    let mut days = [b'0'; 462];
    for k in 0..462u32 {
        if calendar::is_day(y * 10000 + k / 33 * 100 + k % 33) {
            days[k as usize] = b'1';
        }
    }
    days
}

// `due NOW THEN`: whether a heartbeat is due; `silent NOW THEN`: whether the peer is silent.
fn clocks<F: Fn(u32, u32) -> bool>(rt: &impl Print, line: &[u8], holds: F) -> Option<io::Result<()>>
    requires { F.IsAlwaysCallable holds }
{
    let now = words::read_number(words::word(line, 1), 4294967295)? as u32;
    let then = words::read_number(words::word(line, 2), 4294967295)? as u32;
    Some(writing::yes_or_no(rt, holds(now, then)))
}

// `read DIRECTION BYTES`: the refusal, or 0 and the record.
fn read(rt: &impl Print, line: &[u8], bytes: &mut [u8]) -> Option<io::Result<()>> {
    let direction = words::read_number(words::word(line, 1), 255)? as u8;
    let n = words::read_bytes(words::word(line, 2), bytes)?;
    Some(read_by(rt, direction, &bytes[..n]))
}

// The answer to `read` of the bytes.
fn read_by(rt: &impl Print, direction: u8, s: &[u8]) -> io::Result<()> {
    let mut out = [0u8; session_messages::RECORD];
    let refusal = gateway::boe_read(direction, s, &mut out);
    if refusal != 0 {
        writing::refusal(rt, refusal)
    } else if orders::is_known(out[0]) {
        refused(rt, 0, &out[0..block::RECORD])
    } else {
        refused(rt, 0, &out)
    }
}

// `write DIRECTION RECORD BYTES`, `read-into DIRECTION BYTES BUFFER`: the refusal and the buffer after the call.
fn lent<F: Fn(u8, &[u8], &mut [u8]) -> u32>(
    rt: &impl Print,
    line: &[u8],
    bytes: &mut [u8],
    call: F,
) -> Option<io::Result<()>>
    requires { F.IsAlwaysCallable call }
{
    let direction = words::read_number(words::word(line, 1), 255)? as u8;
    let mut given = [0u8; 4096];
    let k = words::read_bytes(words::word(line, 2), &mut given)?;
    let n = words::read_bytes(words::word(line, 3), bytes)?;
    let out = &mut bytes[..n];
    let refusal = call(direction, &given[..k], out);
    Some(refused(rt, refusal, out))
}
