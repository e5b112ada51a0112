// The questions to the venue: its state, and the buffer of its log.
use crate::parts;
use asking::{words, writing};
use refusals::Refusal;
use std::io;
use table::OutgoingNumber;
use venue::{Sent, Venue};

// The calls of the venue.
#[derive(Clone, Copy)]
pub enum Call {
    Step,
    Log,
    Login,
    Order,
    Break,
    State,
    Book,
}

// Which call of the venue a word names.
pub fn call_of(word: &[u8]) -> Option<Call> {
    match word {
        b"v-step" => Some(Call::Step),
        b"v-log" => Some(Call::Log),
        b"v-login" => Some(Call::Login),
        b"v-order" => Some(Call::Order),
        b"v-break" => Some(Call::Break),
        b"v-state" => Some(Call::State),
        b"v-book" => Some(Call::Book),
        _ => None,
    }
}

// How many words a question of a call has.
pub fn words_of(call: Call) -> usize {
    match call {
        Call::Break | Call::Book => 1,
        Call::Step | Call::Log | Call::Login | Call::Order => 3,
        Call::State => 10,
    }
}

// Answers a line by its call.
pub fn answered(
    rt: &impl Print,
    call: Call,
    line: &[u8],
    v: &mut Venue,
    bytes: &mut [u8],
    log: &mut [u8],
) -> Option<io::Result<()>> {
    match call {
        Call::Step => step(rt, line, v, log),
        Call::Log => logged(rt, line, v, bytes, log),
        Call::Login => login(rt, line, v, bytes),
        Call::Order => order(rt, line, v, bytes),
        Call::Break => Some(broken(rt, v)),
        Call::State => state(rt, line, v),
        Call::Book => Some(parts::stored(rt, log, v.length, v.table)),
    }
}

// The venue's numbers, which are the answer or its end.
fn say(rt: &impl Print, v: &Venue) -> io::Result<()> {
    let thresholds = v.thresholds;
    print!(rt; "{} {}", v.running as u8, v.told as u8)?;
    print!(rt; " {} {} {} {}", v.at, v.upto, v.length, v.received.0)?;
    print!(rt; " {}", parts::sum(|unit| thresholds.above(unit).0))?;
    parts::next_sums(rt, v.table)
}

// What a call answered, 0 or its refusal, and the venue after it.
fn refused(rt: &impl Print, r: Result<Venue, Refusal>, v: &mut Venue) -> io::Result<()> {
    *v = r.unwrap_or(*v);
    writing::outcome(rt, &r)?;
    rt.print(" ")?;
    say(rt, v)
}

// The same, and the output buffer after the call.
fn sent(rt: &impl Print, r: Result<Sent, Refusal>, v: &mut Venue, out: &[u8]) -> io::Result<()> {
    refused(rt, r.map(|sent| sent.venue), v)?;
    parts::output(rt, out)
}

// `v-break`: the venue.
fn broken(rt: &impl Print, v: &mut Venue) -> io::Result<()> {
    *v = v.broken();
    say(rt, v)
}

// `v-state RUNNING TOLD AT UPTO LENGTH RECEIVED THRESHOLDS TABLE PLACES`: the venue.
fn state(rt: &impl Print, line: &[u8], v: &mut Venue) -> Option<io::Result<()>> {
    let running = words::read_number(words::word(line, 1), 1)? == 1;
    let told = words::read_number(words::word(line, 2), 1)? == 1;
    let [at, upto, length, received] = parts::read_four(line, 3)?;
    let thresholds = parts::read_thresholds(words::word(line, 7))?;
    let table = parts::read_table(line, 8)?;
    *v = Venue {
        running,
        told,
        at,
        upto,
        length,
        received: OutgoingNumber(received),
        thresholds,
        table,
    };
    Some(say(rt, v))
}

// `v-log BYTES ROOM`: the refusal and the venue.
fn logged(
    rt: &impl Print,
    line: &[u8],
    v: &mut Venue,
    bytes: &mut [u8],
    log: &mut [u8],
) -> Option<io::Result<()>> {
    let k = words::read_bytes(words::word(line, 1), bytes)?;
    let n = words::read_number(words::word(line, 2), log.len() as u64)? as usize;
    let a = v.log(&bytes[..k], &mut log[..n]);
    Some(refused(rt, a, v))
}

// `v-login BYTES ROOM`: the refusal, the venue and the output.
fn login(rt: &impl Print, line: &[u8], v: &mut Venue, bytes: &mut [u8]) -> Option<io::Result<()>> {
    let k = words::read_bytes(words::word(line, 1), bytes)?;
    let n = words::read_number(words::word(line, 2), 600)? as usize;
    let mut room = [0xFFu8; 600];
    let out = &mut room[..n];
    let a = v.login(&bytes[..k], out);
    Some(sent(rt, a, v, out))
}

// `v-step LOGROOM ROOM`: the refusal, the venue and the output.
fn step(rt: &impl Print, line: &[u8], v: &mut Venue, log: &[u8]) -> Option<io::Result<()>> {
    let k = words::read_number(words::word(line, 1), log.len() as u64)? as usize;
    let n = words::read_number(words::word(line, 2), 2100)? as usize;
    let mut room = [0xFFu8; 2100];
    let out = &mut room[..n];
    let a = v.step(&log[..k], out);
    Some(sent(rt, a, v, out))
}

// `v-order MARKET BYTES`: the refusal and the venue.
fn order(rt: &impl Print, line: &[u8], v: &mut Venue, bytes: &mut [u8]) -> Option<io::Result<()>> {
    let market = parts::read_market(words::word(line, 1))?;
    let k = words::read_bytes(words::word(line, 2), bytes)?;
    let a = v.order(market, &bytes[..k]);
    Some(refused(rt, a, v))
}
