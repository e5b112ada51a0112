// What our gateway sends in a session, orders and heartbeats, and what the venue makes of it.
use crate::bench::Bench;
use crate::say::Who;
use crate::{say, told};
use orders::Record;
use refusals::Refusal;
use std::io;

// An order of our desk's goes out, if the session takes it, and reaches the venue.
pub fn sends(rt: &impl Print, b: Bench, order: Record) -> io::Result<Bench> {
    let mut given = [0u8; block::RECORD];
    let _ = order_records::store(order, &mut given);
    let mut up = [0u8; 600];
    match b.session.order(&given, &mut up) {
        Ok(after) => goes(rt, b.after_sending(after), &up),
        Err(refusal) => {
            stays(rt, b, order, refusal)?;
            Ok(b)
        }
    }
}

// The session does not take an order.
fn stays(rt: &impl Print, b: Bench, order: Record, refusal: Refusal) -> io::Result<()> {
    say::row(rt, b.clock, Who::Gateway)?;
    rt.print("is asked for ")?;
    told::order(rt, order)?;
    println!(rt; ": {}, no order number is used up", say::Refused(refusal))
}

// An order is written, and goes out.
fn goes(rt: &impl Print, b: Bench, up: &[u8]) -> io::Result<Bench> {
    let order = told::record_in(b.market(), up);
    say::row(rt, b.clock, Who::Gateway)?;
    print!(rt; "sends order number {}, ", order.number)?;
    told::order(rt, order)?;
    told::size(rt, up)?;
    println!(rt)?;
    arrives(rt, b, up)
}

// What our gateway sent reaches the venue.
fn arrives(rt: &impl Print, b: Bench, up: &[u8]) -> io::Result<Bench> {
    let taken = b.venue.order(b.market(), up);
    say::row(rt, b.clock, Who::Venue)?;
    match taken {
        Ok(after) => {
            println!(rt; "takes it; last order received {}", after.received.0)?;
            Ok(b.with_venue(after))
        }
        Err(refusal) => {
            println!(rt; "{}", say::Refused(refusal))?;
            Ok(b)
        }
    }
}

// Whether a heartbeat is due; if so it goes out.
pub fn beats(rt: &impl Print, b: Bench) -> io::Result<Bench> {
    let since = pulse::elapsed(b.clock, b.sent);
    say::row(rt, b.clock, Who::Gateway)?;
    print!(rt; "has not sent for {since} ms: ")?;
    if !pulse::heartbeat_due(b.clock, b.sent) {
        println!(rt; "no heartbeat due")?;
        return Ok(b);
    }
    let mut up = [0u8; 600];
    let after = match b.session.heartbeat(&mut up) {
        Ok(after) => after,
        Err(refusal) => {
            println!(rt; "{}", say::Refused(refusal))?;
            return Ok(b);
        }
    };
    rt.print("heartbeat due, sends a Client Heartbeat")?;
    told::size(rt, &up)?;
    println!(rt)?;
    arrives(rt, b.after_sending(after), &up)
}

// Whether the venue is silent.
pub fn listens(rt: &impl Print, b: Bench) -> io::Result<()> {
    let since = pulse::elapsed(b.clock, b.heard);
    say::row(rt, b.clock, Who::Gateway)?;
    print!(rt; "has not heard the venue for {since} ms: ")?;
    if pulse::peer_silent(b.clock, b.heard) {
        println!(rt; "the venue is silent, the line is given up")
    } else {
        println!(rt; "not silent yet")
    }
}
