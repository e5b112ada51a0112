// The sentences on a message, read from its bytes, or on an order by its record.
use crate::{say, written};
use asking::writing;
use orders::{Market, Record};
use std::io;

// The direction of what a member of a market sends.
fn direction_of(market: Market) -> u8 {
    match market {
        Market::Equities => 0,
        Market::Options => 2,
    }
}

// The record of an acknowledgment, an execution or a rejection.
fn record_of(bytes: &[u8]) -> Record {
    record_from(1, bytes)
}

// The record of an order that a member of a market sends.
pub fn record_in(market: Market, bytes: &[u8]) -> Record {
    record_from(direction_of(market), bytes)
}

// The record of a message of a direction.
fn record_from(direction: u8, bytes: &[u8]) -> Record {
    let mut record = [0u8; block::RECORD];
    let _ = messages::read(direction, bytes, &mut record);
    order_records::load(&record).unwrap_or(orders::blank_record())
}

// A text field, where it is selected.
fn name<const N: usize>(rt: &impl Print, field: Option<[u8; N]>) -> io::Result<()> {
    match field {
        Some(text) => say::name(rt, &text),
        None => Ok(()),
    }
}

// A price, 0 where it is not selected.
fn price(rt: &impl Print, field: Option<i64>) -> io::Result<()> {
    writing::price(rt, field.unwrap_or(0))
}

// What an acknowledgment says.
fn acknowledged(rt: &impl Print, r: Record) -> io::Result<()> {
    name(rt, order_fields::acknowledgment::cl_ord_id(r))?;
    writing::text(rt, b" acknowledged at ")?;
    price(rt, order_fields::acknowledgment::price(r))
}

// What an execution says.
fn executed(rt: &impl Print, r: Record) -> io::Result<()> {
    name(rt, order_fields::execution::cl_ord_id(r))?;
    let shares = order_fields::execution::last_shares(r).unwrap_or(0);
    say::count(rt, b" executed, ", shares as u64, b" shares at ")?;
    price(rt, order_fields::execution::last_px(r))?;
    let left = order_fields::execution::leaves_qty(r).unwrap_or(0);
    say::count(rt, b", ", left as u64, b" left")
}

// A reason, and the text beside it.
fn reason(rt: &impl Print, letter: Option<[u8; 1]>, text: Option<[u8; 60]>) -> io::Result<()> {
    rt.print(", reason ")?;
    name(rt, letter)?;
    rt.print(", ")?;
    name(rt, text)
}

// What an Order Rejected says.
fn order_rejected(rt: &impl Print, r: Record) -> io::Result<()> {
    writing::text(rt, b"Order Rejected of ")?;
    name(rt, order_fields::rejection::cl_ord_id(r))?;
    reason(
        rt,
        order_fields::rejection::order_reject_reason(r),
        order_fields::rejection::text(r),
    )
}

// What a Cancel Rejected says.
fn cancel_rejected(rt: &impl Print, r: Record) -> io::Result<()> {
    writing::text(rt, b"Cancel Rejected of ")?;
    name(rt, order_fields::cancel_rejection::cl_ord_id(r))?;
    reason(
        rt,
        order_fields::cancel_rejection::cancel_reject_reason(r),
        order_fields::cancel_rejection::text(r),
    )
}

// What a rejection says.
pub fn rejection(rt: &impl Print, bytes: &[u8]) -> io::Result<()> {
    let r = record_of(bytes);
    if r.message == 0x26 {
        order_rejected(rt, r)
    } else {
        cancel_rejected(rt, r)
    }
}

// What a message of the venue's log says.
fn said(rt: &impl Print, r: Record) -> io::Result<()> {
    match r.message {
        0x25 => acknowledged(rt, r),
        0x2C => executed(rt, r),
        _ => rt.print("a session message"),
    }
}

// A message of the venue's: its unit, its number and what it says.
pub fn report(rt: &impl Print, bytes: &[u8]) -> io::Result<()> {
    let r = record_of(bytes);
    print!(rt; "unit {} number {}, ", r.unit, r.number)?;
    said(rt, r)
}

// A message's size.
pub fn size(rt: &impl Print, bytes: &[u8]) -> io::Result<()> {
    print!(rt; " ({} bytes)", wire::frame(bytes).len())
}

// Buy or sell.
fn side(rt: &impl Print, side: Option<[u8; 1]>) -> io::Result<()> {
    rt.print(if side == Some([written::SELL]) {
        ": sell "
    } else {
        ": buy "
    })
}

// What a New Order says.
fn new_order(rt: &impl Print, r: Record) -> io::Result<()> {
    writing::text(rt, b"New Order ")?;
    name(rt, order_fields::new_order::cl_ord_id(r))?;
    side(rt, order_fields::new_order::side(r))?;
    let quantity = order_fields::new_order::order_qty(r).unwrap_or(0);
    writing::decimal(rt, quantity as u64)?;
    writing::text(rt, b" at ")?;
    price(rt, order_fields::new_order::price(r))
}

// What an options New Order says.
fn option(rt: &impl Print, r: Record) -> io::Result<()> {
    writing::text(rt, b"options New Order ")?;
    name(rt, order_fields::options_order::cl_ord_id(r))?;
    side(rt, order_fields::options_order::side(r))?;
    let quantity = order_fields::options_order::order_qty(r).unwrap_or(0);
    writing::decimal(rt, quantity as u64)?;
    writing::text(rt, b" ")?;
    name(rt, order_fields::options_order::symbol(r))?;
    let maturity = order_fields::options_order::maturity_date(r).unwrap_or(0);
    say::count(rt, b" of ", maturity as u64, b", ")?;
    call_or_put(rt, order_fields::options_order::put_or_call(r))?;
    price(rt, order_fields::options_order::strike_price(r))?;
    writing::text(rt, b", at ")?;
    price(rt, order_fields::options_order::price(r))
}

// The right to buy or to sell.
fn call_or_put(rt: &impl Print, right: Option<[u8; 1]>) -> io::Result<()> {
    rt.print(if right == Some([b'1']) {
        "call at "
    } else {
        "put at "
    })
}

// What a Modify Order says.
fn modify(rt: &impl Print, r: Record) -> io::Result<()> {
    writing::text(rt, b"Modify Order of ")?;
    name(rt, order_fields::modify_order::orig_cl_ord_id(r))?;
    writing::text(rt, b" as ")?;
    name(rt, order_fields::modify_order::cl_ord_id(r))?;
    let quantity = order_fields::modify_order::order_qty(r).unwrap_or(0);
    say::count(rt, b": ", quantity as u64, b"")?;
    match order_fields::modify_order::price(r) {
        Some(price) => {
            writing::text(rt, b" at ")?;
            writing::price(rt, price)
        }
        None => writing::text(rt, b" without a price"),
    }
}

// What a Cancel Order says.
fn cancel(rt: &impl Print, r: Record) -> io::Result<()> {
    writing::text(rt, b"Cancel Order of ")?;
    name(rt, order_fields::cancel_order::orig_cl_ord_id(r))
}

// An order of ours, by its record.
pub fn order(rt: &impl Print, r: Record) -> io::Result<()> {
    match r.message {
        0x38 => new_order(rt, r),
        0xB8 => option(rt, r),
        0x3A => modify(rt, r),
        _ => cancel(rt, r),
    }
}

// The record of a session message; the blank one of a message that is refused.
fn session_of(m: &[u8]) -> session_messages::Record {
    session_messages::read_session(m).unwrap_or(written::session_record(0))
}

// The Login Response: its status and text, and the last order that the venue has of ours.
pub fn response(rt: &impl Print, bytes: &[u8]) -> io::Result<()> {
    let m = wire::frame(bytes);
    let r = session_of(m);
    writing::text(rt, b"with status ")?;
    name(rt, session_fields::login_response::status(r))?;
    writing::text(rt, b", ")?;
    name(rt, session_fields::login_response::text(r))?;
    size(rt, bytes)?;
    let received = session_fields::login_response::last_received(r).map(|n| n.0);
    say::count(
        rt,
        b": last order received ",
        received.unwrap_or(0) as u64,
        b"",
    )
}

// The Logout: its reason and text.
pub fn logout(rt: &impl Print, bytes: &[u8]) -> io::Result<()> {
    let m = wire::frame(bytes);
    let r = session_of(m);
    writing::text(rt, b"a Logout, reason ")?;
    name(rt, session_fields::logout::reason(r))?;
    writing::text(rt, b", ")?;
    name(rt, session_fields::logout::text(r))
}
