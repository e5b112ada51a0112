// The proved named access, by a field's number, for the C test: it holds the setters and getters of include/boe_fields.h to it. A field's number is
// 64 times its message's, which is counted from 0 in the order of `order_value` and `session_value`, and its own among the fields of the message, in
// their order. A RiskGroupID of Purge Orders has its own number, the id, beside the field's.
#![tactic(auto)]

mod acknowledgment;
mod cancel_order;
mod cancel_rejection;
mod execution;
mod login_request;
mod login_response;
mod logout;
mod modify_order;
mod modify_rejection;
mod new_order;
mod options_order;
mod purge_orders;
mod rejection;
mod values;

use refusals::{Reason, Refusal};

// The first number of a session message's field.
const FIRST_OF_SESSION: u32 = 640;

// Bytes into the front of a buffer that has room for them.
fn fill(from: &[u8], to: &mut [u8]) {
    if from.len() <= to.len() {
        block::copy(from, to);
    }
}

// The session record of the first bytes of some: its type, unit, number and body. One that is not whole has a body of zeros.
fn session_of(s: &[u8]) -> session_messages::Record {
    let mut body = [0u8; 433];
    if session_messages::RECORD <= s.len() {
        block::copy(&s[6..session_messages::RECORD], &mut body);
    }
    session_messages::Record {
        message: numbers::byte_at(s, 0),
        unit: numbers::byte_at(s, 1),
        number: numbers::read_u32(s, 2),
        body: body,
    }
}

// A session record into the front of a buffer; or 13 for one that has no room for it.
fn put_session(r: session_messages::Record, out: &mut [u8]) -> Result<(), Refusal> {
    if out.len() < session_messages::RECORD {
        return Err(Refusal::new(Reason::NoRoom));
    }
    let body = r.body;
    order_records::put_head(r.message, r.unit, r.number, out);
    fill(&body, &mut out[6..]);
    Ok(())
}

// A field's value in an order's record into the front of a buffer of zeros: whether it is selected.
fn order_value(field: u32, id: u8, r: orders::Record, value: &mut [u8]) -> bool {
    let own = field % 64;
    match field / 64 {
        0 => new_order::get(own, r, value),
        1 => options_order::get(own, r, value),
        2 => cancel_order::get(own, r, value),
        3 => modify_order::get(own, r, value),
        4 => purge_orders::get(own, id, r, value),
        5 => acknowledgment::get(own, r, value),
        6 => execution::get(own, r, value),
        7 => rejection::get(own, r, value),
        8 => cancel_rejection::get(own, r, value),
        9 => modify_rejection::get(own, r, value),
        _ => false,
    }
}

// An order's record with a field set.
fn order_with(field: u32, id: u8, value: [u8; 64], r: orders::Record) -> orders::Record {
    let own = field % 64;
    match field / 64 {
        0 => new_order::set(own, value, r),
        1 => options_order::set(own, value, r),
        2 => cancel_order::set(own, value, r),
        3 => modify_order::set(own, value, r),
        4 => purge_orders::set(own, id, value, r),
        5 => acknowledgment::set(own, value, r),
        6 => execution::set(own, value, r),
        7 => rejection::set(own, value, r),
        8 => cancel_rejection::set(own, value, r),
        9 => modify_rejection::set(own, value, r),
        _ => r,
    }
}

// A field's value in a session record into the front of a buffer of zeros: whether it is selected.
fn session_value(field: u32, r: session_messages::Record, value: &mut [u8]) -> bool {
    let own = field % 64;
    match field / 64 {
        10 => login_request::get(own, r, value),
        11 => login_response::get(own, r, value),
        12 => logout::get(own, r, value),
        _ => false,
    }
}

// A session record with a field set.
fn session_with(
    field: u32,
    value: [u8; 64],
    r: session_messages::Record,
) -> session_messages::Record {
    let own = field % 64;
    match field / 64 {
        10 => login_request::set(own, value, r),
        11 => login_response::set(own, value, r),
        12 => logout::set(own, value, r),
        _ => r,
    }
}

// A field's value in a record as bytes into the front of a buffer of zeros: whether it is selected. In an order's record that is too short none is.
fn value_in(field: u32, id: u8, record: &[u8], value: &mut [u8]) -> bool {
    if FIRST_OF_SESSION <= field {
        return session_value(field, session_of(record), value);
    }
    let Ok(order) = order_records::load(record) else {
        return false;
    };
    order_value(field, id, order, value)
}

// 1 where a record has the field selected, and its value stands in the front of the buffer; else 0, and zeros stand there. For a buffer under 64 bytes it
// answers 0.
#[unsafe(no_mangle)]
pub extern "C" fn boe_named_get(field: u32, id: u8, record: &[u8], value: &mut [u8]) -> u32 {
    if value.len() < 64 {
        return 0;
    }
    block::clear(64, value);
    value_in(field, id, record, value) as u32
}

// Sets a field of a record to the value in the front of the bytes; or 13 where the value is under 64 bytes or the record under its size.
fn set_in(field: u32, id: u8, value: &[u8], record: &mut [u8]) -> Result<(), Refusal> {
    if value.len() < 64 {
        return Err(Refusal::new(Reason::NoRoom));
    }
    let mut bytes = [0u8; 64];
    block::copy_front(value, 64, &mut bytes);
    if field < FIRST_OF_SESSION {
        let order = order_records::load(record)?;
        return order_records::store(order_with(field, id, bytes, order), record);
    }
    put_session(session_with(field, bytes, session_of(record)), record)
}

// Sets a field of a record to the value in the front of the bytes: 0; or 13 where the value is under 64 bytes or the record under its size.
#[unsafe(no_mangle)]
pub extern "C" fn boe_named_set(field: u32, id: u8, value: &[u8], record: &mut [u8]) -> u32 {
    refusals::code(set_in(field, id, value, record))
}
