// The fields of Login Response by their numbers, which they have in their order, from 0.
use crate::values::{give, take};
use session_fields::login_response;
use session_messages::Record;
use table::OutgoingNumber;

// A field's value into the front of a buffer of zeros, where it is selected.
pub fn get(field: u32, r: Record, value: &mut [u8]) -> bool {
    match field {
        0 => give(login_response::status(r), value),
        1 => give(login_response::text(r), value),
        2 => give(login_response::flag(r), value),
        3 => give(login_response::last_received(r).map(|n| n.0), value),
        4 => give(login_response::unit_count(r), value),
        _ => false,
    }
}

// The record with a field set.
pub fn set(field: u32, value: [u8; 64], r: Record) -> Record {
    match field {
        0 => login_response::with_status(r, take(value)),
        1 => login_response::with_text(r, take(value)),
        2 => login_response::with_flag(r, take(value)),
        3 => login_response::with_last_received(r, OutgoingNumber(take(value))),
        _ => r,
    }
}
