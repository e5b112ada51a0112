// The fields of Logout by their numbers, which they have in their order, from 0.
use crate::values::{give, take};
use session_fields::logout;
use session_messages::Record;
use table::OutgoingNumber;

// A field's value into the front of a buffer of zeros, where it is selected.
pub fn get(field: u32, r: Record, value: &mut [u8]) -> bool {
    match field {
        0 => give(logout::reason(r), value),
        1 => give(logout::text(r), value),
        2 => give(logout::last_received(r).map(|n| n.0), value),
        3 => give(logout::unit_count(r), value),
        _ => false,
    }
}

// The record with a field set.
pub fn set(field: u32, value: [u8; 64], r: Record) -> Record {
    match field {
        0 => logout::with_reason(r, take(value)),
        1 => logout::with_text(r, take(value)),
        2 => logout::with_last_received(r, OutgoingNumber(take(value))),
        _ => r,
    }
}
