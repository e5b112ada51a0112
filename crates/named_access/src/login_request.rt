// The fields of Login Request by their numbers, which they have in their order, from 0.
use crate::values::{give, take};
use session_fields::login_request;
use session_messages::Record;

// A field's value into the front of a buffer of zeros, where it is selected.
pub fn get(field: u32, r: Record, value: &mut [u8]) -> bool {
    match field {
        0 => give(login_request::session_sub_id(r), value),
        1 => give(login_request::username(r), value),
        2 => give(login_request::password(r), value),
        3 => give(login_request::group_count(r), value),
        _ => false,
    }
}

// The record with a field set.
pub fn set(field: u32, value: [u8; 64], r: Record) -> Record {
    match field {
        0 => login_request::with_session_sub_id(r, take(value)),
        1 => login_request::with_username(r, take(value)),
        2 => login_request::with_password(r, take(value)),
        _ => r,
    }
}
