// The fields of User Modify Rejected by their numbers, which they have in their order, from 0.
use crate::values::{give, take};
use order_fields::modify_rejection;
use orders::Record;

// A field's value into the front of a buffer of zeros, where it is selected.
pub fn get(field: u32, r: Record, value: &mut [u8]) -> bool {
    match field {
        0 => give(modify_rejection::transaction_time(r), value),
        1 => give(modify_rejection::cl_ord_id(r), value),
        2 => give(modify_rejection::modify_reject_reason(r), value),
        3 => give(modify_rejection::text(r), value),
        _ => false,
    }
}

// The record with a field set.
pub fn set(field: u32, value: [u8; 64], r: Record) -> Record {
    match field {
        0 => modify_rejection::with_transaction_time(r, take(value)),
        1 => modify_rejection::with_cl_ord_id(r, take(value)),
        2 => modify_rejection::with_modify_reject_reason(r, take(value)),
        3 => modify_rejection::with_text(r, take(value)),
        _ => r,
    }
}
