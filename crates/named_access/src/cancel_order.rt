// The fields of Cancel Order by their numbers, which they have in their order, from 0.
use crate::values::{give, take};
use order_fields::cancel_order;
use orders::Record;

// A field's value into the front of a buffer of zeros, where it is selected.
pub fn get(field: u32, r: Record, value: &mut [u8]) -> bool {
    match field {
        0 => give(cancel_order::orig_cl_ord_id(r), value),
        1 => give(cancel_order::clearing_firm(r), value),
        _ => false,
    }
}

// The record with a field set.
pub fn set(field: u32, value: [u8; 64], r: Record) -> Record {
    match field {
        0 => cancel_order::with_orig_cl_ord_id(r, take(value)),
        1 => cancel_order::with_clearing_firm(r, take(value)),
        _ => r,
    }
}
