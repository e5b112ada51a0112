// The fields of Cancel Rejected by their numbers, which they have in their order, from 0.
use crate::values::{give, take};
use order_fields::cancel_rejection;
use orders::Record;

// A field's value into the front of a buffer of zeros, where it is selected.
pub fn get(field: u32, r: Record, value: &mut [u8]) -> bool {
    match field {
        0 => give(cancel_rejection::transaction_time(r), value),
        1 => give(cancel_rejection::cl_ord_id(r), value),
        2 => give(cancel_rejection::cancel_reject_reason(r), value),
        3 => give(cancel_rejection::text(r), value),
        4 => give(cancel_rejection::side(r), value),
        5 => give(cancel_rejection::peg_difference(r), value),
        6 => give(cancel_rejection::price(r), value),
        7 => give(cancel_rejection::exec_inst(r), value),
        8 => give(cancel_rejection::ord_type(r), value),
        9 => give(cancel_rejection::time_in_force(r), value),
        10 => give(cancel_rejection::min_qty(r), value),
        11 => give(cancel_rejection::symbol(r), value),
        12 => give(cancel_rejection::symbol_sfx(r), value),
        13 => give(cancel_rejection::capacity(r), value),
        14 => give(cancel_rejection::echo_text(r), value),
        15 => give(cancel_rejection::stop_px(r), value),
        _ => false,
    }
}

// The record with a field set.
pub fn set(field: u32, value: [u8; 64], r: Record) -> Record {
    match field {
        0 => cancel_rejection::with_transaction_time(r, take(value)),
        1 => cancel_rejection::with_cl_ord_id(r, take(value)),
        2 => cancel_rejection::with_cancel_reject_reason(r, take(value)),
        3 => cancel_rejection::with_text(r, take(value)),
        4 => cancel_rejection::with_side(r, take(value)),
        5 => cancel_rejection::with_peg_difference(r, take(value)),
        6 => cancel_rejection::with_price(r, take(value)),
        7 => cancel_rejection::with_exec_inst(r, take(value)),
        8 => cancel_rejection::with_ord_type(r, take(value)),
        9 => cancel_rejection::with_time_in_force(r, take(value)),
        10 => cancel_rejection::with_min_qty(r, take(value)),
        11 => cancel_rejection::with_symbol(r, take(value)),
        12 => cancel_rejection::with_symbol_sfx(r, take(value)),
        13 => cancel_rejection::with_capacity(r, take(value)),
        14 => cancel_rejection::with_echo_text(r, take(value)),
        15 => cancel_rejection::with_stop_px(r, take(value)),
        _ => r,
    }
}
