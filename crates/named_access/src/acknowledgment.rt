// The fields of Order Acknowledgment by their numbers, which they have in their order, from 0.
use crate::values::{give, take};
use order_fields::acknowledgment;
use orders::Record;

// A field's value into the front of a buffer of zeros, where it is selected.
pub fn get(field: u32, r: Record, value: &mut [u8]) -> bool {
    match field {
        0 => give(acknowledgment::transaction_time(r), value),
        1 => give(acknowledgment::cl_ord_id(r), value),
        2 => give(acknowledgment::order_id(r), value),
        3 => give(acknowledgment::side(r), value),
        4 => give(acknowledgment::price(r), value),
        5 => give(acknowledgment::exec_inst(r), value),
        6 => give(acknowledgment::ord_type(r), value),
        7 => give(acknowledgment::time_in_force(r), value),
        8 => give(acknowledgment::min_qty(r), value),
        9 => give(acknowledgment::symbol(r), value),
        10 => give(acknowledgment::symbol_sfx(r), value),
        11 => give(acknowledgment::capacity(r), value),
        12 => give(acknowledgment::account(r), value),
        13 => give(acknowledgment::clearing_firm(r), value),
        14 => give(acknowledgment::clearing_account(r), value),
        15 => give(acknowledgment::max_floor(r), value),
        16 => give(acknowledgment::order_qty(r), value),
        17 => give(acknowledgment::leaves_qty(r), value),
        18 => give(acknowledgment::last_shares(r), value),
        19 => give(acknowledgment::last_px(r), value),
        20 => give(acknowledgment::expire_time(r), value),
        _ => false,
    }
}

// The record with a field set.
pub fn set(field: u32, value: [u8; 64], r: Record) -> Record {
    match field {
        0 => acknowledgment::with_transaction_time(r, take(value)),
        1 => acknowledgment::with_cl_ord_id(r, take(value)),
        2 => acknowledgment::with_order_id(r, take(value)),
        3 => acknowledgment::with_side(r, take(value)),
        4 => acknowledgment::with_price(r, take(value)),
        5 => acknowledgment::with_exec_inst(r, take(value)),
        6 => acknowledgment::with_ord_type(r, take(value)),
        7 => acknowledgment::with_time_in_force(r, take(value)),
        8 => acknowledgment::with_min_qty(r, take(value)),
        9 => acknowledgment::with_symbol(r, take(value)),
        10 => acknowledgment::with_symbol_sfx(r, take(value)),
        11 => acknowledgment::with_capacity(r, take(value)),
        12 => acknowledgment::with_account(r, take(value)),
        13 => acknowledgment::with_clearing_firm(r, take(value)),
        14 => acknowledgment::with_clearing_account(r, take(value)),
        15 => acknowledgment::with_max_floor(r, take(value)),
        16 => acknowledgment::with_order_qty(r, take(value)),
        17 => acknowledgment::with_leaves_qty(r, take(value)),
        18 => acknowledgment::with_last_shares(r, take(value)),
        19 => acknowledgment::with_last_px(r, take(value)),
        20 => acknowledgment::with_expire_time(r, take(value)),
        _ => r,
    }
}
