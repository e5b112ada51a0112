// The fields of Modify Order by their numbers, which they have in their order, from 0.
use crate::values::{give, take};
use order_fields::modify_order;
use orders::Record;

// A field's value into the front of a buffer of zeros, where it is selected.
pub fn get(field: u32, r: Record, value: &mut [u8]) -> bool {
    match field {
        0 => give(modify_order::cl_ord_id(r), value),
        1 => give(modify_order::orig_cl_ord_id(r), value),
        2 => give(modify_order::clearing_firm(r), value),
        3 => give(modify_order::order_qty(r), value),
        4 => give(modify_order::price(r), value),
        5 => give(modify_order::ord_type(r), value),
        6 => give(modify_order::cancel_orig_on_reject(r), value),
        7 => give(modify_order::exec_inst(r), value),
        8 => give(modify_order::side(r), value),
        9 => give(modify_order::max_floor(r), value),
        10 => give(modify_order::stop_px(r), value),
        11 => give(modify_order::locate_broker(r), value),
        _ => false,
    }
}

// The record with a field set.
pub fn set(field: u32, value: [u8; 64], r: Record) -> Record {
    match field {
        0 => modify_order::with_cl_ord_id(r, take(value)),
        1 => modify_order::with_orig_cl_ord_id(r, take(value)),
        2 => modify_order::with_clearing_firm(r, take(value)),
        3 => modify_order::with_order_qty(r, take(value)),
        4 => modify_order::with_price(r, take(value)),
        5 => modify_order::with_ord_type(r, take(value)),
        6 => modify_order::with_cancel_orig_on_reject(r, take(value)),
        7 => modify_order::with_exec_inst(r, take(value)),
        8 => modify_order::with_side(r, take(value)),
        9 => modify_order::with_max_floor(r, take(value)),
        10 => modify_order::with_stop_px(r, take(value)),
        11 => modify_order::with_locate_broker(r, take(value)),
        _ => r,
    }
}
