// The fields of the options New Order by their numbers, which they have in their order, from 0.
use crate::values::{give, take};
use order_fields::options_order;
use orders::Record;

// A field's value into the front of a buffer of zeros, where it is selected.
pub fn get(field: u32, r: Record, value: &mut [u8]) -> bool {
    match field {
        0 => give(options_order::cl_ord_id(r), value),
        1 => give(options_order::side(r), value),
        2 => give(options_order::order_qty(r), value),
        3 => give(options_order::clearing_firm(r), value),
        4 => give(options_order::clearing_account(r), value),
        5 => give(options_order::price(r), value),
        6 => give(options_order::exec_inst(r), value),
        7 => give(options_order::ord_type(r), value),
        8 => give(options_order::time_in_force(r), value),
        9 => give(options_order::min_qty(r), value),
        10 => give(options_order::max_floor(r), value),
        11 => give(options_order::symbol(r), value),
        12 => give(options_order::capacity(r), value),
        13 => give(options_order::routing_inst(r), value),
        14 => give(options_order::account(r), value),
        15 => give(options_order::maturity_date(r), value),
        16 => give(options_order::strike_price(r), value),
        17 => give(options_order::put_or_call(r), value),
        18 => give(options_order::open_close(r), value),
        _ => false,
    }
}

// The record with a field set.
pub fn set(field: u32, value: [u8; 64], r: Record) -> Record {
    match field {
        0 => options_order::with_cl_ord_id(r, take(value)),
        1 => options_order::with_side(r, take(value)),
        2 => options_order::with_order_qty(r, take(value)),
        3 => options_order::with_clearing_firm(r, take(value)),
        4 => options_order::with_clearing_account(r, take(value)),
        5 => options_order::with_price(r, take(value)),
        6 => options_order::with_exec_inst(r, take(value)),
        7 => options_order::with_ord_type(r, take(value)),
        8 => options_order::with_time_in_force(r, take(value)),
        9 => options_order::with_min_qty(r, take(value)),
        10 => options_order::with_max_floor(r, take(value)),
        11 => options_order::with_symbol(r, take(value)),
        12 => options_order::with_capacity(r, take(value)),
        13 => options_order::with_routing_inst(r, take(value)),
        14 => options_order::with_account(r, take(value)),
        15 => options_order::with_maturity_date(r, take(value)),
        16 => options_order::with_strike_price(r, take(value)),
        17 => options_order::with_put_or_call(r, take(value)),
        18 => options_order::with_open_close(r, take(value)),
        _ => r,
    }
}
