// The fields of New Order by their numbers, which they have in their order, from 0.
use crate::values::{give, take};
use order_fields::new_order;
use orders::Record;

// A field's value into the front of a buffer of zeros, where it is selected.
pub fn get(field: u32, r: Record, value: &mut [u8]) -> bool {
    match field {
        0 => give(new_order::cl_ord_id(r), value),
        1 => give(new_order::side(r), value),
        2 => give(new_order::order_qty(r), value),
        3 => give(new_order::clearing_firm(r), value),
        4 => give(new_order::clearing_account(r), value),
        5 => give(new_order::price(r), value),
        6 => give(new_order::exec_inst(r), value),
        7 => give(new_order::ord_type(r), value),
        8 => give(new_order::time_in_force(r), value),
        9 => give(new_order::min_qty(r), value),
        10 => give(new_order::max_floor(r), value),
        11 => give(new_order::symbol(r), value),
        12 => give(new_order::symbol_sfx(r), value),
        13 => give(new_order::capacity(r), value),
        14 => give(new_order::routing_inst(r), value),
        15 => give(new_order::account(r), value),
        16 => give(new_order::locate_reqd(r), value),
        17 => give(new_order::expire_time(r), value),
        18 => give(new_order::display_range(r), value),
        19 => give(new_order::stop_px(r), value),
        20 => give(new_order::ex_destination(r), value),
        21 => give(new_order::echo_text(r), value),
        22 => give(new_order::locate_broker(r), value),
        _ => false,
    }
}

// The record with a field set.
pub fn set(field: u32, value: [u8; 64], r: Record) -> Record {
    match field {
        0 => new_order::with_cl_ord_id(r, take(value)),
        1 => new_order::with_side(r, take(value)),
        2 => new_order::with_order_qty(r, take(value)),
        3 => new_order::with_clearing_firm(r, take(value)),
        4 => new_order::with_clearing_account(r, take(value)),
        5 => new_order::with_price(r, take(value)),
        6 => new_order::with_exec_inst(r, take(value)),
        7 => new_order::with_ord_type(r, take(value)),
        8 => new_order::with_time_in_force(r, take(value)),
        9 => new_order::with_min_qty(r, take(value)),
        10 => new_order::with_max_floor(r, take(value)),
        11 => new_order::with_symbol(r, take(value)),
        12 => new_order::with_symbol_sfx(r, take(value)),
        13 => new_order::with_capacity(r, take(value)),
        14 => new_order::with_routing_inst(r, take(value)),
        15 => new_order::with_account(r, take(value)),
        16 => new_order::with_locate_reqd(r, take(value)),
        17 => new_order::with_expire_time(r, take(value)),
        18 => new_order::with_display_range(r, take(value)),
        19 => new_order::with_stop_px(r, take(value)),
        20 => new_order::with_ex_destination(r, take(value)),
        21 => new_order::with_echo_text(r, take(value)),
        22 => new_order::with_locate_broker(r, take(value)),
        _ => r,
    }
}
