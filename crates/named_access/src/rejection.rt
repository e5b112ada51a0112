// The fields of Order Rejected by their numbers, which they have in their order, from 0.
use crate::values::{give, take};
use order_fields::rejection;
use orders::Record;

// A field's value into the front of a buffer of zeros, where it is selected.
pub fn get(field: u32, r: Record, value: &mut [u8]) -> bool {
    match field {
        0 => give(rejection::transaction_time(r), value),
        1 => give(rejection::cl_ord_id(r), value),
        2 => give(rejection::order_reject_reason(r), value),
        3 => give(rejection::text(r), value),
        4 => give(rejection::side(r), value),
        5 => give(rejection::peg_difference(r), value),
        6 => give(rejection::price(r), value),
        7 => give(rejection::exec_inst(r), value),
        8 => give(rejection::ord_type(r), value),
        9 => give(rejection::time_in_force(r), value),
        10 => give(rejection::min_qty(r), value),
        11 => give(rejection::symbol(r), value),
        12 => give(rejection::symbol_sfx(r), value),
        13 => give(rejection::capacity(r), value),
        14 => give(rejection::account(r), value),
        15 => give(rejection::clearing_firm(r), value),
        16 => give(rejection::clearing_account(r), value),
        17 => give(rejection::display_indicator(r), value),
        18 => give(rejection::max_floor(r), value),
        19 => give(rejection::discretion_amount(r), value),
        20 => give(rejection::order_qty(r), value),
        21 => give(rejection::prevent_match(r), value),
        22 => give(rejection::secondary_order_id(r), value),
        23 => give(rejection::attributed_quote(r), value),
        24 => give(rejection::ext_exec_inst(r), value),
        25 => give(rejection::echo_text(r), value),
        26 => give(rejection::stop_px(r), value),
        27 => give(rejection::routing_inst(r), value),
        28 => give(rejection::rout_strategy(r), value),
        29 => give(rejection::route_delivery_method(r), value),
        30 => give(rejection::ex_destination(r), value),
        _ => false,
    }
}

// The record with a field set.
pub fn set(field: u32, value: [u8; 64], r: Record) -> Record {
    match field {
        0 => rejection::with_transaction_time(r, take(value)),
        1 => rejection::with_cl_ord_id(r, take(value)),
        2 => rejection::with_order_reject_reason(r, take(value)),
        3 => rejection::with_text(r, take(value)),
        4 => rejection::with_side(r, take(value)),
        5 => rejection::with_peg_difference(r, take(value)),
        6 => rejection::with_price(r, take(value)),
        7 => rejection::with_exec_inst(r, take(value)),
        8 => rejection::with_ord_type(r, take(value)),
        9 => rejection::with_time_in_force(r, take(value)),
        10 => rejection::with_min_qty(r, take(value)),
        11 => rejection::with_symbol(r, take(value)),
        12 => rejection::with_symbol_sfx(r, take(value)),
        13 => rejection::with_capacity(r, take(value)),
        14 => rejection::with_account(r, take(value)),
        15 => rejection::with_clearing_firm(r, take(value)),
        16 => rejection::with_clearing_account(r, take(value)),
        17 => rejection::with_display_indicator(r, take(value)),
        18 => rejection::with_max_floor(r, take(value)),
        19 => rejection::with_discretion_amount(r, take(value)),
        20 => rejection::with_order_qty(r, take(value)),
        21 => rejection::with_prevent_match(r, take(value)),
        22 => rejection::with_secondary_order_id(r, take(value)),
        23 => rejection::with_attributed_quote(r, take(value)),
        24 => rejection::with_ext_exec_inst(r, take(value)),
        25 => rejection::with_echo_text(r, take(value)),
        26 => rejection::with_stop_px(r, take(value)),
        27 => rejection::with_routing_inst(r, take(value)),
        28 => rejection::with_rout_strategy(r, take(value)),
        29 => rejection::with_route_delivery_method(r, take(value)),
        30 => rejection::with_ex_destination(r, take(value)),
        _ => r,
    }
}
