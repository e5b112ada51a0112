// The fields of Order Execution by their numbers, which they have in their order, from 0.
use crate::values::{give, take};
use order_fields::execution;
use orders::Record;

// A field's value into the front of a buffer of zeros, where it is selected.
pub fn get(field: u32, r: Record, value: &mut [u8]) -> bool {
    match field {
        0 => give(execution::transaction_time(r), value),
        1 => give(execution::cl_ord_id(r), value),
        2 => give(execution::exec_id(r), value),
        3 => give(execution::last_shares(r), value),
        4 => give(execution::last_px(r), value),
        5 => give(execution::leaves_qty(r), value),
        6 => give(execution::base_liquidity_indicator(r), value),
        7 => give(execution::sub_liquidity_indicator(r), value),
        8 => give(execution::contra_broker(r), value),
        9 => give(execution::side(r), value),
        10 => give(execution::price(r), value),
        11 => give(execution::exec_inst(r), value),
        12 => give(execution::ord_type(r), value),
        13 => give(execution::time_in_force(r), value),
        14 => give(execution::min_qty(r), value),
        15 => give(execution::symbol(r), value),
        16 => give(execution::symbol_sfx(r), value),
        17 => give(execution::capacity(r), value),
        18 => give(execution::account(r), value),
        19 => give(execution::clearing_firm(r), value),
        20 => give(execution::clearing_account(r), value),
        21 => give(execution::max_floor(r), value),
        22 => give(execution::order_qty(r), value),
        _ => false,
    }
}

// The record with a field set.
pub fn set(field: u32, value: [u8; 64], r: Record) -> Record {
    match field {
        0 => execution::with_transaction_time(r, take(value)),
        1 => execution::with_cl_ord_id(r, take(value)),
        2 => execution::with_exec_id(r, take(value)),
        3 => execution::with_last_shares(r, take(value)),
        4 => execution::with_last_px(r, take(value)),
        5 => execution::with_leaves_qty(r, take(value)),
        6 => execution::with_base_liquidity_indicator(r, take(value)),
        7 => execution::with_sub_liquidity_indicator(r, take(value)),
        8 => execution::with_contra_broker(r, take(value)),
        9 => execution::with_side(r, take(value)),
        10 => execution::with_price(r, take(value)),
        11 => execution::with_exec_inst(r, take(value)),
        12 => execution::with_ord_type(r, take(value)),
        13 => execution::with_time_in_force(r, take(value)),
        14 => execution::with_min_qty(r, take(value)),
        15 => execution::with_symbol(r, take(value)),
        16 => execution::with_symbol_sfx(r, take(value)),
        17 => execution::with_capacity(r, take(value)),
        18 => execution::with_account(r, take(value)),
        19 => execution::with_clearing_firm(r, take(value)),
        20 => execution::with_clearing_account(r, take(value)),
        21 => execution::with_max_floor(r, take(value)),
        22 => execution::with_order_qty(r, take(value)),
        _ => r,
    }
}
