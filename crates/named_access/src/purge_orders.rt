// The fields of Purge Orders by their numbers, which they have in their order, from 0.
use crate::values::{give, take};
use order_fields::purge_orders;
use orders::Record;

// A field's value into the front of a buffer of zeros, where it is selected.
pub fn get(field: u32, id: u8, r: Record, value: &mut [u8]) -> bool {
    match field {
        0 => give(purge_orders::risk_group_id_cnt(r), value),
        1 => give(purge_orders::risk_group_id(r, id), value),
        2 => give(purge_orders::clearing_firm(r), value),
        3 => give(purge_orders::mass_cancel_inst(r), value),
        4 => give(purge_orders::mass_cancel_id(r), value),
        5 => give(purge_orders::symbol(r), value),
        6 => give(purge_orders::symbol_sfx(r), value),
        7 => give(purge_orders::matching_unit(r), value),
        _ => false,
    }
}

// The record with a field set.
pub fn set(field: u32, id: u8, value: [u8; 64], r: Record) -> Record {
    match field {
        0 => purge_orders::with_risk_group_id_cnt(r, take(value)),
        1 => purge_orders::with_risk_group_id(r, id, take(value)),
        2 => purge_orders::with_clearing_firm(r, take(value)),
        3 => purge_orders::with_mass_cancel_inst(r, take(value)),
        4 => purge_orders::with_mass_cancel_id(r, take(value)),
        5 => purge_orders::with_symbol(r, take(value)),
        6 => purge_orders::with_symbol_sfx(r, take(value)),
        7 => purge_orders::with_matching_unit(r, take(value)),
        _ => r,
    }
}
