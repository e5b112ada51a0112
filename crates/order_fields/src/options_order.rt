// The fields of the options New Order by name: the fixed part, and then the optional fields in the order of byte and bit.
ghost use Rattle.std.specs.Prelude.{◌≡◌};
ghost use Rattle.order_fields.specs.Named.{number_of, price_of, text_of, number_fixed, text_fixed, setting_of, fixing_of};
ghost use Rattle.numbers.specs.Numbers.{bytes_of};
ghost use Rattle.numbers.specs.Prices.{bits_of};

use orders::Record;

// ClOrdID.
pub fn cl_ord_id(r: Record) -> Option<[u8; 20]>
    ensures { result ≡ text_fixed 20 0xB8 0 r }
{
    crate::reading::fixed(r, 0xB8, 0)
}

// Side.
pub fn side(r: Record) -> Option<[u8; 1]>
    ensures { result ≡ text_fixed 1 0xB8 20 r }
{
    crate::reading::fixed(r, 0xB8, 20)
}

// OrderQty.
pub fn order_qty(r: Record) -> Option<u32>
    ensures { result ≡ number_fixed 4 0xB8 21 r }
{
    crate::reading::fixed(r, 0xB8, 21)
}

// ClearingFirm: byte 1, bit 1.
pub fn clearing_firm(r: Record) -> Option<[u8; 4]>
    ensures { result ≡ text_of 4 0xB8 1 0 r }
{
    crate::reading::optional(r, 0xB8, 1, 0)
}

// ClearingAccount: byte 1, bit 2.
pub fn clearing_account(r: Record) -> Option<[u8; 4]>
    ensures { result ≡ text_of 4 0xB8 1 1 r }
{
    crate::reading::optional(r, 0xB8, 1, 1)
}

// Price: byte 1, bit 4.
pub fn price(r: Record) -> Option<i64>
    ensures { result ≡ price_of 0xB8 1 2 r }
{
    crate::reading::optional(r, 0xB8, 1, 2)
}

// ExecInst: byte 1, bit 8.
pub fn exec_inst(r: Record) -> Option<[u8; 1]>
    ensures { result ≡ text_of 1 0xB8 1 3 r }
{
    crate::reading::optional(r, 0xB8, 1, 3)
}

// OrdType: byte 1, bit 16.
pub fn ord_type(r: Record) -> Option<[u8; 1]>
    ensures { result ≡ text_of 1 0xB8 1 4 r }
{
    crate::reading::optional(r, 0xB8, 1, 4)
}

// TimeInForce: byte 1, bit 32.
pub fn time_in_force(r: Record) -> Option<[u8; 1]>
    ensures { result ≡ text_of 1 0xB8 1 5 r }
{
    crate::reading::optional(r, 0xB8, 1, 5)
}

// MinQty: byte 1, bit 64.
pub fn min_qty(r: Record) -> Option<u32>
    ensures { result ≡ number_of 4 0xB8 1 6 r }
{
    crate::reading::optional(r, 0xB8, 1, 6)
}

// MaxFloor: byte 1, bit 128.
pub fn max_floor(r: Record) -> Option<u32>
    ensures { result ≡ number_of 4 0xB8 1 7 r }
{
    crate::reading::optional(r, 0xB8, 1, 7)
}

// Symbol: byte 2, bit 1.
pub fn symbol(r: Record) -> Option<[u8; 8]>
    ensures { result ≡ text_of 8 0xB8 2 0 r }
{
    crate::reading::optional(r, 0xB8, 2, 0)
}

// Capacity: byte 2, bit 64.
pub fn capacity(r: Record) -> Option<[u8; 1]>
    ensures { result ≡ text_of 1 0xB8 2 6 r }
{
    crate::reading::optional(r, 0xB8, 2, 6)
}

// RoutingInst: byte 2, bit 128.
pub fn routing_inst(r: Record) -> Option<[u8; 4]>
    ensures { result ≡ text_of 4 0xB8 2 7 r }
{
    crate::reading::optional(r, 0xB8, 2, 7)
}

// Account: byte 3, bit 1.
pub fn account(r: Record) -> Option<[u8; 16]>
    ensures { result ≡ text_of 16 0xB8 3 0 r }
{
    crate::reading::optional(r, 0xB8, 3, 0)
}

// MaturityDate, a day as YYYYMMDD: byte 4, bit 1.
pub fn maturity_date(r: Record) -> Option<u32>
    ensures { result ≡ number_of 4 0xB8 4 0 r }
{
    crate::reading::optional(r, 0xB8, 4, 0)
}

// StrikePrice: byte 4, bit 2.
pub fn strike_price(r: Record) -> Option<i64>
    ensures { result ≡ price_of 0xB8 4 1 r }
{
    crate::reading::optional(r, 0xB8, 4, 1)
}

// PutOrCall: byte 4, bit 4.
pub fn put_or_call(r: Record) -> Option<[u8; 1]>
    ensures { result ≡ text_of 1 0xB8 4 2 r }
{
    crate::reading::optional(r, 0xB8, 4, 2)
}

// OpenClose: byte 4, bit 16.
pub fn open_close(r: Record) -> Option<[u8; 1]>
    ensures { result ≡ text_of 1 0xB8 4 4 r }
{
    crate::reading::optional(r, 0xB8, 4, 4)
}

// The record with ClOrdID set.
pub fn with_cl_ord_id(r: Record, value: [u8; 20]) -> Record
    ensures { result ≡ fixing_of 0xB8 0 value r }
{
    crate::set_fixed(r, 0xB8, 0, value)
}

// The record with Side set.
pub fn with_side(r: Record, value: [u8; 1]) -> Record
    ensures { result ≡ fixing_of 0xB8 20 value r }
{
    crate::set_fixed(r, 0xB8, 20, value)
}

// The record with OrderQty set.
pub fn with_order_qty(r: Record, value: u32) -> Record
    ensures { result ≡ fixing_of 0xB8 21 (bytes_of 4 value) r }
{
    crate::set_fixed(r, 0xB8, 21, value)
}

// The record with ClearingFirm selected and set.
pub fn with_clearing_firm(r: Record, value: [u8; 4]) -> Record
    ensures { result ≡ setting_of 0xB8 1 0 value r }
{
    crate::set_optional(r, 0xB8, 1, 0, value)
}

// The record with ClearingAccount selected and set.
pub fn with_clearing_account(r: Record, value: [u8; 4]) -> Record
    ensures { result ≡ setting_of 0xB8 1 1 value r }
{
    crate::set_optional(r, 0xB8, 1, 1, value)
}

// The record with Price selected and set.
pub fn with_price(r: Record, value: i64) -> Record
    ensures { result ≡ setting_of 0xB8 1 2 (bytes_of 8 (bits_of value)) r }
{
    crate::set_optional(r, 0xB8, 1, 2, value)
}

// The record with ExecInst selected and set.
pub fn with_exec_inst(r: Record, value: [u8; 1]) -> Record
    ensures { result ≡ setting_of 0xB8 1 3 value r }
{
    crate::set_optional(r, 0xB8, 1, 3, value)
}

// The record with OrdType selected and set.
pub fn with_ord_type(r: Record, value: [u8; 1]) -> Record
    ensures { result ≡ setting_of 0xB8 1 4 value r }
{
    crate::set_optional(r, 0xB8, 1, 4, value)
}

// The record with TimeInForce selected and set.
pub fn with_time_in_force(r: Record, value: [u8; 1]) -> Record
    ensures { result ≡ setting_of 0xB8 1 5 value r }
{
    crate::set_optional(r, 0xB8, 1, 5, value)
}

// The record with MinQty selected and set.
pub fn with_min_qty(r: Record, value: u32) -> Record
    ensures { result ≡ setting_of 0xB8 1 6 (bytes_of 4 value) r }
{
    crate::set_optional(r, 0xB8, 1, 6, value)
}

// The record with MaxFloor selected and set.
pub fn with_max_floor(r: Record, value: u32) -> Record
    ensures { result ≡ setting_of 0xB8 1 7 (bytes_of 4 value) r }
{
    crate::set_optional(r, 0xB8, 1, 7, value)
}

// The record with Symbol selected and set.
pub fn with_symbol(r: Record, value: [u8; 8]) -> Record
    ensures { result ≡ setting_of 0xB8 2 0 value r }
{
    crate::set_optional(r, 0xB8, 2, 0, value)
}

// The record with Capacity selected and set.
pub fn with_capacity(r: Record, value: [u8; 1]) -> Record
    ensures { result ≡ setting_of 0xB8 2 6 value r }
{
    crate::set_optional(r, 0xB8, 2, 6, value)
}

// The record with RoutingInst selected and set.
pub fn with_routing_inst(r: Record, value: [u8; 4]) -> Record
    ensures { result ≡ setting_of 0xB8 2 7 value r }
{
    crate::set_optional(r, 0xB8, 2, 7, value)
}

// The record with Account selected and set.
pub fn with_account(r: Record, value: [u8; 16]) -> Record
    ensures { result ≡ setting_of 0xB8 3 0 value r }
{
    crate::set_optional(r, 0xB8, 3, 0, value)
}

// The record with MaturityDate selected and set.
pub fn with_maturity_date(r: Record, value: u32) -> Record
    ensures { result ≡ setting_of 0xB8 4 0 (bytes_of 4 value) r }
{
    crate::set_optional(r, 0xB8, 4, 0, value)
}

// The record with StrikePrice selected and set.
pub fn with_strike_price(r: Record, value: i64) -> Record
    ensures { result ≡ setting_of 0xB8 4 1 (bytes_of 8 (bits_of value)) r }
{
    crate::set_optional(r, 0xB8, 4, 1, value)
}

// The record with PutOrCall selected and set.
pub fn with_put_or_call(r: Record, value: [u8; 1]) -> Record
    ensures { result ≡ setting_of 0xB8 4 2 value r }
{
    crate::set_optional(r, 0xB8, 4, 2, value)
}

// The record with OpenClose selected and set.
pub fn with_open_close(r: Record, value: [u8; 1]) -> Record
    ensures { result ≡ setting_of 0xB8 4 4 value r }
{
    crate::set_optional(r, 0xB8, 4, 4, value)
}
