// The fields of Modify Order by name: the fixed part, and then the optional fields in the order of byte and bit.
ghost use Rattle.std.specs.Prelude.{◌≡◌};
ghost use Rattle.order_fields.specs.Named.{number_of, price_of, text_of, text_fixed, setting_of, fixing_of};
ghost use Rattle.numbers.specs.Numbers.{bytes_of};
ghost use Rattle.numbers.specs.Prices.{bits_of};

use orders::Record;

// ClOrdID.
pub fn cl_ord_id(r: Record) -> Option<[u8; 20]>
    ensures { result ≡ text_fixed 20 0x3A 0 r }
{
    crate::reading::fixed(r, 0x3A, 0)
}

// OrigClOrdID.
pub fn orig_cl_ord_id(r: Record) -> Option<[u8; 20]>
    ensures { result ≡ text_fixed 20 0x3A 20 r }
{
    crate::reading::fixed(r, 0x3A, 20)
}

// ClearingFirm: byte 1, bit 1.
pub fn clearing_firm(r: Record) -> Option<[u8; 4]>
    ensures { result ≡ text_of 4 0x3A 1 0 r }
{
    crate::reading::optional(r, 0x3A, 1, 0)
}

// OrderQty: byte 1, bit 4.
pub fn order_qty(r: Record) -> Option<u32>
    ensures { result ≡ number_of 4 0x3A 1 2 r }
{
    crate::reading::optional(r, 0x3A, 1, 2)
}

// Price: byte 1, bit 8.
pub fn price(r: Record) -> Option<i64>
    ensures { result ≡ price_of 0x3A 1 3 r }
{
    crate::reading::optional(r, 0x3A, 1, 3)
}

// OrdType: byte 1, bit 16.
pub fn ord_type(r: Record) -> Option<[u8; 1]>
    ensures { result ≡ text_of 1 0x3A 1 4 r }
{
    crate::reading::optional(r, 0x3A, 1, 4)
}

// CancelOrigOnReject: byte 1, bit 32.
pub fn cancel_orig_on_reject(r: Record) -> Option<[u8; 1]>
    ensures { result ≡ text_of 1 0x3A 1 5 r }
{
    crate::reading::optional(r, 0x3A, 1, 5)
}

// ExecInst: byte 1, bit 64.
pub fn exec_inst(r: Record) -> Option<[u8; 1]>
    ensures { result ≡ text_of 1 0x3A 1 6 r }
{
    crate::reading::optional(r, 0x3A, 1, 6)
}

// Side: byte 1, bit 128.
pub fn side(r: Record) -> Option<[u8; 1]>
    ensures { result ≡ text_of 1 0x3A 1 7 r }
{
    crate::reading::optional(r, 0x3A, 1, 7)
}

// MaxFloor: byte 2, bit 1.
pub fn max_floor(r: Record) -> Option<u32>
    ensures { result ≡ number_of 4 0x3A 2 0 r }
{
    crate::reading::optional(r, 0x3A, 2, 0)
}

// StopPx: byte 2, bit 2.
pub fn stop_px(r: Record) -> Option<i64>
    ensures { result ≡ price_of 0x3A 2 1 r }
{
    crate::reading::optional(r, 0x3A, 2, 1)
}

// LocateBroker: byte 2, bit 128.
pub fn locate_broker(r: Record) -> Option<[u8; 4]>
    ensures { result ≡ text_of 4 0x3A 2 7 r }
{
    crate::reading::optional(r, 0x3A, 2, 7)
}

// The record with ClOrdID set.
pub fn with_cl_ord_id(r: Record, value: [u8; 20]) -> Record
    ensures { result ≡ fixing_of 0x3A 0 value r }
{
    crate::set_fixed(r, 0x3A, 0, value)
}

// The record with OrigClOrdID set.
pub fn with_orig_cl_ord_id(r: Record, value: [u8; 20]) -> Record
    ensures { result ≡ fixing_of 0x3A 20 value r }
{
    crate::set_fixed(r, 0x3A, 20, value)
}

// The record with ClearingFirm selected and set.
pub fn with_clearing_firm(r: Record, value: [u8; 4]) -> Record
    ensures { result ≡ setting_of 0x3A 1 0 value r }
{
    crate::set_optional(r, 0x3A, 1, 0, value)
}

// The record with OrderQty selected and set.
pub fn with_order_qty(r: Record, value: u32) -> Record
    ensures { result ≡ setting_of 0x3A 1 2 (bytes_of 4 value) r }
{
    crate::set_optional(r, 0x3A, 1, 2, value)
}

// The record with Price selected and set.
pub fn with_price(r: Record, value: i64) -> Record
    ensures { result ≡ setting_of 0x3A 1 3 (bytes_of 8 (bits_of value)) r }
{
    crate::set_optional(r, 0x3A, 1, 3, value)
}

// The record with OrdType selected and set.
pub fn with_ord_type(r: Record, value: [u8; 1]) -> Record
    ensures { result ≡ setting_of 0x3A 1 4 value r }
{
    crate::set_optional(r, 0x3A, 1, 4, value)
}

// The record with CancelOrigOnReject selected and set.
pub fn with_cancel_orig_on_reject(r: Record, value: [u8; 1]) -> Record
    ensures { result ≡ setting_of 0x3A 1 5 value r }
{
    crate::set_optional(r, 0x3A, 1, 5, value)
}

// The record with ExecInst selected and set.
pub fn with_exec_inst(r: Record, value: [u8; 1]) -> Record
    ensures { result ≡ setting_of 0x3A 1 6 value r }
{
    crate::set_optional(r, 0x3A, 1, 6, value)
}

// The record with Side selected and set.
pub fn with_side(r: Record, value: [u8; 1]) -> Record
    ensures { result ≡ setting_of 0x3A 1 7 value r }
{
    crate::set_optional(r, 0x3A, 1, 7, value)
}

// The record with MaxFloor selected and set.
pub fn with_max_floor(r: Record, value: u32) -> Record
    ensures { result ≡ setting_of 0x3A 2 0 (bytes_of 4 value) r }
{
    crate::set_optional(r, 0x3A, 2, 0, value)
}

// The record with StopPx selected and set.
pub fn with_stop_px(r: Record, value: i64) -> Record
    ensures { result ≡ setting_of 0x3A 2 1 (bytes_of 8 (bits_of value)) r }
{
    crate::set_optional(r, 0x3A, 2, 1, value)
}

// The record with LocateBroker selected and set.
pub fn with_locate_broker(r: Record, value: [u8; 4]) -> Record
    ensures { result ≡ setting_of 0x3A 2 7 value r }
{
    crate::set_optional(r, 0x3A, 2, 7, value)
}
