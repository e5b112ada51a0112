// The fields of Order Execution by name: the fixed part, and then the optional fields in the order of byte and bit.
ghost use Rattle.std.specs.Prelude.{◌≡◌};
ghost use Rattle.order_fields.specs.Named.{number_of, price_of, text_of, number_fixed, price_fixed, text_fixed, setting_of, fixing_of};
ghost use Rattle.numbers.specs.Numbers.{bytes_of};
ghost use Rattle.numbers.specs.Prices.{bits_of};

use orders::Record;

// TransactionTime.
pub fn transaction_time(r: Record) -> Option<u64>
    ensures { result ≡ number_fixed 8 0x2C 0 r }
{
    crate::reading::fixed(r, 0x2C, 0)
}

// ClOrdID.
pub fn cl_ord_id(r: Record) -> Option<[u8; 20]>
    ensures { result ≡ text_fixed 20 0x2C 8 r }
{
    crate::reading::fixed(r, 0x2C, 8)
}

// ExecID.
pub fn exec_id(r: Record) -> Option<u64>
    ensures { result ≡ number_fixed 8 0x2C 28 r }
{
    crate::reading::fixed(r, 0x2C, 28)
}

// LastShares.
pub fn last_shares(r: Record) -> Option<u32>
    ensures { result ≡ number_fixed 4 0x2C 36 r }
{
    crate::reading::fixed(r, 0x2C, 36)
}

// LastPx.
pub fn last_px(r: Record) -> Option<i64>
    ensures { result ≡ price_fixed 0x2C 40 r }
{
    crate::reading::fixed(r, 0x2C, 40)
}

// LeavesQty.
pub fn leaves_qty(r: Record) -> Option<u32>
    ensures { result ≡ number_fixed 4 0x2C 48 r }
{
    crate::reading::fixed(r, 0x2C, 48)
}

// BaseLiquidityIndicator.
pub fn base_liquidity_indicator(r: Record) -> Option<[u8; 1]>
    ensures { result ≡ text_fixed 1 0x2C 52 r }
{
    crate::reading::fixed(r, 0x2C, 52)
}

// SubLiquidityIndicator.
pub fn sub_liquidity_indicator(r: Record) -> Option<[u8; 1]>
    ensures { result ≡ text_fixed 1 0x2C 53 r }
{
    crate::reading::fixed(r, 0x2C, 53)
}

// ContraBroker.
pub fn contra_broker(r: Record) -> Option<[u8; 4]>
    ensures { result ≡ text_fixed 4 0x2C 54 r }
{
    crate::reading::fixed(r, 0x2C, 54)
}

// Side: byte 1, bit 1.
pub fn side(r: Record) -> Option<[u8; 1]>
    ensures { result ≡ text_of 1 0x2C 1 0 r }
{
    crate::reading::optional(r, 0x2C, 1, 0)
}

// Price: byte 1, bit 4.
pub fn price(r: Record) -> Option<i64>
    ensures { result ≡ price_of 0x2C 1 2 r }
{
    crate::reading::optional(r, 0x2C, 1, 2)
}

// ExecInst: byte 1, bit 8.
pub fn exec_inst(r: Record) -> Option<[u8; 1]>
    ensures { result ≡ text_of 1 0x2C 1 3 r }
{
    crate::reading::optional(r, 0x2C, 1, 3)
}

// OrdType: byte 1, bit 16.
pub fn ord_type(r: Record) -> Option<[u8; 1]>
    ensures { result ≡ text_of 1 0x2C 1 4 r }
{
    crate::reading::optional(r, 0x2C, 1, 4)
}

// TimeInForce: byte 1, bit 32.
pub fn time_in_force(r: Record) -> Option<[u8; 1]>
    ensures { result ≡ text_of 1 0x2C 1 5 r }
{
    crate::reading::optional(r, 0x2C, 1, 5)
}

// MinQty: byte 1, bit 64.
pub fn min_qty(r: Record) -> Option<u32>
    ensures { result ≡ number_of 4 0x2C 1 6 r }
{
    crate::reading::optional(r, 0x2C, 1, 6)
}

// Symbol: byte 2, bit 1.
pub fn symbol(r: Record) -> Option<[u8; 8]>
    ensures { result ≡ text_of 8 0x2C 2 0 r }
{
    crate::reading::optional(r, 0x2C, 2, 0)
}

// SymbolSfx: byte 2, bit 2.
pub fn symbol_sfx(r: Record) -> Option<[u8; 8]>
    ensures { result ≡ text_of 8 0x2C 2 1 r }
{
    crate::reading::optional(r, 0x2C, 2, 1)
}

// Capacity: byte 2, bit 64.
pub fn capacity(r: Record) -> Option<[u8; 1]>
    ensures { result ≡ text_of 1 0x2C 2 6 r }
{
    crate::reading::optional(r, 0x2C, 2, 6)
}

// Account: byte 3, bit 1.
pub fn account(r: Record) -> Option<[u8; 16]>
    ensures { result ≡ text_of 16 0x2C 3 0 r }
{
    crate::reading::optional(r, 0x2C, 3, 0)
}

// ClearingFirm: byte 3, bit 2.
pub fn clearing_firm(r: Record) -> Option<[u8; 4]>
    ensures { result ≡ text_of 4 0x2C 3 1 r }
{
    crate::reading::optional(r, 0x2C, 3, 1)
}

// ClearingAccount: byte 3, bit 4.
pub fn clearing_account(r: Record) -> Option<[u8; 4]>
    ensures { result ≡ text_of 4 0x2C 3 2 r }
{
    crate::reading::optional(r, 0x2C, 3, 2)
}

// MaxFloor: byte 3, bit 16.
pub fn max_floor(r: Record) -> Option<u32>
    ensures { result ≡ number_of 4 0x2C 3 4 r }
{
    crate::reading::optional(r, 0x2C, 3, 4)
}

// OrderQty: byte 3, bit 64.
pub fn order_qty(r: Record) -> Option<u32>
    ensures { result ≡ number_of 4 0x2C 3 6 r }
{
    crate::reading::optional(r, 0x2C, 3, 6)
}

// The record with TransactionTime set.
pub fn with_transaction_time(r: Record, value: u64) -> Record
    ensures { result ≡ fixing_of 0x2C 0 (bytes_of 8 value) r }
{
    crate::set_fixed(r, 0x2C, 0, value)
}

// The record with ClOrdID set.
pub fn with_cl_ord_id(r: Record, value: [u8; 20]) -> Record
    ensures { result ≡ fixing_of 0x2C 8 value r }
{
    crate::set_fixed(r, 0x2C, 8, value)
}

// The record with ExecID set.
pub fn with_exec_id(r: Record, value: u64) -> Record
    ensures { result ≡ fixing_of 0x2C 28 (bytes_of 8 value) r }
{
    crate::set_fixed(r, 0x2C, 28, value)
}

// The record with LastShares set.
pub fn with_last_shares(r: Record, value: u32) -> Record
    ensures { result ≡ fixing_of 0x2C 36 (bytes_of 4 value) r }
{
    crate::set_fixed(r, 0x2C, 36, value)
}

// The record with LastPx set.
pub fn with_last_px(r: Record, value: i64) -> Record
    ensures { result ≡ fixing_of 0x2C 40 (bytes_of 8 (bits_of value)) r }
{
    crate::set_fixed(r, 0x2C, 40, value)
}

// The record with LeavesQty set.
pub fn with_leaves_qty(r: Record, value: u32) -> Record
    ensures { result ≡ fixing_of 0x2C 48 (bytes_of 4 value) r }
{
    crate::set_fixed(r, 0x2C, 48, value)
}

// The record with BaseLiquidityIndicator set.
pub fn with_base_liquidity_indicator(r: Record, value: [u8; 1]) -> Record
    ensures { result ≡ fixing_of 0x2C 52 value r }
{
    crate::set_fixed(r, 0x2C, 52, value)
}

// The record with SubLiquidityIndicator set.
pub fn with_sub_liquidity_indicator(r: Record, value: [u8; 1]) -> Record
    ensures { result ≡ fixing_of 0x2C 53 value r }
{
    crate::set_fixed(r, 0x2C, 53, value)
}

// The record with ContraBroker set.
pub fn with_contra_broker(r: Record, value: [u8; 4]) -> Record
    ensures { result ≡ fixing_of 0x2C 54 value r }
{
    crate::set_fixed(r, 0x2C, 54, value)
}

// The record with Side selected and set.
pub fn with_side(r: Record, value: [u8; 1]) -> Record
    ensures { result ≡ setting_of 0x2C 1 0 value r }
{
    crate::set_optional(r, 0x2C, 1, 0, value)
}

// The record with Price selected and set.
pub fn with_price(r: Record, value: i64) -> Record
    ensures { result ≡ setting_of 0x2C 1 2 (bytes_of 8 (bits_of value)) r }
{
    crate::set_optional(r, 0x2C, 1, 2, value)
}

// The record with ExecInst selected and set.
pub fn with_exec_inst(r: Record, value: [u8; 1]) -> Record
    ensures { result ≡ setting_of 0x2C 1 3 value r }
{
    crate::set_optional(r, 0x2C, 1, 3, value)
}

// The record with OrdType selected and set.
pub fn with_ord_type(r: Record, value: [u8; 1]) -> Record
    ensures { result ≡ setting_of 0x2C 1 4 value r }
{
    crate::set_optional(r, 0x2C, 1, 4, value)
}

// The record with TimeInForce selected and set.
pub fn with_time_in_force(r: Record, value: [u8; 1]) -> Record
    ensures { result ≡ setting_of 0x2C 1 5 value r }
{
    crate::set_optional(r, 0x2C, 1, 5, value)
}

// The record with MinQty selected and set.
pub fn with_min_qty(r: Record, value: u32) -> Record
    ensures { result ≡ setting_of 0x2C 1 6 (bytes_of 4 value) r }
{
    crate::set_optional(r, 0x2C, 1, 6, value)
}

// The record with Symbol selected and set.
pub fn with_symbol(r: Record, value: [u8; 8]) -> Record
    ensures { result ≡ setting_of 0x2C 2 0 value r }
{
    crate::set_optional(r, 0x2C, 2, 0, value)
}

// The record with SymbolSfx selected and set.
pub fn with_symbol_sfx(r: Record, value: [u8; 8]) -> Record
    ensures { result ≡ setting_of 0x2C 2 1 value r }
{
    crate::set_optional(r, 0x2C, 2, 1, value)
}

// The record with Capacity selected and set.
pub fn with_capacity(r: Record, value: [u8; 1]) -> Record
    ensures { result ≡ setting_of 0x2C 2 6 value r }
{
    crate::set_optional(r, 0x2C, 2, 6, value)
}

// The record with Account selected and set.
pub fn with_account(r: Record, value: [u8; 16]) -> Record
    ensures { result ≡ setting_of 0x2C 3 0 value r }
{
    crate::set_optional(r, 0x2C, 3, 0, value)
}

// The record with ClearingFirm selected and set.
pub fn with_clearing_firm(r: Record, value: [u8; 4]) -> Record
    ensures { result ≡ setting_of 0x2C 3 1 value r }
{
    crate::set_optional(r, 0x2C, 3, 1, value)
}

// The record with ClearingAccount selected and set.
pub fn with_clearing_account(r: Record, value: [u8; 4]) -> Record
    ensures { result ≡ setting_of 0x2C 3 2 value r }
{
    crate::set_optional(r, 0x2C, 3, 2, value)
}

// The record with MaxFloor selected and set.
pub fn with_max_floor(r: Record, value: u32) -> Record
    ensures { result ≡ setting_of 0x2C 3 4 (bytes_of 4 value) r }
{
    crate::set_optional(r, 0x2C, 3, 4, value)
}

// The record with OrderQty selected and set.
pub fn with_order_qty(r: Record, value: u32) -> Record
    ensures { result ≡ setting_of 0x2C 3 6 (bytes_of 4 value) r }
{
    crate::set_optional(r, 0x2C, 3, 6, value)
}
