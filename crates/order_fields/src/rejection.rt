// The fields of Order Rejected by name: the fixed part, and then the optional fields in the order of byte and bit.
ghost use Rattle.std.specs.Prelude.{◌≡◌};
ghost use Rattle.order_fields.specs.Named.{number_of, price_of, text_of, number_fixed, text_fixed, setting_of, fixing_of};
ghost use Rattle.numbers.specs.Numbers.{bytes_of};
ghost use Rattle.numbers.specs.Prices.{bits_of};

use orders::Record;

// TransactionTime.
pub fn transaction_time(r: Record) -> Option<u64>
    ensures { result ≡ number_fixed 8 0x26 0 r }
{
    crate::reading::fixed(r, 0x26, 0)
}

// ClOrdID.
pub fn cl_ord_id(r: Record) -> Option<[u8; 20]>
    ensures { result ≡ text_fixed 20 0x26 8 r }
{
    crate::reading::fixed(r, 0x26, 8)
}

// OrderRejectReason.
pub fn order_reject_reason(r: Record) -> Option<[u8; 1]>
    ensures { result ≡ text_fixed 1 0x26 28 r }
{
    crate::reading::fixed(r, 0x26, 28)
}

// Text.
pub fn text(r: Record) -> Option<[u8; 60]>
    ensures { result ≡ text_fixed 60 0x26 29 r }
{
    crate::reading::fixed(r, 0x26, 29)
}

// Side: byte 1, bit 1.
pub fn side(r: Record) -> Option<[u8; 1]>
    ensures { result ≡ text_of 1 0x26 1 0 r }
{
    crate::reading::optional(r, 0x26, 1, 0)
}

// PegDifference: byte 1, bit 2.
pub fn peg_difference(r: Record) -> Option<i64>
    ensures { result ≡ price_of 0x26 1 1 r }
{
    crate::reading::optional(r, 0x26, 1, 1)
}

// Price: byte 1, bit 4.
pub fn price(r: Record) -> Option<i64>
    ensures { result ≡ price_of 0x26 1 2 r }
{
    crate::reading::optional(r, 0x26, 1, 2)
}

// ExecInst: byte 1, bit 8.
pub fn exec_inst(r: Record) -> Option<[u8; 1]>
    ensures { result ≡ text_of 1 0x26 1 3 r }
{
    crate::reading::optional(r, 0x26, 1, 3)
}

// OrdType: byte 1, bit 16.
pub fn ord_type(r: Record) -> Option<[u8; 1]>
    ensures { result ≡ text_of 1 0x26 1 4 r }
{
    crate::reading::optional(r, 0x26, 1, 4)
}

// TimeInForce: byte 1, bit 32.
pub fn time_in_force(r: Record) -> Option<[u8; 1]>
    ensures { result ≡ text_of 1 0x26 1 5 r }
{
    crate::reading::optional(r, 0x26, 1, 5)
}

// MinQty: byte 1, bit 64.
pub fn min_qty(r: Record) -> Option<u32>
    ensures { result ≡ number_of 4 0x26 1 6 r }
{
    crate::reading::optional(r, 0x26, 1, 6)
}

// Symbol: byte 2, bit 1.
pub fn symbol(r: Record) -> Option<[u8; 8]>
    ensures { result ≡ text_of 8 0x26 2 0 r }
{
    crate::reading::optional(r, 0x26, 2, 0)
}

// SymbolSfx: byte 2, bit 2.
pub fn symbol_sfx(r: Record) -> Option<[u8; 8]>
    ensures { result ≡ text_of 8 0x26 2 1 r }
{
    crate::reading::optional(r, 0x26, 2, 1)
}

// Capacity: byte 2, bit 64.
pub fn capacity(r: Record) -> Option<[u8; 1]>
    ensures { result ≡ text_of 1 0x26 2 6 r }
{
    crate::reading::optional(r, 0x26, 2, 6)
}

// Account: byte 3, bit 1.
pub fn account(r: Record) -> Option<[u8; 16]>
    ensures { result ≡ text_of 16 0x26 3 0 r }
{
    crate::reading::optional(r, 0x26, 3, 0)
}

// ClearingFirm: byte 3, bit 2.
pub fn clearing_firm(r: Record) -> Option<[u8; 4]>
    ensures { result ≡ text_of 4 0x26 3 1 r }
{
    crate::reading::optional(r, 0x26, 3, 1)
}

// ClearingAccount: byte 3, bit 4.
pub fn clearing_account(r: Record) -> Option<[u8; 4]>
    ensures { result ≡ text_of 4 0x26 3 2 r }
{
    crate::reading::optional(r, 0x26, 3, 2)
}

// DisplayIndicator: byte 3, bit 8.
pub fn display_indicator(r: Record) -> Option<[u8; 1]>
    ensures { result ≡ text_of 1 0x26 3 3 r }
{
    crate::reading::optional(r, 0x26, 3, 3)
}

// MaxFloor: byte 3, bit 16.
pub fn max_floor(r: Record) -> Option<u32>
    ensures { result ≡ number_of 4 0x26 3 4 r }
{
    crate::reading::optional(r, 0x26, 3, 4)
}

// DiscretionAmount: byte 3, bit 32.
pub fn discretion_amount(r: Record) -> Option<u16>
    ensures { result ≡ number_of 2 0x26 3 5 r }
{
    crate::reading::optional(r, 0x26, 3, 5)
}

// OrderQty: byte 3, bit 64.
pub fn order_qty(r: Record) -> Option<u32>
    ensures { result ≡ number_of 4 0x26 3 6 r }
{
    crate::reading::optional(r, 0x26, 3, 6)
}

// PreventMatch: byte 3, bit 128.
pub fn prevent_match(r: Record) -> Option<[u8; 3]>
    ensures { result ≡ text_of 3 0x26 3 7 r }
{
    crate::reading::optional(r, 0x26, 3, 7)
}

// SecondaryOrderID: byte 6, bit 1.
pub fn secondary_order_id(r: Record) -> Option<u64>
    ensures { result ≡ number_of 8 0x26 6 0 r }
{
    crate::reading::optional(r, 0x26, 6, 0)
}

// AttributedQuote: byte 6, bit 8.
pub fn attributed_quote(r: Record) -> Option<[u8; 1]>
    ensures { result ≡ text_of 1 0x26 6 3 r }
{
    crate::reading::optional(r, 0x26, 6, 3)
}

// ExtExecInst: byte 6, bit 16.
pub fn ext_exec_inst(r: Record) -> Option<[u8; 1]>
    ensures { result ≡ text_of 1 0x26 6 4 r }
{
    crate::reading::optional(r, 0x26, 6, 4)
}

// EchoText: byte 8, bit 2.
pub fn echo_text(r: Record) -> Option<[u8; 64]>
    ensures { result ≡ text_of 64 0x26 8 1 r }
{
    crate::reading::optional(r, 0x26, 8, 1)
}

// StopPx: byte 8, bit 4.
pub fn stop_px(r: Record) -> Option<i64>
    ensures { result ≡ price_of 0x26 8 2 r }
{
    crate::reading::optional(r, 0x26, 8, 2)
}

// RoutingInst: byte 8, bit 8.
pub fn routing_inst(r: Record) -> Option<[u8; 4]>
    ensures { result ≡ text_of 4 0x26 8 3 r }
{
    crate::reading::optional(r, 0x26, 8, 3)
}

// RoutStrategy: byte 8, bit 16.
pub fn rout_strategy(r: Record) -> Option<[u8; 6]>
    ensures { result ≡ text_of 6 0x26 8 4 r }
{
    crate::reading::optional(r, 0x26, 8, 4)
}

// RouteDeliveryMethod: byte 8, bit 32.
pub fn route_delivery_method(r: Record) -> Option<[u8; 3]>
    ensures { result ≡ text_of 3 0x26 8 5 r }
{
    crate::reading::optional(r, 0x26, 8, 5)
}

// ExDestination: byte 8, bit 64.
pub fn ex_destination(r: Record) -> Option<[u8; 1]>
    ensures { result ≡ text_of 1 0x26 8 6 r }
{
    crate::reading::optional(r, 0x26, 8, 6)
}

// The record with TransactionTime set.
pub fn with_transaction_time(r: Record, value: u64) -> Record
    ensures { result ≡ fixing_of 0x26 0 (bytes_of 8 value) r }
{
    crate::set_fixed(r, 0x26, 0, value)
}

// The record with ClOrdID set.
pub fn with_cl_ord_id(r: Record, value: [u8; 20]) -> Record
    ensures { result ≡ fixing_of 0x26 8 value r }
{
    crate::set_fixed(r, 0x26, 8, value)
}

// The record with OrderRejectReason set.
pub fn with_order_reject_reason(r: Record, value: [u8; 1]) -> Record
    ensures { result ≡ fixing_of 0x26 28 value r }
{
    crate::set_fixed(r, 0x26, 28, value)
}

// The record with Text set.
pub fn with_text(r: Record, value: [u8; 60]) -> Record
    ensures { result ≡ fixing_of 0x26 29 value r }
{
    crate::set_fixed(r, 0x26, 29, value)
}

// The record with Side selected and set.
pub fn with_side(r: Record, value: [u8; 1]) -> Record
    ensures { result ≡ setting_of 0x26 1 0 value r }
{
    crate::set_optional(r, 0x26, 1, 0, value)
}

// The record with PegDifference selected and set.
pub fn with_peg_difference(r: Record, value: i64) -> Record
    ensures { result ≡ setting_of 0x26 1 1 (bytes_of 8 (bits_of value)) r }
{
    crate::set_optional(r, 0x26, 1, 1, value)
}

// The record with Price selected and set.
pub fn with_price(r: Record, value: i64) -> Record
    ensures { result ≡ setting_of 0x26 1 2 (bytes_of 8 (bits_of value)) r }
{
    crate::set_optional(r, 0x26, 1, 2, value)
}

// The record with ExecInst selected and set.
pub fn with_exec_inst(r: Record, value: [u8; 1]) -> Record
    ensures { result ≡ setting_of 0x26 1 3 value r }
{
    crate::set_optional(r, 0x26, 1, 3, value)
}

// The record with OrdType selected and set.
pub fn with_ord_type(r: Record, value: [u8; 1]) -> Record
    ensures { result ≡ setting_of 0x26 1 4 value r }
{
    crate::set_optional(r, 0x26, 1, 4, value)
}

// The record with TimeInForce selected and set.
pub fn with_time_in_force(r: Record, value: [u8; 1]) -> Record
    ensures { result ≡ setting_of 0x26 1 5 value r }
{
    crate::set_optional(r, 0x26, 1, 5, value)
}

// The record with MinQty selected and set.
pub fn with_min_qty(r: Record, value: u32) -> Record
    ensures { result ≡ setting_of 0x26 1 6 (bytes_of 4 value) r }
{
    crate::set_optional(r, 0x26, 1, 6, value)
}

// The record with Symbol selected and set.
pub fn with_symbol(r: Record, value: [u8; 8]) -> Record
    ensures { result ≡ setting_of 0x26 2 0 value r }
{
    crate::set_optional(r, 0x26, 2, 0, value)
}

// The record with SymbolSfx selected and set.
pub fn with_symbol_sfx(r: Record, value: [u8; 8]) -> Record
    ensures { result ≡ setting_of 0x26 2 1 value r }
{
    crate::set_optional(r, 0x26, 2, 1, value)
}

// The record with Capacity selected and set.
pub fn with_capacity(r: Record, value: [u8; 1]) -> Record
    ensures { result ≡ setting_of 0x26 2 6 value r }
{
    crate::set_optional(r, 0x26, 2, 6, value)
}

// The record with Account selected and set.
pub fn with_account(r: Record, value: [u8; 16]) -> Record
    ensures { result ≡ setting_of 0x26 3 0 value r }
{
    crate::set_optional(r, 0x26, 3, 0, value)
}

// The record with ClearingFirm selected and set.
pub fn with_clearing_firm(r: Record, value: [u8; 4]) -> Record
    ensures { result ≡ setting_of 0x26 3 1 value r }
{
    crate::set_optional(r, 0x26, 3, 1, value)
}

// The record with ClearingAccount selected and set.
pub fn with_clearing_account(r: Record, value: [u8; 4]) -> Record
    ensures { result ≡ setting_of 0x26 3 2 value r }
{
    crate::set_optional(r, 0x26, 3, 2, value)
}

// The record with DisplayIndicator selected and set.
pub fn with_display_indicator(r: Record, value: [u8; 1]) -> Record
    ensures { result ≡ setting_of 0x26 3 3 value r }
{
    crate::set_optional(r, 0x26, 3, 3, value)
}

// The record with MaxFloor selected and set.
pub fn with_max_floor(r: Record, value: u32) -> Record
    ensures { result ≡ setting_of 0x26 3 4 (bytes_of 4 value) r }
{
    crate::set_optional(r, 0x26, 3, 4, value)
}

// The record with DiscretionAmount selected and set.
pub fn with_discretion_amount(r: Record, value: u16) -> Record
    ensures { result ≡ setting_of 0x26 3 5 (bytes_of 2 value) r }
{
    crate::set_optional(r, 0x26, 3, 5, value)
}

// The record with OrderQty selected and set.
pub fn with_order_qty(r: Record, value: u32) -> Record
    ensures { result ≡ setting_of 0x26 3 6 (bytes_of 4 value) r }
{
    crate::set_optional(r, 0x26, 3, 6, value)
}

// The record with PreventMatch selected and set.
pub fn with_prevent_match(r: Record, value: [u8; 3]) -> Record
    ensures { result ≡ setting_of 0x26 3 7 value r }
{
    crate::set_optional(r, 0x26, 3, 7, value)
}

// The record with SecondaryOrderID selected and set.
pub fn with_secondary_order_id(r: Record, value: u64) -> Record
    ensures { result ≡ setting_of 0x26 6 0 (bytes_of 8 value) r }
{
    crate::set_optional(r, 0x26, 6, 0, value)
}

// The record with AttributedQuote selected and set.
pub fn with_attributed_quote(r: Record, value: [u8; 1]) -> Record
    ensures { result ≡ setting_of 0x26 6 3 value r }
{
    crate::set_optional(r, 0x26, 6, 3, value)
}

// The record with ExtExecInst selected and set.
pub fn with_ext_exec_inst(r: Record, value: [u8; 1]) -> Record
    ensures { result ≡ setting_of 0x26 6 4 value r }
{
    crate::set_optional(r, 0x26, 6, 4, value)
}

// The record with EchoText selected and set.
pub fn with_echo_text(r: Record, value: [u8; 64]) -> Record
    ensures { result ≡ setting_of 0x26 8 1 value r }
{
    crate::set_optional(r, 0x26, 8, 1, value)
}

// The record with StopPx selected and set.
pub fn with_stop_px(r: Record, value: i64) -> Record
    ensures { result ≡ setting_of 0x26 8 2 (bytes_of 8 (bits_of value)) r }
{
    crate::set_optional(r, 0x26, 8, 2, value)
}

// The record with RoutingInst selected and set.
pub fn with_routing_inst(r: Record, value: [u8; 4]) -> Record
    ensures { result ≡ setting_of 0x26 8 3 value r }
{
    crate::set_optional(r, 0x26, 8, 3, value)
}

// The record with RoutStrategy selected and set.
pub fn with_rout_strategy(r: Record, value: [u8; 6]) -> Record
    ensures { result ≡ setting_of 0x26 8 4 value r }
{
    crate::set_optional(r, 0x26, 8, 4, value)
}

// The record with RouteDeliveryMethod selected and set.
pub fn with_route_delivery_method(r: Record, value: [u8; 3]) -> Record
    ensures { result ≡ setting_of 0x26 8 5 value r }
{
    crate::set_optional(r, 0x26, 8, 5, value)
}

// The record with ExDestination selected and set.
pub fn with_ex_destination(r: Record, value: [u8; 1]) -> Record
    ensures { result ≡ setting_of 0x26 8 6 value r }
{
    crate::set_optional(r, 0x26, 8, 6, value)
}
