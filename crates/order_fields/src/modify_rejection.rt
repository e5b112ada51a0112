// The fields of User Modify Rejected by name: the fixed part alone, as it lists no bits.
ghost use Rattle.std.specs.Prelude.{◌≡◌};
ghost use Rattle.order_fields.specs.Named.{number_fixed, text_fixed, fixing_of};
ghost use Rattle.numbers.specs.Numbers.{bytes_of};

use orders::Record;

// TransactionTime.
pub fn transaction_time(r: Record) -> Option<u64>
    ensures { result ≡ number_fixed 8 0x29 0 r }
{
    crate::reading::fixed(r, 0x29, 0)
}

// ClOrdID.
pub fn cl_ord_id(r: Record) -> Option<[u8; 20]>
    ensures { result ≡ text_fixed 20 0x29 8 r }
{
    crate::reading::fixed(r, 0x29, 8)
}

// ModifyRejectReason.
pub fn modify_reject_reason(r: Record) -> Option<[u8; 1]>
    ensures { result ≡ text_fixed 1 0x29 28 r }
{
    crate::reading::fixed(r, 0x29, 28)
}

// Text.
pub fn text(r: Record) -> Option<[u8; 60]>
    ensures { result ≡ text_fixed 60 0x29 29 r }
{
    crate::reading::fixed(r, 0x29, 29)
}

// The record with TransactionTime set.
pub fn with_transaction_time(r: Record, value: u64) -> Record
    ensures { result ≡ fixing_of 0x29 0 (bytes_of 8 value) r }
{
    crate::set_fixed(r, 0x29, 0, value)
}

// The record with ClOrdID set.
pub fn with_cl_ord_id(r: Record, value: [u8; 20]) -> Record
    ensures { result ≡ fixing_of 0x29 8 value r }
{
    crate::set_fixed(r, 0x29, 8, value)
}

// The record with ModifyRejectReason set.
pub fn with_modify_reject_reason(r: Record, value: [u8; 1]) -> Record
    ensures { result ≡ fixing_of 0x29 28 value r }
{
    crate::set_fixed(r, 0x29, 28, value)
}

// The record with Text set.
pub fn with_text(r: Record, value: [u8; 60]) -> Record
    ensures { result ≡ fixing_of 0x29 29 value r }
{
    crate::set_fixed(r, 0x29, 29, value)
}
