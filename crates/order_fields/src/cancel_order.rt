// The fields of Cancel Order by name: the fixed part, and then the optional fields in the order of byte and bit.
ghost use Rattle.std.specs.Prelude.{◌≡◌};
ghost use Rattle.order_fields.specs.Named.{text_of, text_fixed, setting_of, fixing_of};

use orders::Record;

// OrigClOrdID.
pub fn orig_cl_ord_id(r: Record) -> Option<[u8; 20]>
    ensures { result ≡ text_fixed 20 0x39 0 r }
{
    crate::reading::fixed(r, 0x39, 0)
}

// ClearingFirm: byte 1, bit 1.
pub fn clearing_firm(r: Record) -> Option<[u8; 4]>
    ensures { result ≡ text_of 4 0x39 1 0 r }
{
    crate::reading::optional(r, 0x39, 1, 0)
}

// The record with OrigClOrdID set.
pub fn with_orig_cl_ord_id(r: Record, value: [u8; 20]) -> Record
    ensures { result ≡ fixing_of 0x39 0 value r }
{
    crate::set_fixed(r, 0x39, 0, value)
}

// The record with ClearingFirm selected and set.
pub fn with_clearing_firm(r: Record, value: [u8; 4]) -> Record
    ensures { result ≡ setting_of 0x39 1 0 value r }
{
    crate::set_optional(r, 0x39, 1, 0, value)
}
