// The fields of Purge Orders by name: RiskGroupIDCnt and the RiskGroupIDs, which a record keeps in its fixed part after the reserved byte, and then
// the optional fields in the order of byte and bit.
ghost use Rattle.std.specs.Prelude.{◌≡◌};
ghost use Rattle.order_fields.specs.Named.{number_of, text_of, number_fixed, risk_group_count, has_risk_group, risk_group_of, setting_of, fixing_of, risk_group_setting};
ghost use Rattle.numbers.specs.Numbers.{bytes_of};

use orders::Record;

// RiskGroupIDCnt.
pub fn risk_group_id_cnt(r: Record) -> Option<u8>
    ensures { result ≡ number_fixed 1 0x47 1 r }
{
    crate::reading::fixed(r, 0x47, 1)
}

// How many RiskGroupIDs a record has: none in one of another type.
fn count_of(r: Record) -> u8
    ensures { result ≡ risk_group_count r }
{
    risk_group_id_cnt(r).unwrap_or(0)
}

// Whether a record has a RiskGroupID of this number, counted from 0: its count reaches it, and it is one of ten.
fn has_risk_group(r: Record, i: u8) -> bool
    ensures { result ≡ has_risk_group i r }
{
    i < 10 && i < count_of(r)
}

// A RiskGroupID by its number, counted from 0: where there is one of this number.
#[tactic(auto, unfolding(crate::specs::Named::risk_group_of))]
pub fn risk_group_id(r: Record, i: u8) -> Option<u16>
    ensures { result ≡ risk_group_of i r }
{
    if has_risk_group(r, i) {
        return crate::reading::fixed(r, 0x47, 2 + 2 * (i as usize));
    }
    None
}

// ClearingFirm: byte 1, bit 1.
pub fn clearing_firm(r: Record) -> Option<[u8; 4]>
    ensures { result ≡ text_of 4 0x47 1 0 r }
{
    crate::reading::optional(r, 0x47, 1, 0)
}

// MassCancelInst: byte 1, bit 4.
pub fn mass_cancel_inst(r: Record) -> Option<[u8; 16]>
    ensures { result ≡ text_of 16 0x47 1 2 r }
{
    crate::reading::optional(r, 0x47, 1, 2)
}

// MassCancelID: byte 1, bit 16.
pub fn mass_cancel_id(r: Record) -> Option<[u8; 20]>
    ensures { result ≡ text_of 20 0x47 1 4 r }
{
    crate::reading::optional(r, 0x47, 1, 4)
}

// Symbol: byte 2, bit 1.
pub fn symbol(r: Record) -> Option<[u8; 8]>
    ensures { result ≡ text_of 8 0x47 2 0 r }
{
    crate::reading::optional(r, 0x47, 2, 0)
}

// SymbolSfx: byte 2, bit 2.
pub fn symbol_sfx(r: Record) -> Option<[u8; 8]>
    ensures { result ≡ text_of 8 0x47 2 1 r }
{
    crate::reading::optional(r, 0x47, 2, 1)
}

// MatchingUnit: byte 2, bit 128.
pub fn matching_unit(r: Record) -> Option<u8>
    ensures { result ≡ number_of 1 0x47 2 7 r }
{
    crate::reading::optional(r, 0x47, 2, 7)
}

// The record with RiskGroupIDCnt set.
pub fn with_risk_group_id_cnt(r: Record, value: u8) -> Record
    ensures { result ≡ fixing_of 0x47 1 (bytes_of 1 value) r }
{
    crate::set_fixed(r, 0x47, 1, value)
}

// The record with a RiskGroupID set by its number, counted from 0, and RiskGroupIDCnt raised to have it where it was less. A number over 9 changes
// nothing.
pub fn with_risk_group_id(r: Record, i: u8, value: u16) -> Record
    ensures { result ≡ risk_group_setting i value r }
{
    if i < 10 {
        let count = count_of(r).max(i + 1);
        let o = crate::set_fixed(r, 0x47, 2 + 2 * (i as usize), value);
        return crate::set_fixed(o, 0x47, 1, count);
    }
    r
}

// The record with ClearingFirm selected and set.
pub fn with_clearing_firm(r: Record, value: [u8; 4]) -> Record
    ensures { result ≡ setting_of 0x47 1 0 value r }
{
    crate::set_optional(r, 0x47, 1, 0, value)
}

// The record with MassCancelInst selected and set.
pub fn with_mass_cancel_inst(r: Record, value: [u8; 16]) -> Record
    ensures { result ≡ setting_of 0x47 1 2 value r }
{
    crate::set_optional(r, 0x47, 1, 2, value)
}

// The record with MassCancelID selected and set.
pub fn with_mass_cancel_id(r: Record, value: [u8; 20]) -> Record
    ensures { result ≡ setting_of 0x47 1 4 value r }
{
    crate::set_optional(r, 0x47, 1, 4, value)
}

// The record with Symbol selected and set.
pub fn with_symbol(r: Record, value: [u8; 8]) -> Record
    ensures { result ≡ setting_of 0x47 2 0 value r }
{
    crate::set_optional(r, 0x47, 2, 0, value)
}

// The record with SymbolSfx selected and set.
pub fn with_symbol_sfx(r: Record, value: [u8; 8]) -> Record
    ensures { result ≡ setting_of 0x47 2 1 value r }
{
    crate::set_optional(r, 0x47, 2, 1, value)
}

// The record with MatchingUnit selected and set.
pub fn with_matching_unit(r: Record, value: u8) -> Record
    ensures { result ≡ setting_of 0x47 2 7 (bytes_of 1 value) r }
{
    crate::set_optional(r, 0x47, 2, 7, value)
}
