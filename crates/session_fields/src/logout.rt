// The fields of Logout by name, in their order.
ghost use Rattle.std.specs.Prelude.{◌≡◌};
ghost use Rattle.numbers.specs.Numbers.{bytes_of};
ghost use Rattle.session_fields.specs.SessionFields.{number_of, outgoing_of, text_of, pair_of, setting_of};

use crate::Pair;
use numbers::values::Value;
use session_messages::Record;
use table::OutgoingNumber;

// LogoutReason.
pub fn reason(r: Record) -> Option<[u8; 1]>
    ensures { result ≡ text_of 1 0x08 0 r }
{
    crate::value_of(r, 0x08, 0)
}

// LogoutReasonText.
pub fn text(r: Record) -> Option<[u8; 60]>
    ensures { result ≡ text_of 60 0x08 1 r }
{
    crate::value_of(r, 0x08, 1)
}

// The last outgoing number that the venue received.
pub fn last_received(r: Record) -> Option<OutgoingNumber>
    ensures { result ≡ outgoing_of 0x08 61 r }
{
    crate::outgoing_of(r, 0x08, 61)
}

// The number of pairs.
pub fn unit_count(r: Record) -> Option<u8>
    ensures { result ≡ number_of 1 0x08 65 r }
{
    crate::value_of(r, 0x08, 65)
}

// Pair i, from 0: a unit and its last number, there where i is below the count and below 32.
pub fn pair(r: Record, i: u8) -> Option<Pair>
    ensures { result ≡ pair_of 0x08 65 i r }
{
    crate::pair_of(r, 0x08, 65, i)
}

// LogoutReason set.
pub fn with_reason(r: Record, value: [u8; 1]) -> Record
    ensures { result ≡ setting_of 0x08 0 value r }
{
    crate::set_bytes(r, 0x08, 0, &value)
}

// LogoutReasonText set.
pub fn with_text(r: Record, value: [u8; 60]) -> Record
    ensures { result ≡ setting_of 0x08 1 value r }
{
    crate::set_bytes(r, 0x08, 1, &value)
}

// The last outgoing number that the venue received set.
pub fn with_last_received(r: Record, value: OutgoingNumber) -> Record
    ensures { result ≡ setting_of 0x08 61 (bytes_of 4 value.0) r }
{
    crate::set_bytes(r, 0x08, 61, &value.0.bytes())
}
