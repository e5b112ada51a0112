// The fields of Login Response by name, in their order.
ghost use Rattle.std.specs.Prelude.{◌≡◌, [], ◌∷◌};
ghost use Rattle.numbers.specs.Numbers.{bytes_of};
ghost use Rattle.session_fields.specs.SessionFields.{number_of, outgoing_of, text_of, pair_of, setting_of};
ghost use Rattle.session_fields.specs.SessionFields.{response_groups, response_group, group_flag, group_pair, group_listed, group_bits};

use crate::{Bits, Pair};
use numbers::values::Value;
use session_messages::Record;
use table::{OutgoingNumber, Unit, UnitNumber};

// LoginResponseStatus.
pub fn status(r: Record) -> Option<[u8; 1]>
    ensures { result ≡ text_of 1 0x24 0 r }
{
    crate::value_of(r, 0x24, 0)
}

// LoginResponseText.
pub fn text(r: Record) -> Option<[u8; 60]>
    ensures { result ≡ text_of 60 0x24 1 r }
{
    crate::value_of(r, 0x24, 1)
}

// The flag: 0 or 1.
pub fn flag(r: Record) -> Option<u8>
    ensures { result ≡ number_of 1 0x24 61 r }
{
    crate::value_of(r, 0x24, 61)
}

// The last outgoing number that the venue received.
pub fn last_received(r: Record) -> Option<OutgoingNumber>
    ensures { result ≡ outgoing_of 0x24 62 r }
{
    crate::outgoing_of(r, 0x24, 62)
}

// The number of pairs.
pub fn unit_count(r: Record) -> Option<u8>
    ensures { result ≡ number_of 1 0x24 66 r }
{
    crate::value_of(r, 0x24, 66)
}

// Pair i, from 0: a unit and its last number, there where i is below the count and below 32.
pub fn pair(r: Record, i: u8) -> Option<Pair>
    ensures { result ≡ pair_of 0x24 66 i r }
{
    crate::pair_of(r, 0x24, 66, i)
}

// The number of groups.
pub fn group_count(r: Record) -> Option<u8>
    ensures { result ≡ response_groups r }
{
    crate::response_groups(r)
}

// The flag of the units' group.
pub fn group_flag(r: Record) -> Option<u8>
    ensures { result ≡ group_flag (response_group 0x80 0 r) r }
{
    crate::group_flag(r, crate::response_group(r, 0x80, 0))
}

// Pair i, from 0, of the units' group.
pub fn unit_pair(r: Record, i: u8) -> Option<Pair>
    ensures { result ≡ group_pair (response_group 0x80 0 r) i r }
{
    crate::group_pair(r, crate::response_group(r, 0x80, 0), i)
}

// The number of a unit that the units' group lists.
pub fn listed(r: Record, unit: Unit) -> Option<UnitNumber>
    ensures { result ≡ group_listed (response_group 0x80 0 r) unit.0 r }
{
    crate::group_listed(r, crate::response_group(r, 0x80, 0), unit)
}

// The bitfields of a message type.
pub fn bitfields(r: Record, message_type: u8) -> Option<Bits>
    ensures { result ≡ group_bits (response_group 0x81 message_type r) r }
{
    crate::group_bits(r, crate::response_group(r, 0x81, message_type))
}

// LoginResponseStatus set.
pub fn with_status(r: Record, value: [u8; 1]) -> Record
    ensures { result ≡ setting_of 0x24 0 value r }
{
    crate::set_bytes(r, 0x24, 0, &value)
}

// LoginResponseText set.
pub fn with_text(r: Record, value: [u8; 60]) -> Record
    ensures { result ≡ setting_of 0x24 1 value r }
{
    crate::set_bytes(r, 0x24, 1, &value)
}

// The flag set.
pub fn with_flag(r: Record, value: u8) -> Record
    ensures { result ≡ setting_of 0x24 61 (value ∷ []) r }
{
    crate::set_bytes(r, 0x24, 61, &[value])
}

// The last outgoing number that the venue received set.
pub fn with_last_received(r: Record, value: OutgoingNumber) -> Record
    ensures { result ≡ setting_of 0x24 62 (bytes_of 4 value.0) r }
{
    crate::set_bytes(r, 0x24, 62, &value.0.bytes())
}
