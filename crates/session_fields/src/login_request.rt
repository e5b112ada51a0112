// The fields of Login Request by name, in their order.
ghost use Rattle.std.specs.Prelude.{◌≡◌};
ghost use Rattle.session_fields.specs.SessionFields.{number_of, text_of, setting_of};
ghost use Rattle.session_fields.specs.SessionFields.{request_group, group_flag, group_pair, group_listed, group_bits};

use crate::{Bits, Pair};
use session_messages::Record;
use table::{Unit, UnitNumber};

// SessionSubID.
pub fn session_sub_id(r: Record) -> Option<[u8; 4]>
    ensures { result ≡ text_of 4 0x37 0 r }
{
    crate::value_of(r, 0x37, 0)
}

// Username.
pub fn username(r: Record) -> Option<[u8; 4]>
    ensures { result ≡ text_of 4 0x37 4 r }
{
    crate::value_of(r, 0x37, 4)
}

// Password.
pub fn password(r: Record) -> Option<[u8; 10]>
    ensures { result ≡ text_of 10 0x37 8 r }
{
    crate::value_of(r, 0x37, 8)
}

// The number of groups.
pub fn group_count(r: Record) -> Option<u8>
    ensures { result ≡ number_of 1 0x37 18 r }
{
    crate::value_of(r, 0x37, 18)
}

// The flag of the units' group.
pub fn flag(r: Record) -> Option<u8>
    ensures { result ≡ group_flag (request_group 0x80 0 r) r }
{
    crate::group_flag(r, crate::request_group(r, 0x80, 0))
}

// Pair i, from 0, of the units' group.
pub fn unit_pair(r: Record, i: u8) -> Option<Pair>
    ensures { result ≡ group_pair (request_group 0x80 0 r) i r }
{
    crate::group_pair(r, crate::request_group(r, 0x80, 0), i)
}

// The number of a unit that the units' group lists.
pub fn listed(r: Record, unit: Unit) -> Option<UnitNumber>
    ensures { result ≡ group_listed (request_group 0x80 0 r) unit.0 r }
{
    crate::group_listed(r, crate::request_group(r, 0x80, 0), unit)
}

// The bitfields of a message type.
pub fn bitfields(r: Record, message_type: u8) -> Option<Bits>
    ensures { result ≡ group_bits (request_group 0x81 message_type r) r }
{
    crate::group_bits(r, crate::request_group(r, 0x81, message_type))
}

// SessionSubID set.
pub fn with_session_sub_id(r: Record, value: [u8; 4]) -> Record
    ensures { result ≡ setting_of 0x37 0 value r }
{
    crate::set_bytes(r, 0x37, 0, &value)
}

// Username set.
pub fn with_username(r: Record, value: [u8; 4]) -> Record
    ensures { result ≡ setting_of 0x37 4 value r }
{
    crate::set_bytes(r, 0x37, 4, &value)
}

// Password set.
pub fn with_password(r: Record, value: [u8; 10]) -> Record
    ensures { result ≡ setting_of 0x37 8 value r }
{
    crate::set_bytes(r, 0x37, 8, &value)
}
