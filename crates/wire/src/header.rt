// The header's parts, read from the front of a message and written into the front of a lent tail.
ghost use Rattle.std.specs.Prelude.{◌≡◌};
ghost use Rattle.numbers.specs.Numbers.{put_refusal, put_buffer};
ghost use Rattle.wire.specs.Header.{header_bytes, length_of, type_of, unit_of, number_of, total_of};
ghost use Rattle.refusals.specs.Outcomes.{outcome};

use refusals::{Reason, Refusal};

// The length field.
pub(crate) fn length_of(m: &[u8]) -> u16
    ensures { result ≡ length_of m.now }
{
    numbers::read_u16(m, 2)
}

// The message's bytes in all.
pub(crate) fn total_of(m: &[u8]) -> usize
    ensures { result ≡ total_of m.now }
{
    let n = length_of(m);
    (n as usize) + 2
}

// The type byte.
pub fn type_of(m: &[u8]) -> u8
    ensures { result ≡ type_of m.now }
{
    numbers::byte_at(m, 4)
}

// The unit byte.
pub fn unit_of(m: &[u8]) -> u8
    ensures { result ≡ unit_of m.now }
{
    numbers::byte_at(m, 5)
}

// The sequence number.
pub fn number_of(m: &[u8]) -> u32
    ensures { result ≡ number_of m.now }
{
    numbers::read_u32(m, 6)
}

// A header into the front of a lent tail: Ok, or 13 where the tail is shorter than ten bytes, which then keeps its bytes.
pub fn write_header(
    tail: &mut [u8],
    length: u16,
    type_byte: u8,
    unit: u8,
    number: u32,
) -> Result<(), Refusal>
    ensures { (result ≡ outcome (put_refusal tail.old 0 (header_bytes length type_byte unit number))) × (tail.new ≡ put_buffer tail.old 0 (header_bytes length type_byte unit number)) }
{
    if tail.len() < 10 {
        return Err(Refusal::new(Reason::NoRoom));
    }
    let l = length.to_le_bytes();
    let n = number.to_le_bytes();
    let header = [
        0xBA, 0xBA, l[0], l[1], type_byte, unit, n[0], n[1], n[2], n[3],
    ];
    tail[..10].copy_from_slice(&header);
    Ok(())
}
