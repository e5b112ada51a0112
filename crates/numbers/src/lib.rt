// Little-endian numbers of 2, 4 and 8 bytes, read and written at a place of a buffer, prices over them, and what a field of N bytes holds as one value.
//
// Every public function takes any buffer and any place. Reading counts bytes past the end as zero; writing answers Ok, or 13 where the buffer is too
// short, and then stores nothing.
#![tactic(auto)]

pub mod prices;
pub mod values;

ghost use Rattle.std.specs.Prelude.{◌≡◌, ◌+◌, ◌<◌, get_or};
ghost use Rattle.numbers.specs.Numbers.{number_at, bytes_of, put_refusal, put_buffer};
ghost use Rattle.refusals.specs.Outcomes.{outcome};

use refusals::{Reason, Refusal};

// The byte at a place, 0 past the end.
pub fn byte_at(s: &[u8], at: usize) -> u8
    ensures { result ≡ get_or s.now at 0 }
{
    if at < s.len() { s[at] } else { 0 }
}

// The number of the two bytes from a place on.
pub fn read_u16(s: &[u8], at: usize) -> u16
    ensures { result ≡ number_at 2 at s.now }
{
    if s.len() <= at {
        return 0;
    }
    if s.len() - at < 2 {
        return s[at] as u16;
    }
    u16::from_le_bytes([s[at], s[at + 1]])
}

// The number of the four bytes from a place on.
pub fn read_u32(s: &[u8], at: usize) -> u32
    ensures { result ≡ number_at 4 at s.now }
{
    if s.len() <= at {
        return 0;
    }
    if s.len() - at < 4 {
        return u32::from_le_bytes([s[at], byte_at(s, at + 1), byte_at(s, at + 2), 0]);
    }
    u32::from_le_bytes([s[at], s[at + 1], s[at + 2], s[at + 3]])
}

// The number of the eight bytes from a place on.
pub fn read_u64(s: &[u8], at: usize) -> u64
    ensures { result ≡ number_at 8 at s.now }
{
    if s.len() <= at {
        return 0;
    }
    if s.len() - at < 8 {
        return u64::from_le_bytes([
            s[at],
            byte_at(s, at + 1),
            byte_at(s, at + 2),
            byte_at(s, at + 3),
            byte_at(s, at + 4),
            byte_at(s, at + 5),
            byte_at(s, at + 6),
            0,
        ]);
    }
    u64::from_le_bytes([
        s[at],
        s[at + 1],
        s[at + 2],
        s[at + 3],
        s[at + 4],
        s[at + 5],
        s[at + 6],
        s[at + 7],
    ])
}

// Bytes into the front of a lent tail.
fn put_front<const N: usize>(tail: &mut [u8], bytes: [u8; N]) -> Result<(), Refusal>
    ensures { (result ≡ outcome (put_refusal tail.old 0 bytes.entry)) × (tail.new ≡ put_buffer tail.old 0 bytes.entry) }
{
    if tail.len() < N {
        return Err(Refusal::new(Reason::NoRoom));
    }
    tail[..N].copy_from_slice(&bytes);
    Ok(())
}

// Bytes written at a place: into the tail from there on.
fn put<const N: usize>(out: &mut [u8], at: usize, bytes: [u8; N]) -> Result<(), Refusal>
    ensures { (result ≡ outcome (put_refusal out.old at bytes.entry)) × (out.new ≡ put_buffer out.old at bytes.entry) }
{
    if out.len() < at {
        return Err(Refusal::new(Reason::NoRoom));
    }
    put_front(&mut out[at..], bytes)
}

// A number of two bytes written at a place.
pub fn write_u16(out: &mut [u8], at: usize, v: u16) -> Result<(), Refusal>
    ensures { (result ≡ outcome (put_refusal out.old at (bytes_of 2 v))) × (out.new ≡ put_buffer out.old at (bytes_of 2 v)) }
{
    put(out, at, v.to_le_bytes())
}

// A number of four bytes written at a place.
pub fn write_u32(out: &mut [u8], at: usize, v: u32) -> Result<(), Refusal>
    ensures { (result ≡ outcome (put_refusal out.old at (bytes_of 4 v))) × (out.new ≡ put_buffer out.old at (bytes_of 4 v)) }
{
    put(out, at, v.to_le_bytes())
}

// A number of eight bytes written at a place.
pub fn write_u64(out: &mut [u8], at: usize, v: u64) -> Result<(), Refusal>
    ensures { (result ≡ outcome (put_refusal out.old at (bytes_of 8 v))) × (out.new ≡ put_buffer out.old at (bytes_of 8 v)) }
{
    put(out, at, v.to_le_bytes())
}
