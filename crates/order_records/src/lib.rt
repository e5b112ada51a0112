// A record as bytes, for callers that have numbers and byte buffers only: RECORD of them, every part at a place of its own.
#![tactic(auto)]

ghost use Rattle.std.specs.Prelude.{◌≡◌, ◌∷◌, ◌++◌, ◌+◌, ◌-◌, ◌≤◌, length};
ghost use Rattle.numbers.specs.Numbers.{bytes_of, patched};
ghost use Rattle.order_records.specs.Records.{record_bytes, record_at, load_of, store_refusal, store_buffer};
ghost use Rattle.block.specs.Sizes.{fixed_size, layout_size, record_size, most_bitfields};
ghost use Rattle.refusals.specs.Outcomes.{outcome, outcome_with};

use orders::Record;
use refusals::{Reason, Refusal};

// The bitfields, and the layout after them, into the front of a lent tail.
fn put_fields(bits: &[u8], slots: &[u8], tail: &mut [u8])
    requires { (length bits.now ≡ most_bitfields) × (length slots.now ≡ layout_size) × (most_bitfields + layout_size ≤ length tail.old) }
    ensures { tail.new ≡ patched tail.old 0 (bits.now ++ slots.now) }
{
    block::copy(bits, tail);
    block::copy_layout(slots, &mut tail[block::BITFIELDS..]);
}

// The count, the bitfields and the layout.
fn put_block(count: u8, bits: &[u8], slots: &[u8], tail: &mut [u8])
    requires { (length bits.now ≡ most_bitfields) × (length slots.now ≡ layout_size) × (1 + most_bitfields + layout_size ≤ length tail.old) }
    ensures { tail.new ≡ patched tail.old 0 (count ∷ (bits.now ++ slots.now)) }
{
    tail[0] = count;
    put_fields(bits, slots, &mut tail[1..]);
}

// The fixed part, and these after it.
fn put_body(fixed: &[u8], count: u8, bits: &[u8], slots: &[u8], tail: &mut [u8])
    requires { (length fixed.now ≡ fixed_size) × (length bits.now ≡ most_bitfields) × (length slots.now ≡ layout_size) × (record_size - 6 ≤ length tail.old) }
    ensures { tail.new ≡ patched tail.old 0 (fixed.now ++ (count ∷ (bits.now ++ slots.now))) }
{
    block::copy(fixed, tail);
    put_block(count, bits, slots, &mut tail[block::FIXED..]);
}

// The type, the unit and the number: the head of any record.
pub fn put_head(message: u8, unit: u8, number: u32, out: &mut [u8])
    requires { 6 ≤ length out.old }
    ensures { out.new ≡ patched out.old 0 (message ∷ unit ∷ bytes_of 4 number) }
{
    out[0] = message;
    out[1] = unit;
    let _ = numbers::write_u32(out, 2, number);
}

// The parts of a record into the front of a buffer that has room for it.
fn pack_parts(
    message: u8,
    unit: u8,
    number: u32,
    fixed: &[u8],
    count: u8,
    bits: &[u8],
    slots: &[u8],
    out: &mut [u8],
)
    requires { (length fixed.now ≡ fixed_size) × (length bits.now ≡ most_bitfields) × (length slots.now ≡ layout_size) × (record_size ≤ length out.old) }
    ensures { out.new ≡ patched out.old 0 (record_bytes (record { message = message; unit = unit; number = number; fixed = fixed.now; count = count; bits = bits.now; slots = slots.now })) }
{
    put_head(message, unit, number, out);
    put_body(fixed, count, bits, slots, &mut out[6..]);
}

// A record into the front of a buffer that has room for it.
fn pack(r: Record, out: &mut [u8])
    requires { record_size ≤ length out.old }
    ensures { out.new ≡ patched out.old 0 (record_bytes r) }
{
    let fixed = r.fixed;
    let bits = r.bits;
    let slots = r.slots;
    pack_parts(
        r.message, r.unit, r.number, &fixed, r.count, &bits, &slots, out,
    );
}

// The record of the first RECORD bytes.
fn unpack(s: &[u8]) -> Record
    requires { record_size ≤ length s.now }
    ensures { result ≡ record_at s.now }
{
    let mut fixed = [0u8; block::FIXED];
    block::copy(&s[6..block::COUNT_AT], &mut fixed);
    let mut bits = [0u8; block::BITFIELDS];
    block::copy(&s[block::BITS_AT..block::SLOTS_AT], &mut bits);
    let mut slots = [0u8; block::LAYOUT];
    block::copy(&s[block::SLOTS_AT..block::RECORD], &mut slots);
    Record {
        message: s[0],
        unit: s[1],
        number: numbers::read_u32(s, 2),
        fixed: fixed,
        count: s[block::COUNT_AT],
        bits: bits,
        slots: slots,
    }
}

// The record of the first RECORD of any bytes; or 13 where there are fewer.
pub fn load(s: &[u8]) -> Result<Record, Refusal>
    ensures { result ≡ outcome_with (load_of s.now).refusal (load_of s.now).order }
{
    if s.len() < block::RECORD {
        return Err(Refusal::new(Reason::NoRoom));
    }
    Ok(unpack(s))
}

// A record into the front of any buffer: Ok, and its bytes stand there; or 13 for a buffer under RECORD bytes, which is as it was.
pub fn store(r: Record, out: &mut [u8]) -> Result<(), Refusal>
    ensures { (result ≡ outcome (store_refusal (length out.old))) × (out.new ≡ store_buffer r out.old) }
{
    if out.len() < block::RECORD {
        return Err(Refusal::new(Reason::NoRoom));
    }
    pack(r, out);
    Ok(())
}
