// The writer of a message with bitfields: from a record to the message's bytes in a lent buffer, or the refusal and its place.
#![tactic(auto)]

ghost use Rattle.std.specs.Prelude.{◌≡◌, true, ◌&&◌, ◌∷◌, ◌++◌, ◌+◌, ◌-◌, ◌≤◌, ◌<◌, length, take, drop};
ghost use Rattle.kinds.specs.Kinds.{all_nul};
ghost use Rattle.numbers.specs.Numbers.{patched};
ghost use Rattle.wire.specs.Header.{header_bytes};
ghost use Rattle.block.specs.Slots.{takes, sum};
ghost use Rattle.block.specs.Places.{slots_of};
ghost use Rattle.orders.specs.Shapes.{count_at};
ghost use Rattle.orders.specs.Markets.{wire_type};
ghost use Rattle.orders.specs.Middle.{middle_size, middle_good};
ghost use Rattle.orders.specs.Orders.{write_refusal, write_buffer};
ghost use Rattle.order_records.specs.Records.{record_at};
ghost use Rattle.order_writer.specs.Stages.{record_from, top_refusal, value_refusal, unused_zero, end_refusal, seen_refusal, after_bytes, field_bytes, rest_bytes};
ghost use Rattle.block.specs.Sizes.{fixed_size, layout_size, record_size, most_bitfields};
ghost use Rattle.refusals.specs.Outcomes.{outcome};

use block_write::Seen;
use refusals::{Reason, Refusal};

// 4, 5, 7. Places are those in the message that would be written.
fn check_top(message: u8, unit: u8, number: u32, count: u8) -> Result<(), Refusal>
    ensures { result ≡ outcome (top_refusal message unit number count) }
{
    if !orders::is_known(message) {
        return Err(Refusal::new(Reason::UnknownType));
    }
    if !orders::unit_good(message, unit, number) {
        return Err(Refusal::new(Reason::BadUnit));
    }
    if orders::most_of(message) < count {
        return Err(Refusal::at(Reason::TooManyBitfields, orders::count_at(message)));
    }
    Ok(())
}

// Whether two windows are blank.
fn two_blank(a: &[u8], b: &[u8]) -> bool
    ensures { result ≡ (all_nul a.now && all_nul b.now) }
{
    if !kinds::is_blank(a) {
        return false;
    }
    kinds::is_blank(b)
}

// Whether at most 32 bytes are blank, in a few steps: the first and the last sixteen, eight or four, which may overlap; fewer than four are read as
// one number.
fn blank_few(s: &[u8]) -> bool
    requires { length s.now ≤ 32 }
    ensures { result ≡ all_nul s.now }
{
    let n = s.len();
    if 16 <= n {
        let from = n - 16;
        return two_blank(&s[0..16], &s[from..n]);
    }
    if 8 <= n {
        let from = n - 8;
        return two_blank(&s[0..8], &s[from..n]);
    }
    if 4 <= n {
        let from = n - 4;
        return two_blank(&s[0..4], &s[from..n]);
    }
    numbers::read_u32(s, 0) == 0
}

// Whether the places of a fixed part after the middle of a Purge Orders are zero.
fn purge_blank(count: u8, bits: &[u8], fixed: &[u8]) -> bool
    requires { (length fixed.now ≡ fixed_size) × (middle_good 0x47 count bits.now (drop 1 fixed.now) ≡ true) }
    ensures { result ≡ all_nul (drop (middle_size 0x47 count bits.now (drop 1 fixed.now)) (drop 1 fixed.now)) }
{
    let from = 1 + orders::middle_size(0x47, count, bits, &fixed[1..]);
    kinds::is_blank(&fixed[from..])
}

// Whether the places of a fixed part that its message and its middle do not use are zero; where there is no middle in two windows that overlap, each of
// 16, 32 or 64 bytes: a few steps.
fn fixed_blank(message: u8, count: u8, bits: &[u8], fixed: &[u8]) -> bool
    requires { (length fixed.now ≡ fixed_size) × (middle_good message count bits.now (drop (count_at message - 10) fixed.now) ≡ true) }
    ensures { result ≡ all_nul (drop (middle_size message count bits.now (drop (count_at message - 10) fixed.now)) (drop (count_at message - 10) fixed.now)) }
{
    match message {
        0x38 | 0xB8 => two_blank(&fixed[25..89], &fixed[74..block::FIXED]),
        0x39 => two_blank(&fixed[20..84], &fixed[74..block::FIXED]),
        0x25 => two_blank(&fixed[37..69], &fixed[58..block::FIXED]),
        0x2C => two_blank(&fixed[59..75], &fixed[74..block::FIXED]),
        0x3A => two_blank(&fixed[40..72], &fixed[58..block::FIXED]),
        0x47 => purge_blank(count, bits, fixed),
        _ => true,
    }
}

// Whether the unused places of a record are zero, where `rest` is what is left of its layout without the selected fields, looked at in two windows that
// overlap: so no byte is looked at alone.
fn unused_zero(message: u8, count: u8, fixed: &[u8], bits: &[u8], rest: &[u8]) -> bool
    requires { (length fixed.now ≡ fixed_size) × (length bits.now ≡ most_bitfields) × (count ≤ most_bitfields) × (length rest.now ≡ layout_size) × (middle_good message count bits.now (drop (count_at message - 10) fixed.now) ≡ true) }
    ensures { result ≡ unused_zero message count fixed.now bits.now rest.now }
{
    if !fixed_blank(message, count, bits, fixed) {
        return false;
    }
    let k = count as usize;
    if !blank_few(&bits[k..]) {
        return false;
    }
    two_blank(&rest[0..160], &rest[159..block::LAYOUT])
}

// 10 at the first bad value, of the fixed part, of the middle, which `held` begins with, and of the selected fields, of which `wrong` is the first bad one,
// counted from 1; 0 where there is none.
fn check_values(
    message: u8,
    count: u8,
    fixed: &[u8],
    bits: &[u8],
    held: &[u8],
    wrong: usize,
) -> Result<(), Refusal>
    requires { (length fixed.now ≡ fixed_size) × (wrong ≤ 1000) }
    ensures { result ≡ outcome (value_refusal message count fixed.now bits.now held.now wrong) }
{
    orders::check_fixed(message, fixed)?;
    let last = orders::count_at(message) + (count as usize);
    if !orders::middle_good(message, count, bits, held) {
        return Err(Refusal::at(Reason::BadValue, last + 1));
    }
    if wrong != 0 {
        let size = orders::middle_size(message, count, bits, held);
        return Err(Refusal::at(Reason::BadValue, last + size + wrong));
    }
    Ok(())
}

// The late ones, and 12: what is judged once all values are good.
fn check_end(
    message: u8,
    count: u8,
    fixed: &[u8],
    bits: &[u8],
    slots: &[u8],
    rest: &[u8],
) -> Result<(), Refusal>
    requires { (length fixed.now ≡ fixed_size) × (length bits.now ≡ most_bitfields) × (count ≤ most_bitfields) × (length slots.now ≡ layout_size) × (length rest.now ≡ layout_size) × (middle_good message count bits.now (drop (count_at message - 10) fixed.now) ≡ true) }
    ensures { result ≡ outcome (end_refusal message count fixed.now bits.now slots.now rest.now) }
{
    orders::check_late(message, count, bits, slots)?;
    if !unused_zero(message, count, fixed, bits, rest) {
        return Err(Refusal::new(Reason::NotZero));
    }
    Ok(())
}

// 8, 9, 10, the late 9, 23, 12, by what was seen of the selected fields, the layout's fields and what is left of the layout without the selected ones.
fn check_seen(
    message: u8,
    count: u8,
    fixed: &[u8],
    bits: &[u8],
    slots: &[u8],
    rest: &[u8],
    s: Seen,
) -> Result<(), Refusal>
    requires { (length fixed.now ≡ fixed_size) × (length bits.now ≡ most_bitfields) × (count ≤ most_bitfields) × (s.bad ≤ 100) × (s.wrong ≤ 1000) × (length slots.now ≡ layout_size) × (length rest.now ≡ layout_size) }
    ensures { result ≡ outcome (seen_refusal message count fixed.now bits.now slots.now rest.now s) }
{
    let at = orders::count_at(message);
    if s.bad != 0 {
        return Err(Refusal::at(Reason::UnlistedBit, at + s.bad));
    }
    if !block::has_required(message, bits, count) {
        return Err(Refusal::at(Reason::NotSelected, at + (count as usize)));
    }
    let n = at - 10;
    check_values(message, count, fixed, bits, &fixed[n..], s.wrong)?;
    check_end(message, count, fixed, bits, slots, rest)
}

// The bytes of a message in all, by those of its selected fields.
fn size_of(message: u8, count: u8, fixed: &[u8], bits: &[u8], total: usize) -> usize
    requires { (length fixed.now ≡ fixed_size) × (total ≤ layout_size) }
    ensures { result ≡ count_at message + 1 + count + (middle_size message count bits.now (drop (count_at message - 10) fixed.now) + total) }
{
    let at = orders::count_at(message);
    let n = at - 10;
    let middle = orders::middle_size(message, count, bits, &fixed[n..]);
    at + 1 + (count as usize) + (middle + total)
}

// The middle, which `held` begins with, and the selected fields into the front of a lent tail.
fn put_after(message: u8, count: u8, bits: &[u8], held: &[u8], slots: &[u8], tail: &mut [u8])
    requires { (count ≤ most_bitfields) × (length slots.now ≡ layout_size) × (length bits.now ≡ most_bitfields) × (middle_size message count bits.now held.now ≤ length held.now) × (middle_size message count bits.now held.now + sum takes (slots_of message count bits.now) ≤ length tail.old) }
    ensures { tail.new ≡ patched tail.old 0 (after_bytes message count bits.now held.now slots.now) }
{
    let k = orders::middle_size(message, count, bits, held);
    block::copy_front(held, k, tail);
    block_write::give::give_all(message, bits, count, slots, tail, k);
}

// The bitfields, and these after them.
fn put_fields(message: u8, count: u8, bits: &[u8], held: &[u8], slots: &[u8], tail: &mut [u8])
    requires { (count ≤ most_bitfields) × (length slots.now ≡ layout_size) × (length bits.now ≡ most_bitfields) × (middle_size message count bits.now held.now ≤ length held.now) × (count + (middle_size message count bits.now held.now + sum takes (slots_of message count bits.now)) ≤ length tail.old) }
    ensures { tail.new ≡ patched tail.old 0 (field_bytes message count bits.now held.now slots.now) }
{
    let n = count as usize;
    block::copy_front(bits, n, tail);
    put_after(message, count, bits, held, slots, &mut tail[n..]);
}

// The count, and these after it.
fn put_count(message: u8, count: u8, bits: &[u8], held: &[u8], slots: &[u8], tail: &mut [u8])
    requires { (count ≤ most_bitfields) × (length slots.now ≡ layout_size) × (length bits.now ≡ most_bitfields) × (middle_size message count bits.now held.now ≤ length held.now) × (1 + (count + (middle_size message count bits.now held.now + sum takes (slots_of message count bits.now))) ≤ length tail.old) }
    ensures { tail.new ≡ patched tail.old 0 (count ∷ field_bytes message count bits.now held.now slots.now) }
{
    tail[0] = count;
    put_fields(message, count, bits, held, slots, &mut tail[1..]);
}

// The n bytes of a message's fixed part into the front of a lent tail.
fn put_part(message: u8, n: usize, fixed: &[u8], tail: &mut [u8])
    requires { (n ≡ count_at message - 10) × (length fixed.now ≡ fixed_size) × (count_at message - 10 ≤ length tail.old) }
    ensures { tail.new ≡ patched tail.old 0 (take (count_at message - 10) fixed.now) }
{
    block::move_field(&fixed[0..n], tail);
}

// The same, with an arm for each message: there the compiler knows how many bytes are moved.
fn put_fixed(message: u8, fixed: &[u8], tail: &mut [u8])
    requires { (length fixed.now ≡ fixed_size) × (count_at message - 10 ≤ length tail.old) }
    ensures { tail.new ≡ patched tail.old 0 (take (count_at message - 10) fixed.now) }
{
    match message {
        0x38 | 0xB8 => put_part(message, 25, fixed, tail),
        0x39 => put_part(message, 20, fixed, tail),
        0x25 => put_part(message, 37, fixed, tail),
        0x2C => put_part(message, 59, fixed, tail),
        0x3A => put_part(message, 40, fixed, tail),
        0x47 => put_part(message, 1, fixed, tail),
        _ => put_part(message, block::FIXED, fixed, tail),
    }
}

// The fixed part, and these after it.
fn put_rest(message: u8, count: u8, fixed: &[u8], bits: &[u8], slots: &[u8], tail: &mut [u8])
    requires { (count ≤ most_bitfields) × (length fixed.now ≡ fixed_size) × (length slots.now ≡ layout_size) × (length bits.now ≡ most_bitfields) × (middle_size message count bits.now (drop (count_at message - 10) fixed.now) ≤ length (drop (count_at message - 10) fixed.now)) × (count_at message - 10 + (1 + (count + (middle_size message count bits.now (drop (count_at message - 10) fixed.now) + sum takes (slots_of message count bits.now)))) ≤ length tail.old) }
    ensures { tail.new ≡ patched tail.old 0 (rest_bytes message count fixed.now bits.now slots.now) }
{
    let n = orders::count_at(message) - 10;
    put_fixed(message, fixed, tail);
    put_count(message, count, bits, &fixed[n..], slots, &mut tail[n..]);
}

// The header, with the type that the message has on the wire, and these after it: the whole message of `size` bytes.
fn put_order(
    message: u8,
    unit: u8,
    number: u32,
    fixed: &[u8],
    count: u8,
    bits: &[u8],
    slots: &[u8],
    size: usize,
    out: &mut [u8],
)
    requires { (count ≤ most_bitfields) × (length fixed.now ≡ fixed_size) × (length slots.now ≡ layout_size) × (length bits.now ≡ most_bitfields) × (middle_size message count bits.now (drop (count_at message - 10) fixed.now) ≤ length (drop (count_at message - 10) fixed.now)) × (size ≡ count_at message + 1 + count + (middle_size message count bits.now (drop (count_at message - 10) fixed.now) + sum takes (slots_of message count bits.now))) × (size ≤ length out.old) × (size ≤ 2048) }
    ensures { out.new ≡ patched out.old 0 (header_bytes (size - 2) (wire_type message) unit number ++ rest_bytes message count fixed.now bits.now slots.now) }
{
    let named = orders::wire_type(message);
    let _ = wire::header::write_header(out, (size - 2) as u16, named, unit, number);
    put_rest(message, count, fixed, bits, slots, &mut out[10..]);
}

// Writes the parts of a record.
fn write_parts(
    message: u8,
    unit: u8,
    number: u32,
    fixed: &[u8],
    count: u8,
    bits: &[u8],
    slots: &[u8],
    out: &mut [u8],
) -> Result<(), Refusal>
    requires { (length fixed.now ≡ fixed_size) × (length slots.now ≡ layout_size) × (length bits.now ≡ most_bitfields) }
    ensures { (result ≡ outcome (write_refusal (record_from message unit number fixed.now count bits.now slots.now) (length out.old))) × (out.new ≡ write_buffer (record_from message unit number fixed.now count bits.now slots.now) out.old) }
{
    check_top(message, unit, number, count)?;
    let mut rest = [0u8; block::LAYOUT];
    block::copy_layout(slots, &mut rest);
    let s = block_write::look_all(message, bits, count, &mut rest);
    check_seen(message, count, fixed, bits, slots, &rest, s)?;
    let size = size_of(message, count, fixed, bits, s.total);
    if out.len() < size {
        return Err(Refusal::new(Reason::NoRoom));
    }
    put_order(message, unit, number, fixed, count, bits, slots, size, out);
    Ok(())
}

// Writes a record, which is the first RECORD bytes given: Ok, and the buffer begins with the message's bytes and is otherwise as it was; or the
// refusal (4, 5, 7, 8, 9, 10, the late 9, 23, 12 or 13; 7 to 10 with the place in the message that would be written), and the buffer is as it was.
pub fn write_order(given: &[u8], out: &mut [u8]) -> Result<(), Refusal>
    requires { record_size ≤ length given.now }
    ensures { (result ≡ outcome (write_refusal (record_at given.now) (length out.old))) × (out.new ≡ write_buffer (record_at given.now) out.old) }
{
    let number = numbers::read_u32(&given[0..6], 2);
    write_parts(
        given[0],
        given[1],
        number,
        &given[6..block::COUNT_AT],
        given[block::COUNT_AT],
        &given[block::BITS_AT..block::SLOTS_AT],
        &given[block::SLOTS_AT..block::RECORD],
        out,
    )
}
