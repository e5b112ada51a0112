// The reader of a message with bitfields: from a whole message to its record, or the refusal and its place.
#![tactic(auto)]

ghost use Rattle.std.specs.Prelude.{◌≡◌, true, cond, ◌∷◌, ◌++◌, ◌+◌, ◌-◌, ◌≤◌, ltb, length, get_or, take, drop};
ghost use Rattle.numbers.specs.Numbers.{patched};
ghost use Rattle.wire.specs.Header.{total_of};
ghost use Rattle.block.specs.Slots.{zeros, takes, sum};
ghost use Rattle.block.specs.Places.{selected_at, has_required, slots_of};
ghost use Rattle.orders.specs.Shapes.{count_at};
ghost use Rattle.orders.specs.Markets.{typed};
ghost use Rattle.orders.specs.Middle.{middle_size};
ghost use Rattle.orders.specs.Late.{late_refusal};
ghost use Rattle.orders.specs.Orders.{head_refusal, body_refusal, layout_of, read_refusal};
ghost use Rattle.order_reader.specs.Stages.{count_refusal, type_head, value_refusal, judged_of, firm_width, kept_bytes, front_bytes, there_bytes, read_record};
ghost use Rattle.block.specs.Sizes.{fixed_end, fixed_size, layout_size, record_size, most_bitfields, slots_place};
ghost use Rattle.refusals.specs.Outcomes.{outcome};

use block_judge::Judged;
use refusals::{Reason, Refusal};

// 4; 5; 6 if the message ends before its count byte is whole; 7; 6 if the bitfields do not fit. Each type's numbers are literals.
fn check_head(m: &[u8], message: u8) -> Result<(), Refusal>
    requires { 5 ≤ length m.now }
    ensures { result ≡ outcome (head_refusal (typed message m.now)) }
{
    match message {
        0x38 => check_type(m, 0x38, 35, 10),
        0x39 => check_type(m, 0x39, 30, 2),
        0x25 => check_type(m, 0x25, 47, 15),
        0x2C => check_type(m, 0x2C, 69, 15),
        0x26 => check_type(m, 0x26, 100, 19),
        0x29 => check_type(m, 0x29, 100, 19),
        0x2B => check_type(m, 0x2B, 100, 19),
        0x3A => check_type(m, 0x3A, 50, 2),
        0x47 => check_type(m, 0x47, 11, 2),
        0xB8 => check_type(m, 0xB8, 35, 10),
        _ => Err(Refusal::new(Reason::UnknownType)),
    }
}

// The refusals after 4 of a message of a type, whose count stands at a place and which has at most so many bitfields.
fn check_type(m: &[u8], message: u8, at: usize, most: u8) -> Result<(), Refusal>
    requires { at ≤ fixed_end }
    ensures { result ≡ outcome (type_head message at most m.now) }
{
    let unit = wire::header::unit_of(m);
    let number = wire::header::number_of(m);
    if !orders::unit_good(message, unit, number) {
        return Err(Refusal::new(Reason::BadUnit));
    }
    check_count(m, at, most)
}

// Those after 5.
fn check_count(m: &[u8], at: usize, most: u8) -> Result<(), Refusal>
    requires { at ≤ fixed_end }
    ensures { result ≡ outcome (count_refusal at most m.now) }
{
    if m.len() <= at {
        return Err(wire::wrong_total(m));
    }
    let count = m[at];
    if most < count {
        return Err(Refusal::at(Reason::TooManyBitfields, at));
    }
    if m.len() - at - 1 < (count as usize) {
        return Err(wire::wrong_total(m));
    }
    Ok(())
}

// 10, by what is found in the middle of `size` bytes and in the optional fields: whether the middle is good, and the first bad optional field, counted from
// 1; 0 where there is none.
fn check_values(
    message: u8,
    count: u8,
    good: bool,
    size: usize,
    wrong: usize,
) -> Result<(), Refusal>
    requires { (size ≤ 1000) × (wrong ≤ 1000) }
    ensures { result ≡ outcome (value_refusal (count_at message + count) 0 good size wrong) }
{
    let last = orders::count_at(message) + (count as usize);
    if !good {
        return Err(Refusal::at(Reason::BadValue, last + 1));
    }
    if wrong != 0 {
        return Err(Refusal::at(Reason::BadValue, last + size + wrong));
    }
    Ok(())
}

// The refusals of the block of a message m, once its bytes are judged: 8, 9, 6, 10. `rest` is what follows the bitfields; the middle is its first `size`
// bytes. Where the count byte stands is asked where a refusal tells it.
fn check_judged(
    m: &[u8],
    message: u8,
    bits: &[u8],
    count: u8,
    t: Judged,
    size: usize,
    rest: &[u8],
) -> Result<(), Refusal>
    requires { (length bits.now ≡ count) × (count_at message ≤ length m.now) × (t.bad ≤ 100) × (t.at ≤ 1000) × (size ≤ 1000) × (size + t.at ≡ length rest.now → t.wrong ≤ 1000) }
    ensures { result ≡ outcome (judged_of (total_of m.now) message count bits.now (drop 10 m.now) t size rest.now) }
{
    if t.bad != 0 {
        let at = orders::count_at(message);
        return Err(Refusal::at(Reason::UnlistedBit, at + t.bad));
    }
    if !block::has_required(message, bits, count) {
        let last = orders::count_at(message) + (count as usize);
        return Err(Refusal::at(Reason::NotSelected, last));
    }
    if size + t.at != rest.len() {
        return Err(wire::wrong_total(m));
    }
    orders::check_fixed(message, &m[10..])?;
    let good = orders::middle_good(message, count, bits, rest);
    check_values(message, count, good, size, t.wrong)
}

// The width of ClearingFirm, which stands first of both messages that may be late, where it is selected.
fn firm_width(bits: &[u8], count: u8) -> usize
    requires { count ≤ length bits.now }
    ensures { result ≡ firm_width count bits.now }
{
    if block::is_selected(bits, count, 0) {
        return 4;
    }
    0
}

// The late refusal of a Modify Order: without Price, OrdType stands after ClearingFirm and OrderQty.
fn check_modify(bits: &[u8], count: u8, optional: &[u8]) -> Result<(), Refusal>
    requires { (count ≤ length bits.now) × (has_required 0x3A count bits.now ≡ true) × (sum takes (slots_of 0x3A count bits.now) ≡ length optional.now) }
    ensures { result ≡ outcome (late_refusal 0x3A count bits.now (layout_of 0x3A count bits.now optional.now)) }
{
    if block::is_selected(bits, count, 3) {
        return Ok(());
    }
    let at = firm_width(bits, count) + 4;
    orders::check_modify_late(count, bits, optional[at])
}

// MatchingUnit of a Purge Orders, the last of its fields; 0 where it is not selected.
fn last_unit(bits: &[u8], count: u8, optional: &[u8]) -> u8
    requires { (count ≤ length bits.now) × (sum takes (slots_of 0x47 count bits.now) ≡ length optional.now) }
    ensures { selected_at count bits.now 15 ≡ true → result ≡ get_or (layout_of 0x47 count bits.now optional.now) 56 0 }
{
    if block::is_selected(bits, count, 15) {
        return optional[optional.len() - 1];
    }
    0
}

// The late refusal of a Purge Orders: MassCancelInst stands after ClearingFirm.
fn check_purge(bits: &[u8], count: u8, optional: &[u8]) -> Result<(), Refusal>
    requires { (count ≤ length bits.now) × (has_required 0x47 count bits.now ≡ true) × (sum takes (slots_of 0x47 count bits.now) ≡ length optional.now) }
    ensures { result ≡ outcome (late_refusal 0x47 count bits.now (layout_of 0x47 count bits.now optional.now)) }
{
    let at = firm_width(bits, count);
    let unit = last_unit(bits, count, optional);
    orders::check_purge_late(
        count,
        bits,
        optional[at],
        optional[at + 1],
        optional[at + 2],
        unit,
    )
}

// The late refusal, by the optional fields where they stand. Nothing is stored.
fn check_late(message: u8, bits: &[u8], count: u8, optional: &[u8]) -> Result<(), Refusal>
    requires { (count ≤ length bits.now) × (has_required message count bits.now ≡ true) × (sum takes (slots_of message count bits.now) ≡ length optional.now) }
    ensures { result ≡ outcome (late_refusal message count bits.now (layout_of message count bits.now optional.now)) }
{
    match message {
        0x3A => check_modify(bits, count, optional),
        0x47 => check_purge(bits, count, optional),
        _ => Ok(()),
    }
}

// The refusal of a message m of which the bitfields, what follows them and the optional bytes, which follow the middle of `size` bytes, are lent where
// they stand.
fn check_parts(
    m: &[u8],
    message: u8,
    bits: &[u8],
    count: u8,
    size: usize,
    rest: &[u8],
    optional: &[u8],
) -> Result<(), Refusal>
    requires { (length bits.now ≡ count) × (count ≤ most_bitfields) × (count_at message ≤ length m.now) × (size ≡ middle_size message count bits.now rest.now) × (size ≤ 1000) × (optional.now ≡ drop size rest.now) }
    ensures { result ≡ outcome (body_refusal (total_of m.now) message count bits.now (drop 10 m.now) rest.now) }
{
    let t = block_judge::judge_all(message, bits, count, optional);
    check_judged(m, message, bits, count, t, size, rest)?;
    check_late(message, bits, count, optional)
}

// Where the optional bytes begin in what follows the bitfields: after the middle, or at the end where they are fewer bytes.
fn least(size: usize, have: usize) -> usize
    ensures { result ≡ cond (ltb have size) have size }
{
    if have < size {
        return have;
    }
    size
}

// The refusal of a message m of which the bitfields and what follows them are lent where they stand.
fn check_block(m: &[u8], message: u8, bits: &[u8], count: u8, rest: &[u8]) -> Result<(), Refusal>
    requires { (length bits.now ≡ count) × (count ≤ most_bitfields) × (count_at message ≤ length m.now) }
    ensures { result ≡ outcome (body_refusal (total_of m.now) message count bits.now (drop 10 m.now) rest.now) }
{
    let size = orders::middle_size(message, count, bits, rest);
    let from = least(size, rest.len());
    check_parts(m, message, bits, count, size, rest, &rest[from..])
}

// The refusal of a body whose count stands at a place. Nothing is copied.
fn check_body(m: &[u8], message: u8, at: usize, count: u8) -> Result<(), Refusal>
    requires { (11 ≤ at) × (at + 1 + count ≤ length m.now) × (count ≤ most_bitfields) × (at ≡ count_at message) }
    ensures { result ≡ outcome (body_refusal (total_of m.now) message count (take count (drop (at + 1) m.now)) (drop 10 m.now) (drop (at + 1 + count) m.now)) }
{
    let start = at + 1;
    let end = start + (count as usize);
    check_block(m, message, &m[start..end], count, &m[end..])
}

// Whether a whole message is taken, under its record's type: Ok, or the refusal, 4 to 10 or 23, and from 6 to 10 its place. For callers that want no record.
pub fn check_as(message: u8, m: &[u8]) -> Result<(), Refusal>
    requires { 5 ≤ length m.now }
    ensures { result ≡ outcome (read_refusal (typed message m.now)) }
{
    let at = orders::count_at(message);
    check_head(m, message)?;
    let count = m[at];
    check_body(m, message, at, count)
}

// The same of a message whose type is its record's.
pub fn check_order(m: &[u8]) -> Result<(), Refusal>
    ensures { result ≡ outcome (read_refusal m.now) }
{
    if m.len() < 5 {
        return Err(Refusal::new(Reason::UnknownType));
    }
    check_as(wire::header::type_of(m), m)
}

// The bitfields into the front of a lent tail, with zeros after them.
fn put_bits(bits: &[u8], tail: &mut [u8])
    requires { (length bits.now ≤ most_bitfields) × (most_bitfields ≤ length tail.old) }
    ensures { tail.new ≡ patched tail.old 0 (bits.now ++ zeros (most_bitfields - length bits.now)) }
{
    block::clear(block::BITFIELDS, tail);
    block::copy_few(bits, tail);
}

// The count, and these after it.
fn put_block(count: u8, bits: &[u8], tail: &mut [u8])
    requires { (length bits.now ≤ most_bitfields) × (1 + most_bitfields ≤ length tail.old) }
    ensures { tail.new ≡ patched tail.old 0 (count ∷ (bits.now ++ zeros (most_bitfields - length bits.now))) }
{
    tail[0] = count;
    put_bits(bits, &mut tail[1..]);
}

// The fixed part of a message up to a place into the front of a lent tail, with zeros after it.
fn put_up_to(m: &[u8], at: usize, tail: &mut [u8])
    requires { (at ≤ length m.now) × (10 ≤ at) × (at ≤ fixed_end) × (fixed_size ≤ length tail.old) }
    ensures { tail.new ≡ patched tail.old 0 (take (at - 10) (drop 10 m.now) ++ zeros (fixed_end - at)) }
{
    let n = at - 10;
    block::move_field(&m[10..at], tail);
    block::clear(block::FIXED_END - at, &mut tail[n..]);
}

// The same; its length is a literal, so that the copy is a few moves.
fn put_fixed(m: &[u8], message: u8, tail: &mut [u8])
    requires { (count_at message ≤ length m.now) × (fixed_size ≤ length tail.old) }
    ensures { tail.new ≡ patched tail.old 0 (take (count_at message - 10) (drop 10 m.now) ++ zeros (fixed_end - count_at message)) }
{
    match message {
        0x38 | 0xB8 => put_up_to(m, 35, tail),
        0x39 => put_up_to(m, 30, tail),
        0x25 => put_up_to(m, 47, tail),
        0x2C => put_up_to(m, 69, tail),
        0x3A => put_up_to(m, 50, tail),
        0x47 => put_up_to(m, 11, tail),
        _ => put_up_to(m, block::FIXED_END, tail),
    }
}

// The middle, which `rest` begins with, into a lent tail, after the fixed part.
fn put_middle(message: u8, count: u8, bits: &[u8], rest: &[u8], tail: &mut [u8])
    requires { (middle_size message count bits.now rest.now ≤ length rest.now) × (count_at message + middle_size message count bits.now rest.now ≤ fixed_end) × (fixed_size ≤ length tail.old) }
    ensures { tail.new ≡ patched tail.old (count_at message - 10) (take (middle_size message count bits.now rest.now) rest.now) }
{
    let k = orders::middle_size(message, count, bits, rest);
    let n = orders::count_at(message) - 10;
    block::copy_front(rest, k, &mut tail[n..]);
}

// The fixed part and the middle of a message into the front of a lent tail, with zeros after them.
fn put_kept(m: &[u8], message: u8, count: u8, bits: &[u8], rest: &[u8], tail: &mut [u8])
    requires { (count_at message ≤ length m.now) × (middle_size message count bits.now rest.now ≤ length rest.now) × (count_at message + middle_size message count bits.now rest.now ≤ fixed_end) × (fixed_size ≤ length tail.old) }
    ensures { tail.new ≡ patched tail.old 0 (kept_bytes m.now message count bits.now rest.now) }
{
    put_fixed(m, message, tail);
    put_middle(message, count, bits, rest, tail);
}

// These, and the count and the bitfields after them.
fn put_body(m: &[u8], message: u8, count: u8, bits: &[u8], rest: &[u8], tail: &mut [u8])
    requires { (count_at message ≤ length m.now) × (length bits.now ≤ most_bitfields) × (middle_size message count bits.now rest.now ≤ length rest.now) × (count_at message + middle_size message count bits.now rest.now ≤ fixed_end) × (fixed_size + 1 + most_bitfields ≤ length tail.old) }
    ensures { tail.new ≡ patched tail.old 0 (kept_bytes m.now message count bits.now rest.now ++ (count ∷ (bits.now ++ zeros (most_bitfields - length bits.now)))) }
{
    put_kept(m, message, count, bits, rest, tail);
    put_block(count, bits, &mut tail[block::FIXED..]);
}

// A message's record up to its layout, straight from the message.
fn put_front(m: &[u8], message: u8, count: u8, bits: &[u8], rest: &[u8], buffer: &mut [u8])
    requires { (count_at message ≤ length m.now) × (length bits.now ≤ most_bitfields) × (middle_size message count bits.now rest.now ≤ length rest.now) × (count_at message + middle_size message count bits.now rest.now ≤ fixed_end) × (slots_place ≤ length buffer.old) }
    ensures { buffer.new ≡ patched buffer.old 0 (front_bytes m.now message count bits.now rest.now) }
{
    let unit = wire::header::unit_of(m);
    let number = wire::header::number_of(m);
    order_records::put_head(message, unit, number, buffer);
    put_body(m, message, count, bits, rest, &mut buffer[6..]);
}

// The optional block, whose bytes are handed on to the field reader: the full layout into the front of a lent tail.
fn put_layout(message: u8, bits: &[u8], count: u8, optional: &[u8], tail: &mut [u8])
    requires { (length bits.now ≡ count) × (count ≤ most_bitfields) × (sum takes (slots_of message count bits.now) ≡ length optional.now) × (layout_size ≤ length tail.old) }
    ensures { tail.new ≡ patched tail.old 0 (layout_of message count bits.now optional.now) }
{
    block::clear(block::LAYOUT, tail);
    block_store::store_all(message, bits, count, optional, &mut tail[0..block::LAYOUT]);
}

// The full layout of the optional bytes, which follow the middle, into the front of a lent tail.
fn put_slots(message: u8, bits: &[u8], count: u8, rest: &[u8], tail: &mut [u8])
    requires { (length bits.now ≡ count) × (count ≤ most_bitfields) × (middle_size message count bits.now rest.now + sum takes (slots_of message count bits.now) ≡ length rest.now) × (layout_size ≤ length tail.old) }
    ensures { tail.new ≡ patched tail.old 0 (layout_of message count bits.now (drop (middle_size message count bits.now rest.now) rest.now)) }
{
    let size = orders::middle_size(message, count, bits, rest);
    put_layout(message, bits, count, &rest[size..], tail);
}

// A message's record, of which each part is lent where it stands.
fn put_record(m: &[u8], message: u8, count: u8, bits: &[u8], rest: &[u8], buffer: &mut [u8])
    requires { (count_at message ≤ length m.now) × (length bits.now ≡ count) × (count ≤ most_bitfields) × (middle_size message count bits.now rest.now + sum takes (slots_of message count bits.now) ≡ length rest.now) × (count_at message + middle_size message count bits.now rest.now ≤ fixed_end) × (record_size ≤ length buffer.old) }
    ensures { buffer.new ≡ patched buffer.old 0 (there_bytes m.now message count bits.now rest.now) }
{
    put_front(m, message, count, bits, rest, buffer);
    put_slots(message, bits, count, rest, &mut buffer[block::SLOTS_AT..]);
}

// The record of a message that is not refused, whose count stands at a place.
fn put_there(m: &[u8], message: u8, at: usize, count: u8, buffer: &mut [u8])
    requires { (11 ≤ at) × (at + 1 + count ≤ length m.now) × (count ≤ most_bitfields) × (at ≡ count_at message) × (middle_size message count (take count (drop (at + 1) m.now)) (drop (at + 1 + count) m.now) + sum takes (slots_of message count (take count (drop (at + 1) m.now))) ≡ length (drop (at + 1 + count) m.now)) × (count_at message + middle_size message count (take count (drop (at + 1) m.now)) (drop (at + 1 + count) m.now) ≤ fixed_end) × (record_size ≤ length buffer.old) }
    ensures { buffer.new ≡ patched buffer.old 0 (there_bytes m.now message count (take count (drop (at + 1) m.now)) (drop (at + 1 + count) m.now)) }
{
    let start = at + 1;
    let end = start + (count as usize);
    put_record(m, message, count, &m[start..end], &m[end..], buffer);
}

// Stores the record of a whole message that was judged under its record's type, and is good, in the front of a buffer that has room for it.
fn put_as(message: u8, m: &[u8], buffer: &mut [u8])
    requires { (5 ≤ length m.now) × (read_refusal (typed message m.now) ≡ 0) × (record_size ≤ length buffer.old) }
    ensures { buffer.new ≡ read_record (typed message m.now) buffer.old }
{
    let at = orders::count_at(message);
    let count = m[at];
    put_there(m, message, at, count, buffer);
}

// The same of a message whose type is its record's: for callers that have judged it themselves.
pub fn put_order(m: &[u8], buffer: &mut [u8])
    requires { (read_refusal m.now ≡ 0) × (record_size ≤ length buffer.old) }
    ensures { buffer.new ≡ read_record m.now buffer.old }
{
    put_as(wire::header::type_of(m), m, buffer);
}

// Reads a whole message, as framing answers it, under its record's type, into a buffer that has room for its record: Ok, and the record's bytes stand in the
// front of the buffer; or the refusal (4 to 10, from 6 on with its place, or 23), and the buffer is as it was.
pub fn read_as(message: u8, m: &[u8], buffer: &mut [u8]) -> Result<(), Refusal>
    requires { (5 ≤ length m.now) × (record_size ≤ length buffer.old) }
    ensures { (result ≡ outcome (read_refusal (typed message m.now))) × (buffer.new ≡ read_record (typed message m.now) buffer.old) }
{
    check_as(message, m)?;
    put_as(message, m, buffer);
    Ok(())
}

// The same of a message whose type is its record's.
pub fn read_order(m: &[u8], buffer: &mut [u8]) -> Result<(), Refusal>
    requires { record_size ≤ length buffer.old }
    ensures { (result ≡ outcome (read_refusal m.now)) × (buffer.new ≡ read_record m.now buffer.old) }
{
    if m.len() < 5 {
        return Err(Refusal::new(Reason::UnknownType));
    }
    read_as(wire::header::type_of(m), m, buffer)
}
