// Writing the optional block: a walk over the set bits that looks at a record's selected fields, and one that gives them to a message.
#![tactic(auto)]

pub mod give;

ghost use Rattle.std.specs.Prelude.{◌≡◌, ◌+◌, ◌*◌, ◌-◌, ◌%◌, ◌≤◌, eqb, length};
ghost use Rattle.dictionary.specs.Dictionary.{entry_of};
ghost use Rattle.block.specs.Walk.{pick, in_byte, look_field, look_entry, look_here};
ghost use Rattle.block_write.specs.State.{looking, unseen, look_walk, Midway};
ghost use Rattle.block.specs.Sizes.{all_places, layout_size, most_bitfields};

use dictionary::Entry;
use kinds::Kind;

// The bytes of the selected fields in all; which of them, counted from 1, is the first of the first field that is against its kind, and which
// bitfield byte, counted from 1, has the first set bit that is not listed: 0 where there is none.
#[derive(Clone, Copy)]
pub struct Seen {
    pub total: usize,
    pub wrong: usize,
    pub bad: usize,
}

// One field of a layout, which is cleared there.
fn look_field(width: u8, kind: Kind, place: u8, rest: &mut [u8], s: Seen) -> Seen
    requires { (place + width ≤ length rest.old) × (s.total ≤ 1000000) }
    ensures { (looking result rest.new ≡ look_field width kind place (looking s rest.old)) × (result.total ≤ s.total + 255) }
{
    let w = width as usize;
    let p = place as usize;
    let end = p + w;
    let agree = kinds::agrees(kind, &rest[p..end]);
    block::clear(w, &mut rest[p..]);
    Seen {
        total: s.total + w,
        wrong: block::worse(s.total, s.wrong, agree),
        bad: s.bad,
    }
}

// One bit, the lowest of x: its field if it is set. A bad bit puts the byte's number.
fn look_bit(message: u8, byte: u8, bit: u8, x: u8, rest: &mut [u8], s: Seen) -> Seen
    requires { (length rest.old ≡ layout_size) × (s.total ≤ 1000000) }
    ensures { (looking result rest.new ≡ pick (eqb (x % 2) 1) (look_here byte (entry_of message byte bit) (looking s rest.old)) (looking s rest.old)) × (result.total ≤ s.total + 255) }
{
    if x % 2 == 1 {
        let e = dictionary::entry_of(message, byte, bit);
        match e {
            Entry::Refused => Seen {
                total: s.total,
                wrong: s.wrong,
                bad: byte as usize,
            },
            Entry::Field { width, kind, place } => look_field(width, kind, place, rest, s),
        }
    } else {
        s
    }
}

// The fields of a bitfield byte, which is `value`; its places end at `end`, so that literals tell the loop's length. Whether a bad bit was found before is
// asked once, after them.
fn look_bits(message: u8, byte: u8, end: u8, value: u8, rest: &mut [u8], s: Seen) -> Seen
    requires { (length rest.old ≡ layout_size) × (1 ≤ byte) × (byte ≤ most_bitfields) × (end ≡ 8 * byte) × (s.total ≤ 100000) }
    ensures { (looking result rest.new ≡ in_byte (look_entry byte) message byte value (looking s rest.old)) × (result.total ≤ s.total + 2040) }
{
    let n = end + 8 - 8 * byte;
    let mut x = value;
    let mut r = Seen {
        total: s.total,
        wrong: s.wrong,
        bad: 0,
    };
    for bit in 0..n {
        r = look_bit(message, byte, bit, x, rest, r);
        x = x / 2;
    }
    Seen {
        total: r.total,
        wrong: r.wrong,
        bad: block::first_of(s.bad, r.bad),
    }
}

// The same of any byte: its places follow from it.
fn look_any(message: u8, byte: u8, value: u8, rest: &mut [u8], s: Seen) -> Seen
    requires { (length rest.old ≡ layout_size) × (1 ≤ byte) × (byte ≤ most_bitfields) × (s.total ≤ 100000) }
    ensures { (looking result rest.new ≡ in_byte (look_entry byte) message byte value (looking s rest.old)) × (result.total ≤ s.total + 2040) }
{
    look_bits(message, byte, 8 * byte, value, rest, s)
}

// One bitfield byte: its fields if it is there and not zero.
fn look_next(
    message: u8,
    byte: u8,
    end: u8,
    bits: &[u8],
    count: u8,
    rest: &mut [u8],
    s: Seen,
) -> Seen
    requires { (1 ≤ byte) × (byte ≤ most_bitfields) × (end ≡ 8 * byte) × Midway count bits.now (byte - 1) s.total rest.old }
    ensures { (look_walk message count bits.now (all_places - 8 * byte) (8 * byte) (looking result rest.new) ≡ look_walk message count bits.now (all_places - 8 * (byte - 1)) (8 * (byte - 1)) (looking s rest.old)) × Midway count bits.now byte result.total rest.new }
{
    let value = block::byte_of(bits, count, byte);
    if value == 0 {
        return s;
    }
    look_bits(message, byte, end, value, rest, s)
}

// All bytes after the first `from`, of any message.
fn look_loop(message: u8, from: u8, bits: &[u8], count: u8, rest: &mut [u8], s: Seen) -> Seen
    requires { Midway count bits.now from s.total rest.old }
    ensures { looking result rest.new ≡ look_walk message count bits.now (all_places - 8 * from) (8 * from) (looking s rest.old) }
{
    let mut r = s;
    for j in from..count {
        r = look_any(message, j + 1, bits[j as usize], rest, r);
    }
    r
}

// The same, where they are as a rule not there, or blank.
fn look_rest(message: u8, from: u8, bits: &[u8], count: u8, rest: &mut [u8], s: Seen) -> Seen
    requires { Midway count bits.now from s.total rest.old }
    ensures { looking result rest.new ≡ look_walk message count bits.now (all_places - 8 * from) (8 * from) (looking s rest.old) }
{
    if count <= from {
        return s;
    }
    let f = from as usize;
    let n = count as usize;
    if kinds::is_blank(&bits[f..n]) {
        return s;
    }
    look_loop(message, from, bits, count, rest, s)
}

// New Order, byte after byte up to the last that it lists: with literals for message, byte and end the compiler unrolls the bits and folds the
// dictionary away.
fn new_order_bytes(bits: &[u8], count: u8, rest: &mut [u8], s: Seen) -> Seen
    requires { Midway count bits.now 0 s.total rest.old }
    ensures { looking result rest.new ≡ look_walk 0x38 count bits.now all_places 0 (looking s rest.old) }
{
    let a = look_next(0x38, 1, 8, bits, count, rest, s);
    let b = look_next(0x38, 2, 16, bits, count, rest, a);
    let c = look_next(0x38, 3, 24, bits, count, rest, b);
    if count <= 3 {
        return c;
    }
    let d = look_next(0x38, 4, 32, bits, count, rest, c);
    let e = look_next(0x38, 5, 40, bits, count, rest, d);
    let f = look_next(0x38, 6, 48, bits, count, rest, e);
    let g = look_next(0x38, 7, 56, bits, count, rest, f);
    let h = look_next(0x38, 8, 64, bits, count, rest, g);
    let i = look_next(0x38, 9, 72, bits, count, rest, h);
    let j = look_next(0x38, 10, 80, bits, count, rest, i);
    look_rest(0x38, 10, bits, count, rest, j)
}

// The same of Cancel Order.
fn cancel_order_bytes(bits: &[u8], count: u8, rest: &mut [u8], s: Seen) -> Seen
    requires { Midway count bits.now 0 s.total rest.old }
    ensures { looking result rest.new ≡ look_walk 0x39 count bits.now all_places 0 (looking s rest.old) }
{
    let a = look_next(0x39, 1, 8, bits, count, rest, s);
    look_rest(0x39, 1, bits, count, rest, a)
}

// The same of Order Acknowledgment.
fn acknowledgment_bytes(bits: &[u8], count: u8, rest: &mut [u8], s: Seen) -> Seen
    requires { Midway count bits.now 0 s.total rest.old }
    ensures { looking result rest.new ≡ look_walk 0x25 count bits.now all_places 0 (looking s rest.old) }
{
    let a = look_next(0x25, 1, 8, bits, count, rest, s);
    let b = look_next(0x25, 2, 16, bits, count, rest, a);
    let c = look_next(0x25, 3, 24, bits, count, rest, b);
    if count <= 3 {
        return c;
    }
    let d = look_next(0x25, 4, 32, bits, count, rest, c);
    let e = look_next(0x25, 5, 40, bits, count, rest, d);
    look_rest(0x25, 5, bits, count, rest, e)
}

// The same of Order Execution.
fn execution_bytes(bits: &[u8], count: u8, rest: &mut [u8], s: Seen) -> Seen
    requires { Midway count bits.now 0 s.total rest.old }
    ensures { looking result rest.new ≡ look_walk 0x2C count bits.now all_places 0 (looking s rest.old) }
{
    let a = look_next(0x2C, 1, 8, bits, count, rest, s);
    let b = look_next(0x2C, 2, 16, bits, count, rest, a);
    let c = look_next(0x2C, 3, 24, bits, count, rest, b);
    look_rest(0x2C, 3, bits, count, rest, c)
}

// New Order. Each message has such a function of its own: within it the compiler folds what is called more than once.
fn look_new_order(bits: &[u8], count: u8, rest: &mut [u8], s: Seen) -> Seen
    requires { Midway count bits.now 0 s.total rest.old }
    ensures { looking result rest.new ≡ look_walk 0x38 count bits.now all_places 0 (looking s rest.old) }
{
    new_order_bytes(bits, count, rest, s)
}

// Cancel Order.
fn look_cancel_order(bits: &[u8], count: u8, rest: &mut [u8], s: Seen) -> Seen
    requires { Midway count bits.now 0 s.total rest.old }
    ensures { looking result rest.new ≡ look_walk 0x39 count bits.now all_places 0 (looking s rest.old) }
{
    cancel_order_bytes(bits, count, rest, s)
}

// Order Acknowledgment.
fn look_acknowledgment(bits: &[u8], count: u8, rest: &mut [u8], s: Seen) -> Seen
    requires { Midway count bits.now 0 s.total rest.old }
    ensures { looking result rest.new ≡ look_walk 0x25 count bits.now all_places 0 (looking s rest.old) }
{
    acknowledgment_bytes(bits, count, rest, s)
}

// Order Execution.
fn look_execution(bits: &[u8], count: u8, rest: &mut [u8], s: Seen) -> Seen
    requires { Midway count bits.now 0 s.total rest.old }
    ensures { looking result rest.new ≡ look_walk 0x2C count bits.now all_places 0 (looking s rest.old) }
{
    execution_bytes(bits, count, rest, s)
}

// All fields that the first `count` bitfield bytes select, each cleared in the layout.
pub fn look_all(message: u8, bits: &[u8], count: u8, rest: &mut [u8]) -> Seen
    requires { (length rest.old ≡ layout_size) × (count ≤ length bits.now) × (count ≤ most_bitfields) }
    ensures { looking result rest.new ≡ look_walk message count bits.now all_places 0 (unseen rest.old) }
{
    let s = Seen {
        total: 0,
        wrong: 0,
        bad: 0,
    };
    if count == 0 {
        return s;
    }
    match message {
        0x38 => look_new_order(bits, count, rest, s),
        0x39 => look_cancel_order(bits, count, rest, s),
        0x25 => look_acknowledgment(bits, count, rest, s),
        0x2C => look_execution(bits, count, rest, s),
        _ => look_loop(message, 0, bits, count, rest, s),
    }
}
