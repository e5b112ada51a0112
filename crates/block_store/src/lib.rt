// Reading the optional block: a walk over the set bits that stores each field of a message in a record's full layout.
#![tactic(auto)]

ghost use Rattle.std.specs.Prelude.{◌≡◌, ◌+◌, ◌*◌, ◌-◌, ◌%◌, ◌≤◌, eqb, length, take};
ghost use Rattle.numbers.specs.Numbers.{patched};
ghost use Rattle.dictionary.specs.Dictionary.{entry_of};
ghost use Rattle.block.specs.Slots.{sum, takes};
ghost use Rattle.block.specs.Places.{slots_of};
ghost use Rattle.block.specs.Walk.{pick, in_byte, store_entry};
ghost use Rattle.block.specs.Fits.{bit_takes, bits_take, left};
ghost use Rattle.block_store.specs.State.{storing, store_walk};
ghost use Rattle.block.specs.Sizes.{all_places, layout_size, most_bitfields};

use dictionary::Entry;

// The field reader: one field, which is the front of the tail of the message that is handed on, into its place of the layout.
fn store_field(width: u8, place: u8, tail: &[u8], layout: &mut [u8])
    requires { (place + width ≤ length layout.old) × (place + width ≤ layout_size) × (width ≤ length tail.now) }
    ensures { layout.new ≡ patched layout.old place (take width tail.now) }
{
    let w = width as usize;
    let p = place as usize;
    block::move_field(&tail[0..w], &mut layout[p..]);
}

// One bit, the lowest of x: its field if it is set.
fn store_bit(
    message: u8,
    byte: u8,
    bit: u8,
    x: u8,
    msg: &[u8],
    at: usize,
    layout: &mut [u8],
) -> usize
    requires { (length layout.old ≡ layout_size) × (at + bit_takes (eqb (x % 2) 1) (entry_of message byte bit) ≤ length msg.now) }
    ensures { (storing result layout.new ≡ pick (eqb (x % 2) 1) (store_entry msg.now (entry_of message byte bit) (storing at layout.old)) (storing at layout.old)) × (result ≡ at + bit_takes (eqb (x % 2) 1) (entry_of message byte bit)) }
{
    if x % 2 == 1 {
        let e = dictionary::entry_of(message, byte, bit);
        match e {
            Entry::Refused => at,
            Entry::Field {
                width,
                kind: _,
                place,
            } => {
                store_field(width, place, &msg[at..], layout);
                at + (width as usize)
            }
        }
    } else {
        at
    }
}

// The fields of a bitfield byte, which is `value`; its places end at `end`, so that literals tell the loop's length.
fn store_bits(
    message: u8,
    byte: u8,
    end: u8,
    value: u8,
    msg: &[u8],
    start: usize,
    layout: &mut [u8],
) -> usize
    requires { (length layout.old ≡ layout_size) × (byte ≤ most_bitfields) × (end ≡ 8 * byte) × (start + bits_take message byte 8 0 value ≤ length msg.now) }
    ensures { (storing result layout.new ≡ in_byte (store_entry msg.now) message byte value (storing start layout.old)) × (result ≡ start + bits_take message byte 8 0 value) }
{
    let n = end + 8 - 8 * byte;
    let mut x = value;
    let mut at = start;
    for bit in 0..n {
        at = store_bit(message, byte, bit, x, msg, at, layout);
        x = x / 2;
    }
    at
}

// One bitfield byte: its fields if it is there and not zero.
fn store_next(
    message: u8,
    byte: u8,
    end: u8,
    bits: &[u8],
    count: u8,
    msg: &[u8],
    at: usize,
    layout: &mut [u8],
) -> usize
    requires { (length layout.old ≡ layout_size) × (length bits.now ≡ count) × (count ≤ most_bitfields) × (1 ≤ byte) × (byte ≤ most_bitfields) × (end ≡ 8 * byte) × (at + left message count bits.now (all_places - 8 * (byte - 1)) (8 * (byte - 1)) ≤ length msg.now) }
    ensures { (store_walk message count bits.now msg.now (all_places - 8 * byte) (8 * byte) (storing result layout.new) ≡ store_walk message count bits.now msg.now (all_places - 8 * (byte - 1)) (8 * (byte - 1)) (storing at layout.old)) × (result + left message count bits.now (all_places - 8 * byte) (8 * byte) ≤ length msg.now) }
{
    let value = block::byte_of(bits, count, byte);
    if value == 0 {
        return at;
    }
    store_bits(message, byte, end, value, msg, at, layout)
}

// The bitfield bytes that a New Order lists, one after the other: the compiler knows message and byte, and folds loop and dictionary away. The other
// bytes store nothing.
fn new_order_bytes(bits: &[u8], count: u8, msg: &[u8], layout: &mut [u8]) -> usize
    requires { (length layout.old ≡ layout_size) × (length bits.now ≡ count) × (count ≤ most_bitfields) × (left 0x38 count bits.now all_places 0 ≤ length msg.now) }
    ensures { storing result layout.new ≡ store_walk 0x38 count bits.now msg.now all_places 0 (storing 0 layout.old) }
{
    let a = store_next(0x38, 1, 8, bits, count, msg, 0, layout);
    let b = store_next(0x38, 2, 16, bits, count, msg, a, layout);
    let c = store_next(0x38, 3, 24, bits, count, msg, b, layout);
    let d = store_next(0x38, 6, 48, bits, count, msg, c, layout);
    store_next(0x38, 10, 80, bits, count, msg, d, layout)
}

// The same of a Cancel Order.
fn cancel_order_bytes(bits: &[u8], count: u8, msg: &[u8], layout: &mut [u8]) -> usize
    requires { (length layout.old ≡ layout_size) × (length bits.now ≡ count) × (count ≤ most_bitfields) × (left 0x39 count bits.now all_places 0 ≤ length msg.now) }
    ensures { storing result layout.new ≡ store_walk 0x39 count bits.now msg.now all_places 0 (storing 0 layout.old) }
{
    store_next(0x39, 1, 8, bits, count, msg, 0, layout)
}

// The same of an Order Acknowledgment.
fn acknowledgment_bytes(bits: &[u8], count: u8, msg: &[u8], layout: &mut [u8]) -> usize
    requires { (length layout.old ≡ layout_size) × (length bits.now ≡ count) × (count ≤ most_bitfields) × (left 0x25 count bits.now all_places 0 ≤ length msg.now) }
    ensures { storing result layout.new ≡ store_walk 0x25 count bits.now msg.now all_places 0 (storing 0 layout.old) }
{
    let a = store_next(0x25, 1, 8, bits, count, msg, 0, layout);
    let b = store_next(0x25, 2, 16, bits, count, msg, a, layout);
    let c = store_next(0x25, 3, 24, bits, count, msg, b, layout);
    store_next(0x25, 5, 40, bits, count, msg, c, layout)
}

// The same of an Order Execution.
fn execution_bytes(bits: &[u8], count: u8, msg: &[u8], layout: &mut [u8]) -> usize
    requires { (length layout.old ≡ layout_size) × (length bits.now ≡ count) × (count ≤ most_bitfields) × (left 0x2C count bits.now all_places 0 ≤ length msg.now) }
    ensures { storing result layout.new ≡ store_walk 0x2C count bits.now msg.now all_places 0 (storing 0 layout.old) }
{
    let a = store_next(0x2C, 1, 8, bits, count, msg, 0, layout);
    let b = store_next(0x2C, 2, 16, bits, count, msg, a, layout);
    store_next(0x2C, 3, 24, bits, count, msg, b, layout)
}

// The fields of any bitfield byte: its places follow from it.
fn store_any(message: u8, byte: u8, value: u8, msg: &[u8], at: usize, layout: &mut [u8]) -> usize
    requires { (length layout.old ≡ layout_size) × (byte ≤ most_bitfields) × (at + bits_take message byte 8 0 value ≤ length msg.now) }
    ensures { (storing result layout.new ≡ in_byte (store_entry msg.now) message byte value (storing at layout.old)) × (result ≡ at + bits_take message byte 8 0 value) }
{
    store_bits(message, byte, 8 * byte, value, msg, at, layout)
}

// Any message: all bytes that are there, in a loop.
fn store_loop(message: u8, bits: &[u8], count: u8, msg: &[u8], layout: &mut [u8]) -> usize
    requires { (length layout.old ≡ layout_size) × (length bits.now ≡ count) × (count ≤ most_bitfields) × (left message count bits.now all_places 0 ≤ length msg.now) }
    ensures { storing result layout.new ≡ store_walk message count bits.now msg.now all_places 0 (storing 0 layout.old) }
{
    let mut at: usize = 0;
    for j in 0..count {
        at = store_any(message, j + 1, bits[j as usize], msg, at, layout);
    }
    at
}

// All fields that the bitfield bytes select, into a layout: how far the message is stored.
pub fn store_all(message: u8, bits: &[u8], count: u8, msg: &[u8], layout: &mut [u8]) -> usize
    requires { (length layout.old ≡ layout_size) × (length bits.now ≡ count) × (count ≤ most_bitfields) × (sum takes (slots_of message count bits.now) ≤ length msg.now) }
    ensures { storing result layout.new ≡ store_walk message count bits.now msg.now all_places 0 (storing 0 layout.old) }
{
    if count == 0 {
        return 0;
    }
    match message {
        0x38 => new_order_bytes(bits, count, msg, layout),
        0x39 => cancel_order_bytes(bits, count, msg, layout),
        0x25 => acknowledgment_bytes(bits, count, msg, layout),
        0x2C => execution_bytes(bits, count, msg, layout),
        _ => store_loop(message, bits, count, msg, layout),
    }
}
