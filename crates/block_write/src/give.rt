// Giving a layout's selected fields to a message, each into the lent tail of its buffer.
ghost use Rattle.std.specs.Prelude.{◌≡◌, ◌+◌, ◌*◌, ◌-◌, ◌%◌, ◌≤◌, eqb, length};
ghost use Rattle.dictionary.specs.Dictionary.{entry_of};
ghost use Rattle.block.specs.Slots.{takes, sum};
ghost use Rattle.block.specs.Places.{slots_of};
ghost use Rattle.block.specs.Walk.{pick, in_byte, give_field, give_entry};
ghost use Rattle.block.specs.Fits.{bit_takes, bits_take, left};
ghost use Rattle.block_write.specs.State.{giving, give_walk};
ghost use Rattle.block.specs.Sizes.{all_places, layout_size, most_bitfields};

use dictionary::Entry;

// One field of a layout to a place of the message, which has room for it: where the next one goes.
fn give_field(width: u8, place: u8, layout: &[u8], out: &mut [u8], at: usize) -> usize
    requires { (place + width ≤ length layout.now) × (place + width ≤ layout_size) × (at + width ≤ length out.old) }
    ensures { (giving result out.new ≡ give_field layout.now width place (giving at out.old)) × (result ≡ at + width) }
{
    let w = width as usize;
    let p = place as usize;
    let end = p + w;
    let next = at + w;
    block::move_field(&layout[p..end], &mut out[at..]);
    next
}

// One bit, the lowest of x: its field if it is set.
fn give_bit(
    message: u8,
    byte: u8,
    bit: u8,
    x: u8,
    layout: &[u8],
    out: &mut [u8],
    at: usize,
) -> usize
    requires { (length layout.now ≡ layout_size) × (at + bit_takes (eqb (x % 2) 1) (entry_of message byte bit) ≤ length out.old) }
    ensures { (giving result out.new ≡ pick (eqb (x % 2) 1) (give_entry layout.now (entry_of message byte bit) (giving at out.old)) (giving at out.old)) × (result ≡ at + bit_takes (eqb (x % 2) 1) (entry_of message byte bit)) }
{
    if x % 2 == 1 {
        let e = dictionary::entry_of(message, byte, bit);
        match e {
            Entry::Refused => at,
            Entry::Field {
                width,
                kind: _,
                place,
            } => give_field(width, place, layout, out, at),
        }
    } else {
        at
    }
}

// The fields of a bitfield byte, which is `value`; its places end at `end`, so that literals tell the loop's length.
fn give_bits(
    message: u8,
    byte: u8,
    end: u8,
    value: u8,
    layout: &[u8],
    out: &mut [u8],
    start: usize,
) -> usize
    requires { (length layout.now ≡ layout_size) × (byte ≤ most_bitfields) × (end ≡ 8 * byte) × (start + bits_take message byte 8 0 value ≤ length out.old) }
    ensures { (giving result out.new ≡ in_byte (give_entry layout.now) message byte value (giving start out.old)) × (result ≡ start + bits_take message byte 8 0 value) }
{
    let n = end + 8 - 8 * byte;
    let mut x = value;
    let mut at = start;
    for bit in 0..n {
        at = give_bit(message, byte, bit, x, layout, out, at);
        x = x / 2;
    }
    at
}

// The same of any byte: its places follow from it.
fn give_any(message: u8, byte: u8, value: u8, layout: &[u8], out: &mut [u8], at: usize) -> usize
    requires { (length layout.now ≡ layout_size) × (byte ≤ most_bitfields) × (at + bits_take message byte 8 0 value ≤ length out.old) }
    ensures { (giving result out.new ≡ in_byte (give_entry layout.now) message byte value (giving at out.old)) × (result ≡ at + bits_take message byte 8 0 value) }
{
    give_bits(message, byte, 8 * byte, value, layout, out, at)
}

// One bitfield byte, the first being 1: its fields if it is there and not zero.
fn give_next(
    message: u8,
    byte: u8,
    end: u8,
    bits: &[u8],
    count: u8,
    layout: &[u8],
    out: &mut [u8],
    at: usize,
) -> usize
    requires { (length layout.now ≡ layout_size) × (count ≤ length bits.now) × (count ≤ most_bitfields) × (1 ≤ byte) × (byte ≤ most_bitfields) × (end ≡ 8 * byte) × (at + left message count bits.now (all_places - 8 * (byte - 1)) (8 * (byte - 1)) ≤ length out.old) }
    ensures { (give_walk message count bits.now layout.now (all_places - 8 * byte) (8 * byte) (giving result out.new) ≡ give_walk message count bits.now layout.now (all_places - 8 * (byte - 1)) (8 * (byte - 1)) (giving at out.old)) × (result + left message count bits.now (all_places - 8 * byte) (8 * byte) ≤ length out.old) }
{
    let value = block::byte_of(bits, count, byte);
    if value == 0 {
        return at;
    }
    give_bits(message, byte, end, value, layout, out, at)
}

// New Order: the bytes that it lists, one after another. There the compiler knows message and byte and folds the dictionary away; a byte that is
// not listed gives nothing.
fn new_order_bytes(bits: &[u8], count: u8, layout: &[u8], out: &mut [u8], start: usize) -> usize
    requires { (length layout.now ≡ layout_size) × (count ≤ length bits.now) × (count ≤ most_bitfields) × (start + left 0x38 count bits.now all_places 0 ≤ length out.old) }
    ensures { giving result out.new ≡ give_walk 0x38 count bits.now layout.now all_places 0 (giving start out.old) }
{
    let a = give_next(0x38, 1, 8, bits, count, layout, out, start);
    let b = give_next(0x38, 2, 16, bits, count, layout, out, a);
    let c = give_next(0x38, 3, 24, bits, count, layout, out, b);
    let d = give_next(0x38, 6, 48, bits, count, layout, out, c);
    give_next(0x38, 10, 80, bits, count, layout, out, d)
}

// The same of Cancel Order.
fn cancel_order_bytes(bits: &[u8], count: u8, layout: &[u8], out: &mut [u8], start: usize) -> usize
    requires { (length layout.now ≡ layout_size) × (count ≤ length bits.now) × (count ≤ most_bitfields) × (start + left 0x39 count bits.now all_places 0 ≤ length out.old) }
    ensures { giving result out.new ≡ give_walk 0x39 count bits.now layout.now all_places 0 (giving start out.old) }
{
    give_next(0x39, 1, 8, bits, count, layout, out, start)
}

// The same of Order Acknowledgment.
fn acknowledgment_bytes(
    bits: &[u8],
    count: u8,
    layout: &[u8],
    out: &mut [u8],
    start: usize,
) -> usize
    requires { (length layout.now ≡ layout_size) × (count ≤ length bits.now) × (count ≤ most_bitfields) × (start + left 0x25 count bits.now all_places 0 ≤ length out.old) }
    ensures { giving result out.new ≡ give_walk 0x25 count bits.now layout.now all_places 0 (giving start out.old) }
{
    let a = give_next(0x25, 1, 8, bits, count, layout, out, start);
    let b = give_next(0x25, 2, 16, bits, count, layout, out, a);
    let c = give_next(0x25, 3, 24, bits, count, layout, out, b);
    give_next(0x25, 5, 40, bits, count, layout, out, c)
}

// The same of Order Execution.
fn execution_bytes(bits: &[u8], count: u8, layout: &[u8], out: &mut [u8], start: usize) -> usize
    requires { (length layout.now ≡ layout_size) × (count ≤ length bits.now) × (count ≤ most_bitfields) × (start + left 0x2C count bits.now all_places 0 ≤ length out.old) }
    ensures { giving result out.new ≡ give_walk 0x2C count bits.now layout.now all_places 0 (giving start out.old) }
{
    let a = give_next(0x2C, 1, 8, bits, count, layout, out, start);
    let b = give_next(0x2C, 2, 16, bits, count, layout, out, a);
    give_next(0x2C, 3, 24, bits, count, layout, out, b)
}

// Any message: all bytes that are there, in a loop.
fn give_loop(
    message: u8,
    bits: &[u8],
    count: u8,
    layout: &[u8],
    out: &mut [u8],
    start: usize,
) -> usize
    requires { (length layout.now ≡ layout_size) × (count ≤ length bits.now) × (count ≤ most_bitfields) × (start + left message count bits.now all_places 0 ≤ length out.old) }
    ensures { giving result out.new ≡ give_walk message count bits.now layout.now all_places 0 (giving start out.old) }
{
    let mut at = start;
    for j in 0..count {
        at = give_any(message, j + 1, bits[j as usize], layout, out, at);
    }
    at
}

// All fields that the first `count` bitfield bytes select, from a place of the message on; it has room for them.
pub fn give_all(
    message: u8,
    bits: &[u8],
    count: u8,
    layout: &[u8],
    out: &mut [u8],
    start: usize,
) -> usize
    requires { (length layout.now ≡ layout_size) × (count ≤ length bits.now) × (count ≤ most_bitfields) × (start + sum takes (slots_of message count bits.now) ≤ length out.old) }
    ensures { giving result out.new ≡ give_walk message count bits.now layout.now all_places 0 (giving start out.old) }
{
    if count == 0 {
        return start;
    }
    match message {
        0x38 => new_order_bytes(bits, count, layout, out, start),
        0x39 => cancel_order_bytes(bits, count, layout, out, start),
        0x25 => acknowledgment_bytes(bits, count, layout, out, start),
        0x2C => execution_bytes(bits, count, layout, out, start),
        _ => give_loop(message, bits, count, layout, out, start),
    }
}
