// The optional block over any dictionary: its definitions and laws (specs/), and the moves of bytes that it needs.
#![tactic(auto)]

ghost use Rattle.std.specs.Prelude.{◌≡◌, ◌||◌, ◌+◌, ◌-◌, ◌≤◌, ◌<◌, ltb, length, take, get_or};
ghost use Rattle.numbers.specs.Numbers.{patched};
ghost use Rattle.block.specs.Places.{selected_at, new_order_has, modify_order_has, has_required};
ghost use Rattle.block.specs.Slots.{zeros};
ghost use Rattle.block.specs.Walk.{pick, first_of, worse_of};
ghost use Rattle.block.specs.Sizes.{layout_size};

// The sizes of an order's record and of its parts: the fixed part, where the longest one ends in a message, the bitfields, the full layout, the record;
// and where count, bitfields and layout begin in it.
pub const FIXED: usize = 90;

pub const FIXED_END: usize = 100;

pub const BITFIELDS: usize = 19;

pub const LAYOUT: usize = 175;

pub const RECORD: usize = 291;

pub const COUNT_AT: usize = 96;

pub const BITS_AT: usize = 97;

pub const SLOTS_AT: usize = 116;

// A field's bytes into the front of a lent tail, which has room for them. `copy_from_slice` calls the C library's copy, whatever the length, also for none.
pub fn copy(from: &[u8], to: &mut [u8])
    requires { length from.now ≤ length to.old }
    ensures { to.new ≡ patched to.old 0 from.now }
{
    for i in 0..from.len() {
        to[i] = from[i];
    }
}

// The first n bytes into the front of a lent tail.
pub fn copy_front(from: &[u8], n: usize, to: &mut [u8])
    requires { (n ≤ length from.now) × (n ≤ length to.old) }
    ensures { to.new ≡ patched to.old 0 (take n from.now) }
{
    copy(&from[0..n], to);
}

// A field's bytes into the front of a lent tail, through a local that overlaps neither: two moves where the width is known. `copy` from one to the other
// tests first that they don't overlap, and took 58 instructions in place of 17 for 16 bytes.
pub fn move_field(from: &[u8], to: &mut [u8])
    requires { (length from.now ≤ length to.old) × (length from.now ≤ layout_size) }
    ensures { to.new ≡ patched to.old 0 from.now }
{
    let n = from.len();
    let mut held = [0u8; LAYOUT];
    copy(from, &mut held);
    copy_front(&held, n, to);
}

// A field's bytes into the front of a lent tail by two moves of a known width, its first k bytes and its last k: they overlap, or meet.
fn both_ends(k: usize, from: &[u8], to: &mut [u8])
    requires { (k ≤ length from.now) × (length from.now ≤ k + k) × (length from.now ≤ length to.old) × (k ≤ layout_size) }
    ensures { to.new ≡ patched to.old 0 from.now }
{
    let n = from.len();
    move_field(&from[0..k], to);
    move_field(&from[n - k..n], &mut to[n - k..]);
}

// At most 32 bytes into the front of a lent tail: no loop over them.
pub fn copy_few(from: &[u8], to: &mut [u8])
    requires { (length from.now ≤ length to.old) × (length from.now ≤ 32) }
    ensures { to.new ≡ patched to.old 0 from.now }
{
    let n = from.len();
    if n == 0 {
        return;
    }
    if 16 < n {
        both_ends(16, from, to);
        return;
    }
    if 8 <= n {
        both_ends(8, from, to);
        return;
    }
    if 4 <= n {
        both_ends(4, from, to);
        return;
    }
    if 2 <= n {
        both_ends(2, from, to);
        return;
    }
    if n == 1 {
        to[0] = from[0];
    }
}

// A full layout into the front of a lent tail, in two parts that overlap, each of six moves of 16 bytes.
pub fn copy_layout(from: &[u8], to: &mut [u8])
    requires { (length from.now ≡ layout_size) × (layout_size ≤ length to.old) }
    ensures { to.new ≡ patched to.old 0 from.now }
{
    both_ends(96, from, to);
}

// Zeros into the front of a lent tail. `fill` took 26 instructions in place of these 13.
#[tactic(auto, unfolding(numbers::specs::Numbers::patched))]
pub fn clear(n: usize, to: &mut [u8])
    requires { n ≤ length to.old }
    ensures { to.new ≡ patched to.old 0 (zeros n) }
{
    for byte in &mut to[..n] {
        *byte = 0;
    }
}

// The first of what is found: what was found before, else this; 0 is nothing found.
pub fn first_of(found: usize, this: usize) -> usize
    ensures { result ≡ first_of found this }
{
    if found == 0 {
        return this;
    }
    found
}

// The first field that is against its kind, counted from 1: this one, which has `at` bytes before it, unless it agrees or one was found before it.
pub fn worse(at: usize, wrong: usize, agree: bool) -> usize
    requires { at ≤ 1000000 }
    ensures { result ≡ worse_of at wrong agree }
{
    if agree {
        return wrong;
    }
    first_of(wrong, at + 1)
}

// A bitfield byte of the first `count`, the first being 1; 0 for one that is not there.
pub fn byte_of(bits: &[u8], count: u8, byte: u8) -> u8
    requires { (count ≤ length bits.now) × (1 ≤ byte) }
    ensures { result ≡ pick (ltb (byte - 1) count) (get_or bits.now (byte - 1) 0) 0 }
{
    let j = byte - 1;
    if j < count { bits[j as usize] } else { 0 }
}

// Whether place k, of those of all bitfields, is selected.
pub fn is_selected(bits: &[u8], count: u8, k: u8) -> bool
    requires { count ≤ length bits.now }
    ensures { result ≡ selected_at count bits.now k }
{
    let j = k / 8;
    if j < count {
        let x = bits[j as usize];
        return (x >> (k % 8)) % 2 == 1;
    }
    false
}

// Whether one of two places is selected.
fn either_selected(bits: &[u8], count: u8, j: u8, k: u8) -> bool
    requires { count ≤ length bits.now }
    ensures { result ≡ (selected_at count bits.now j || selected_at count bits.now k) }
{
    if is_selected(bits, count, j) {
        return true;
    }
    is_selected(bits, count, k)
}

// Whether every required field of a New Order is selected.
fn new_order_has(bits: &[u8], count: u8) -> bool
    requires { count ≤ length bits.now }
    ensures { result ≡ new_order_has count bits.now }
{
    if is_selected(bits, count, 8) {
        if is_selected(bits, count, 14) {
            return either_selected(bits, count, 2, 4);
        }
    }
    false
}

// Whether OrderQty of a Modify Order is selected, and Price or OrdType.
fn modify_order_has(bits: &[u8], count: u8) -> bool
    requires { count ≤ length bits.now }
    ensures { result ≡ modify_order_has count bits.now }
{
    if is_selected(bits, count, 2) {
        return either_selected(bits, count, 3, 4);
    }
    false
}

// Whether every field is selected that a message requires whatever its fields hold.
pub fn has_required(message: u8, bits: &[u8], count: u8) -> bool
    requires { count ≤ length bits.now }
    ensures { result ≡ has_required message count bits.now }
{
    match message {
        0x38 | 0xB8 => new_order_has(bits, count),
        0x3A => modify_order_has(bits, count),
        0x47 => is_selected(bits, count, 2),
        _ => true,
    }
}
