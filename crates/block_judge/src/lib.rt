// Judging the optional block where it stands: a walk over the set bits that asks of each field's bytes in the message.
#![tactic(auto)]

ghost use Rattle.std.specs.Prelude.{◌≡◌, true, ◌+◌, ◌-◌, ◌*◌, ◌%◌, ◌≤◌, ◌<◌, eqb, length};
ghost use Rattle.dictionary.specs.Dictionary.{entry_of};
ghost use Rattle.block.specs.Walk.{pick, in_byte, judge_field, judge_entry, judge_here};
ghost use Rattle.block_judge.specs.State.{judging, begun, judge_walk, blank_after, plain};
ghost use Rattle.block.specs.Sizes.{all_places, most_bitfields};

use dictionary::Entry;
use kinds::Kind;

// How many bytes the set bits take; which of them, counted from 1, is the first of the first field that is against its kind, and which bitfield byte,
// counted from 1, has the first set bit that is not listed: 0 where there is none. Numbers of one size, since a struct with gaps costs copies.
#[derive(Clone, Copy)]
pub struct Judged {
    pub at: usize,
    pub wrong: usize,
    pub bad: usize,
}

// One field of the message's optional bytes, asked of where it stands. Where they end before it, nothing is asked.
fn judge_field(width: u8, kind: Kind, msg: &[u8], t: Judged) -> Judged
    requires { t.at ≤ 1000000 }
    ensures { (judging result ≡ judge_field msg.now width kind (judging t)) × (result.at ≤ t.at + 255) }
{
    let at = t.at;
    let end = at + (width as usize);
    if msg.len() < end {
        return Judged {
            at: end,
            wrong: t.wrong,
            bad: t.bad,
        };
    }
    let wrong = block::worse(at, t.wrong, kinds::agrees(kind, &msg[at..end]));
    Judged {
        at: end,
        wrong: wrong,
        bad: t.bad,
    }
}

// One bit, the lowest of x: its field if it is set. A bad bit puts the byte's number.
fn judge_bit(message: u8, byte: u8, bit: u8, x: u8, msg: &[u8], t: Judged) -> Judged
    requires { t.at ≤ 1000000 }
    ensures { (judging result ≡ pick (eqb (x % 2) 1) (judge_here msg.now byte (entry_of message byte bit) (judging t)) (judging t)) × (result.at ≤ t.at + 255) }
{
    if x % 2 == 1 {
        let e = dictionary::entry_of(message, byte, bit);
        match e {
            Entry::Refused => Judged {
                at: t.at,
                wrong: t.wrong,
                bad: byte as usize,
            },
            Entry::Field {
                width,
                kind,
                place: _,
            } => judge_field(width, kind, msg, t),
        }
    } else {
        t
    }
}

// The fields of a bitfield byte, which is `value`; its places end at `end`, so that literals tell the loop's length. Whether a bad bit was found before is
// asked once, after them: at each bit it would cost every message.
fn judge_bits(message: u8, byte: u8, end: u8, value: u8, msg: &[u8], t: Judged) -> Judged
    requires { (1 ≤ byte) × (byte ≤ most_bitfields) × (end ≡ 8 * byte) × (t.at ≤ 100000) }
    ensures { (judging result ≡ in_byte (judge_entry msg.now byte) message byte value (judging t)) × (result.at ≤ t.at + 2040) }
{
    let n = end + 8 - 8 * byte;
    let mut x = value;
    let mut r = Judged {
        at: t.at,
        wrong: t.wrong,
        bad: 0,
    };
    for bit in 0..n {
        r = judge_bit(message, byte, bit, x, msg, r);
        x = x / 2;
    }
    Judged {
        at: r.at,
        wrong: r.wrong,
        bad: block::first_of(t.bad, r.bad),
    }
}

// The same of any byte: its places follow from it.
fn judge_any(message: u8, byte: u8, value: u8, msg: &[u8], t: Judged) -> Judged
    requires { (1 ≤ byte) × (byte ≤ most_bitfields) × (t.at ≤ 100000) }
    ensures { (judging result ≡ in_byte (judge_entry msg.now byte) message byte value (judging t)) × (result.at ≤ t.at + 2040) }
{
    judge_bits(message, byte, 8 * byte, value, msg, t)
}

// One bitfield byte: its fields if it is there and not zero. What is left to walk after it ends as what was left before it.
fn judge_next(
    message: u8,
    byte: u8,
    end: u8,
    bits: &[u8],
    count: u8,
    msg: &[u8],
    t: Judged,
) -> Judged
    requires { (count ≤ length bits.now) × (count ≤ most_bitfields) × (1 ≤ byte) × (byte ≤ most_bitfields) × (end ≡ 8 * byte) × (t.at ≤ 2040 * (byte - 1)) }
    ensures { (judge_walk message count bits.now msg.now (all_places - 8 * byte) (8 * byte) (judging result) ≡ judge_walk message count bits.now msg.now (all_places - 8 * (byte - 1)) (8 * (byte - 1)) (judging t)) × (result.at ≤ 2040 * byte) }
{
    let value = block::byte_of(bits, count, byte);
    if value == 0 {
        return t;
    }
    judge_bits(message, byte, end, value, msg, t)
}

// New Order, in a line of calls up to the last byte that it lists, those after it being blank. The compiler knows message and byte of each call: it
// unrolls the loop over the bits and folds the dictionary away.
fn new_order_bytes(bits: &[u8], count: u8, msg: &[u8], t: Judged) -> Judged
    requires { (count ≤ length bits.now) × (count ≤ most_bitfields) × (blank_after 10 count bits.now ≡ true) × (t.at ≡ 0) }
    ensures { judging result ≡ judge_walk 0x38 count bits.now msg.now all_places 0 (judging t) }
{
    let a = judge_next(0x38, 1, 8, bits, count, msg, t);
    let b = judge_next(0x38, 2, 16, bits, count, msg, a);
    let c = judge_next(0x38, 3, 24, bits, count, msg, b);
    if count <= 3 {
        return c;
    }
    let d = judge_next(0x38, 4, 32, bits, count, msg, c);
    let e = judge_next(0x38, 5, 40, bits, count, msg, d);
    let f = judge_next(0x38, 6, 48, bits, count, msg, e);
    let g = judge_next(0x38, 7, 56, bits, count, msg, f);
    let h = judge_next(0x38, 8, 64, bits, count, msg, g);
    let i = judge_next(0x38, 9, 72, bits, count, msg, h);
    judge_next(0x38, 10, 80, bits, count, msg, i)
}

// The same of Cancel Order.
fn cancel_order_bytes(bits: &[u8], count: u8, msg: &[u8], t: Judged) -> Judged
    requires { (count ≤ length bits.now) × (count ≤ most_bitfields) × (blank_after 1 count bits.now ≡ true) × (t.at ≡ 0) }
    ensures { judging result ≡ judge_walk 0x39 count bits.now msg.now all_places 0 (judging t) }
{
    judge_next(0x39, 1, 8, bits, count, msg, t)
}

// The same of Order Acknowledgment.
fn acknowledgment_bytes(bits: &[u8], count: u8, msg: &[u8], t: Judged) -> Judged
    requires { (count ≤ length bits.now) × (count ≤ most_bitfields) × (blank_after 5 count bits.now ≡ true) × (t.at ≡ 0) }
    ensures { judging result ≡ judge_walk 0x25 count bits.now msg.now all_places 0 (judging t) }
{
    let a = judge_next(0x25, 1, 8, bits, count, msg, t);
    let b = judge_next(0x25, 2, 16, bits, count, msg, a);
    let c = judge_next(0x25, 3, 24, bits, count, msg, b);
    if count <= 3 {
        return c;
    }
    let d = judge_next(0x25, 4, 32, bits, count, msg, c);
    judge_next(0x25, 5, 40, bits, count, msg, d)
}

// The same of Order Execution.
fn execution_bytes(bits: &[u8], count: u8, msg: &[u8], t: Judged) -> Judged
    requires { (count ≤ length bits.now) × (count ≤ most_bitfields) × (blank_after 3 count bits.now ≡ true) × (t.at ≡ 0) }
    ensures { judging result ≡ judge_walk 0x2C count bits.now msg.now all_places 0 (judging t) }
{
    let a = judge_next(0x2C, 1, 8, bits, count, msg, t);
    let b = judge_next(0x2C, 2, 16, bits, count, msg, a);
    judge_next(0x2C, 3, 24, bits, count, msg, b)
}

// The line of New Order, one call further in: so the compiler folds it into its caller.
fn judge_new_order(bits: &[u8], count: u8, msg: &[u8], t: Judged) -> Judged
    requires { (count ≤ length bits.now) × (count ≤ most_bitfields) × (blank_after 10 count bits.now ≡ true) × (t.at ≡ 0) }
    ensures { judging result ≡ judge_walk 0x38 count bits.now msg.now all_places 0 (judging t) }
{
    new_order_bytes(bits, count, msg, t)
}

// The same of Order Acknowledgment.
fn judge_acknowledgment(bits: &[u8], count: u8, msg: &[u8], t: Judged) -> Judged
    requires { (count ≤ length bits.now) × (count ≤ most_bitfields) × (blank_after 5 count bits.now ≡ true) × (t.at ≡ 0) }
    ensures { judging result ≡ judge_walk 0x25 count bits.now msg.now all_places 0 (judging t) }
{
    acknowledgment_bytes(bits, count, msg, t)
}

// The same of Order Execution.
fn judge_execution(bits: &[u8], count: u8, msg: &[u8], t: Judged) -> Judged
    requires { (count ≤ length bits.now) × (count ≤ most_bitfields) × (blank_after 3 count bits.now ≡ true) × (t.at ≡ 0) }
    ensures { judging result ≡ judge_walk 0x2C count bits.now msg.now all_places 0 (judging t) }
{
    execution_bytes(bits, count, msg, t)
}

// Any message, in a loop over its bytes.
fn judge_loop(message: u8, bits: &[u8], count: u8, msg: &[u8], t: Judged) -> Judged
    requires { (count ≤ length bits.now) × (count ≤ most_bitfields) × (t.at ≡ 0) }
    ensures { judging result ≡ judge_walk message count bits.now msg.now all_places 0 (judging t) }
{
    let mut r = t;
    for j in 0..count {
        r = judge_any(message, j + 1, bits[j as usize], msg, r);
    }
    r
}

// Whether the bitfield bytes after the first k are blank.
fn is_blank_after(k: u8, bits: &[u8], count: u8) -> bool
    requires { count ≤ length bits.now }
    ensures { result ≡ blank_after k count bits.now }
{
    if count <= k {
        return true;
    }
    let start = k as usize;
    let end = count as usize;
    kinds::is_blank(&bits[start..end])
}

// Whether a message has a line of its own and its bytes after the last listed one are blank. Asked once before the lines, since a call of the loop
// at the end of each of them would cost them all.
fn is_plain(message: u8, bits: &[u8], count: u8) -> bool
    requires { count ≤ length bits.now }
    ensures { result ≡ plain message count bits.now }
{
    match message {
        0x38 => is_blank_after(10, bits, count),
        0x39 => is_blank_after(1, bits, count),
        0x25 => is_blank_after(5, bits, count),
        0x2C => is_blank_after(3, bits, count),
        _ => false,
    }
}

// All fields that the bitfield bytes select.
pub fn judge_all(message: u8, bits: &[u8], count: u8, msg: &[u8]) -> Judged
    requires { (length bits.now ≡ count) × (count ≤ most_bitfields) }
    ensures { judging result ≡ judge_walk message count bits.now msg.now all_places 0 begun }
{
    let t = Judged {
        at: 0,
        wrong: 0,
        bad: 0,
    };
    if count == 0 {
        return t;
    }
    if !is_plain(message, bits, count) {
        return judge_loop(message, bits, count, msg, t);
    }
    match message {
        0x38 => judge_new_order(bits, count, msg, t),
        0x39 => cancel_order_bytes(bits, count, msg, t),
        0x25 => judge_acknowledgment(bits, count, msg, t),
        _ => judge_execution(bits, count, msg, t),
    }
}
