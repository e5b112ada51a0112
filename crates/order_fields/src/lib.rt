// A record's fields by name, read and set. A getter answers the field's value where it is selected, and else `None`.
// In a record of another type no field is selected. A module for each message; `reading` has how a field is read,
// and how one is set stands here.
#![tactic(auto)]

pub mod acknowledgment;
pub mod cancel_order;
pub mod cancel_rejection;
pub mod execution;
pub mod modify_order;
pub mod modify_rejection;
pub mod new_order;
pub mod options_order;
pub mod purge_orders;
mod reading;
pub mod rejection;

ghost use Rattle.std.specs.Prelude.{◌≡◌, ◌+◌, ◌≤◌, ◌<◌, length, IfSome};
ghost use Rattle.dictionary.specs.Dictionary.{entry_of};
ghost use Rattle.block.specs.Places.{bit_set};
ghost use Rattle.order_fields.specs.Named.{place_in, with_bit, selecting, storing, fixing, settable_of, setting_of, fixing_of};
ghost use Rattle.numbers.specs.Numbers.{patched};
ghost use Rattle.block.specs.Sizes.{fixed_size, most_bitfields, layout_size};

use dictionary::Entry;
use numbers::values::Value;
use orders::Record;

// Whether a bit of a byte is set, counted from 0.
fn bit_set(x: u8, bit: u8) -> bool
    requires { bit < 8 }
    ensures { result ≡ bit_set x bit }
{
    (x >> bit) % 2 == 1
}

// Where a listed bit's field stands in the full layout, if it has this width.
#[tactic(auto, using(crate::specs::NamedLaws::placed, crate::specs::NamedLaws::misplaced, crate::specs::NamedLaws::unlisted, block::proofs::Dictionaries::field_fits))]
fn place(message: u8, byte: u8, bit: u8, width: usize) -> Option<usize>
    ensures { (result ≡ place_in width (entry_of message byte bit)) × IfSome result (λ at. at + width ≤ layout_size) }
{
    let e = dictionary::entry_of(message, byte, bit);
    match e {
        Entry::Field {
            width: w,
            kind: _,
            place: p,
        } => {
            if w as usize == width {
                return Some(p as usize);
            }
            None
        }
        Entry::Refused => None,
    }
}

// A byte with a bit set.
#[tactic(auto, using(crate::proofs::Answers::room, crate::proofs::Answers::weight), unfolding(crate::specs::Named::with_bit))]
fn with_bit(x: u8, bit: u8) -> u8
    requires { bit < 8 }
    ensures { result ≡ with_bit x bit }
{
    if bit_set(x, bit) {
        return x;
    }
    x + (1 << bit)
}

// The record with a bit set in its bitfields, and the count raised to its byte where it was less.
#[tactic(auto, unfolding(crate::specs::Named::selecting))]
fn with_selected(r: Record, byte: u8, bit: u8) -> Record
    requires { (1 ≤ byte) × (byte ≤ most_bitfields) × (bit < 8) }
    ensures { result ≡ selecting byte bit r }
{
    let mut bits = r.bits;
    let j = byte - 1;
    let x = with_bit(bits[j as usize], bit);
    bits[j as usize] = x;
    let count = r.count.max(byte);
    Record {
        count: count,
        bits: bits,
        ..r
    }
}

// Bytes put at a place of a buffer that has room for them.
fn put_at(to: &mut [u8], at: usize, bytes: &[u8])
    requires { at + length bytes.now ≤ length to.old }
    ensures { to.new ≡ patched to.old at bytes.now }
{
    block::copy(bytes, &mut to[at..]);
}

// The record with bytes in its full layout.
#[tactic(auto, unfolding(crate::specs::Named::storing))]
fn with_slot(r: Record, at: usize, bytes: &[u8]) -> Record
    requires { at + length bytes.now ≤ layout_size }
    ensures { result ≡ storing at bytes.now r }
{
    let mut slots = r.slots;
    put_at(&mut slots, at, bytes);
    Record { slots: slots, ..r }
}

// The record with bytes in its fixed part.
#[tactic(auto, unfolding(crate::specs::Named::fixing))]
fn with_part(r: Record, at: usize, bytes: &[u8]) -> Record
    requires { at + length bytes.now ≤ fixed_size }
    ensures { result ≡ fixing at bytes.now r }
{
    let mut part = r.fixed;
    put_at(&mut part, at, bytes);
    Record { fixed: part, ..r }
}

// Where a listed bit's field stands in a record of a type, selected or not.
#[tactic(auto, unfolding(crate::specs::Named::settable_of))]
fn settable(r: Record, message: u8, byte: u8, bit: u8, width: usize) -> Option<usize>
    ensures { (result ≡ settable_of message byte bit width r) × IfSome result (λ at. at + width ≤ layout_size) }
{
    if r.message == message {
        return place(message, byte, bit, width);
    }
    None
}

// The record with an optional field selected and set.
fn set_optional<T: Value<N>, const N: usize>(
    r: Record,
    message: u8,
    byte: u8,
    bit: u8,
    value: T,
) -> Record
    requires { (1 ≤ byte) × (byte ≤ most_bitfields) × (bit < 8) × (N ≤ layout_size) }
    ensures { result ≡ setting_of message byte bit (T.stored value) r }
{
    let bytes = value.bytes();
    match settable(r, message, byte, bit, N) {
        Some(at) => with_selected(with_slot(r, at, &bytes), byte, bit),
        None => r,
    }
}

// The record with a field of the fixed part set.
#[tactic(auto, unfolding(crate::specs::Named::fixing_of))]
fn set_fixed<T: Value<N>, const N: usize>(r: Record, message: u8, at: usize, value: T) -> Record
    requires { at + N ≤ fixed_size }
    ensures { result ≡ fixing_of message at (T.stored value) r }
{
    if r.message == message {
        return with_part(r, at, &value.bytes());
    }
    r
}
