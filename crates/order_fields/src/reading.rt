// A field of a record by its place, read: an optional one by its bitfield byte and bit, one of the fixed part by where it stands there.
ghost use Rattle.std.specs.Prelude.{◌≡◌, ◌+◌, ◌≤◌, ◌<◌, IfSome};
ghost use Rattle.order_fields.specs.Named.{selected_of, optional_of, fixed_of, value_in};
ghost use Rattle.block.specs.Sizes.{fixed_size, most_bitfields, layout_size};

use numbers::values::Value;
use orders::Record;

// Whether a record is of a type and its bitfields select a bit.
#[tactic(auto, unfolding(crate::specs::Named::selected_of))]
fn is_selected(r: Record, message: u8, byte: u8, bit: u8) -> bool
    requires { (1 ≤ byte) × (byte ≤ most_bitfields) × (bit < 8) }
    ensures { result ≡ selected_of message byte bit r }
{
    if r.message != message {
        return false;
    }
    if byte <= r.count {
        let bits = r.bits;
        let j = byte - 1;
        return crate::bit_set(bits[j as usize], bit);
    }
    false
}

// Where a record's optional field stands.
#[tactic(auto, unfolding(crate::specs::Named::optional_of))]
fn place_of(r: Record, message: u8, byte: u8, bit: u8, width: usize) -> Option<usize>
    requires { (1 ≤ byte) × (byte ≤ most_bitfields) × (bit < 8) }
    ensures { (result ≡ optional_of message byte bit width r) × IfSome result (λ at. at + width ≤ layout_size) }
{
    if is_selected(r, message, byte, bit) {
        return crate::place(message, byte, bit, width);
    }
    None
}

// An optional field, by its bitfield byte and bit.
pub(crate) fn optional<T: Value<N>, const N: usize>(
    r: Record,
    message: u8,
    byte: u8,
    bit: u8,
) -> Option<T>
    requires { (1 ≤ byte) × (byte ≤ most_bitfields) × (bit < 8) }
    ensures { result ≡ value_in T.held (optional_of message byte bit N r) r.slots }
{
    let at = place_of(r, message, byte, bit, N)?;
    Some(T::read(&r.slots, at))
}

// A field of the fixed part, by its place there.
#[tactic(auto, unfolding(crate::specs::Named::fixed_of))]
pub(crate) fn fixed<T: Value<N>, const N: usize>(r: Record, message: u8, at: usize) -> Option<T>
    requires { at + N ≤ fixed_size }
    ensures { result ≡ value_in T.held (fixed_of message at r) r.fixed }
{
    if r.message == message {
        return Some(T::read(&r.fixed, at));
    }
    None
}
