// A field's value as 64 bytes, the lowest of a number first, with zeros after them; and from such bytes.
ghost use Rattle.std.specs.Prelude.{◌≤◌};

use numbers::values::Value;

// The bytes of a field that is selected, into the front of a buffer that has room for them.
pub fn give<T: Value<N>, const N: usize>(field: Option<T>, value: &mut [u8]) -> bool
    requires { N ≤ 64 }
{
    let Some(held) = field else {
        return false;
    };
    crate::fill(&held.bytes(), value);
    true
}

// The value that the first bytes are.
pub fn take<T: Value<N>, const N: usize>(bytes: [u8; 64]) -> T
    requires { N ≤ 64 }
{
    T::read(&bytes, 0)
}
