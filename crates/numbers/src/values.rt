// What stands in N bytes of a buffer as one value: a number of one, two, four or eight bytes, a price, or a text of N bytes.
ghost use Rattle.std.specs.Prelude.{◌≡◌, ◌+◌, ◌≤◌, length, List, ℕ};
ghost use Rattle.numbers.specs.Numbers.{number_at, bytes_of};
ghost use Rattle.numbers.specs.Prices.{price_at, price_bytes};
ghost use Rattle.numbers.specs.Values.{text_at};

// A value of N bytes: what is read at a place, and the bytes of one that is written.
pub trait Value<const N: usize>: Copy {
    ghost held: { ℕ → List ℕ → Self };

    ghost stored: { Self → List ℕ };

    // The value that stands at a place.
    fn read(s: &[u8], at: usize) -> Self
        requires { at + N ≤ length s.now }
        ensures { result ≡ held at s.now };

    // Its bytes.
    fn bytes(self) -> [u8; N]
        ensures { result ≡ stored self };
}

impl Value<1> for u8 {
    ghost held = { number_at 1 };

    ghost stored = { bytes_of 1 };

    fn read(s: &[u8], at: usize) -> u8 {
        s[at]
    }

    fn bytes(self) -> [u8; 1] {
        self.to_le_bytes()
    }
}

impl Value<2> for u16 {
    ghost held = { number_at 2 };

    ghost stored = { bytes_of 2 };

    fn read(s: &[u8], at: usize) -> u16 {
        u16::from_le_bytes([s[at], s[at + 1]])
    }

    fn bytes(self) -> [u8; 2] {
        self.to_le_bytes()
    }
}

impl Value<4> for u32 {
    ghost held = { number_at 4 };

    ghost stored = { bytes_of 4 };

    fn read(s: &[u8], at: usize) -> u32 {
        u32::from_le_bytes([s[at], s[at + 1], s[at + 2], s[at + 3]])
    }

    fn bytes(self) -> [u8; 4] {
        self.to_le_bytes()
    }
}

impl Value<8> for u64 {
    ghost held = { number_at 8 };

    ghost stored = { bytes_of 8 };

    fn read(s: &[u8], at: usize) -> u64 {
        crate::read_u64(s, at)
    }

    fn bytes(self) -> [u8; 8] {
        self.to_le_bytes()
    }
}

// A price.
impl Value<8> for i64 {
    ghost held = { price_at };

    ghost stored = { price_bytes };

    fn read(s: &[u8], at: usize) -> i64 {
        crate::prices::read_price(s, at)
    }

    fn bytes(self) -> [u8; 8] {
        crate::prices::bits(self).to_le_bytes()
    }
}

// A text is its bytes.
impl<const N: usize> Value<N> for [u8; N] {
    ghost held = { text_at N };

    ghost stored = { λ text. text };

    fn read(s: &[u8], at: usize) -> [u8; N] {
        let mut text = [0u8; N];
        text.copy_from_slice(&s[at..at + N]);
        text
    }

    fn bytes(self) -> [u8; N] {
        self
    }
}
