// A price: 8 bytes, two's complement, told in ten-thousandths.
ghost use Rattle.std.specs.Prelude.{◌≡◌};
ghost use Rattle.numbers.specs.Numbers.{bytes_of, put_refusal, put_buffer};
ghost use Rattle.numbers.specs.Prices.{signed_of, bits_of, price_at};
ghost use Rattle.refusals.specs.Outcomes.{outcome};

use refusals::Refusal;

// The 64 bits of a number with a sign.
pub fn bits(p: i64) -> u64
    ensures { result ≡ bits_of p }
{
    p.cast_unsigned()
}

// The price in the eight bytes from a place on.
pub fn read_price(s: &[u8], at: usize) -> i64
    ensures { result ≡ price_at at s.now }
{
    crate::read_u64(s, at).cast_signed()
}

// A price written at a place.
pub fn write_price(out: &mut [u8], at: usize, p: i64) -> Result<(), Refusal>
    ensures { (result ≡ outcome (put_refusal out.old at (bytes_of 8 (bits_of p)))) × (out.new ≡ put_buffer out.old at (bytes_of 8 (bits_of p))) }
{
    crate::write_u64(out, at, bits(p))
}
