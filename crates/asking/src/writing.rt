// What an answer is written with. What goes out to standard output no contract can say; the text that is made before it goes out, of bytes in hex
// and of a price's decimals, has its equation.
ghost use Rattle.std.specs.Prelude.{◌≡◌, ◌+◌, ◌*◌, ◌≤◌, ◌<◌, length};
ghost use Rattle.numbers.specs.Numbers.{patched};
ghost use Rattle.asking.specs.Spelling.{capital, hex_of, decimals_of};

use refusals::Refusal;
use std::io;

// Bytes as they are.
pub fn text(rt: &impl Print, s: &[u8]) -> io::Result<()> {
    rt.write_all(s)
}

// The end of an answer.
pub fn line_end(rt: &impl Print) -> io::Result<()> {
    text(rt, b"\n")
}

// The answer to a line that is no question.
pub fn unknown(rt: &impl Print) -> io::Result<()> {
    text(rt, b"?\n")
}

// A number in decimal digits.
pub fn decimal(rt: &impl Print, n: u64) -> io::Result<()> {
    rt.print(n)
}

// A space and a number.
pub fn next_decimal(rt: &impl Print, n: u64) -> io::Result<()> {
    print!(rt; " {n}")
}

// What a call answered that may be refused: 0, or its refusal.
pub fn outcome<T>(rt: &impl Print, r: &Result<T, Refusal>) -> io::Result<()> {
    match r {
        Ok(_) => refusal(rt, 0),
        Err(told) => refusal(rt, told.code()),
    }
}

// A refusal as C is told it: its number in the low byte, and after an @ its place where it has one.
pub fn refusal(rt: &impl Print, r: u32) -> io::Result<()> {
    let number = refusals::number_in(r);
    let place = refusals::place_in(r);
    if place == 0 {
        rt.print(number)
    } else {
        print!(rt; "{number}@{place}")
    }
}

// 1 for yes and 0 for no.
pub fn yes_or_no(rt: &impl Print, yes: bool) -> io::Result<()> {
    rt.print(u8::from(yes))
}

// A capital hex digit.
fn glyph(d: u8) -> u8
    requires { d < 16 }
    ensures { result ≡ capital d }
{
    if d < 10 {
        return 48 + d;
    }
    55 + d
}

// The hex digits of bytes, into the front of a buffer that has room for them. By hand and not by `{:02X}`: `hex_of` in the contract tells what stands in a
// buffer, and what a format writes out no contract tells.
fn spell(s: &[u8], out: &mut [u8])
    requires { 2 * length s.now ≤ length out.old }
    ensures { out.new ≡ patched out.old 0 (hex_of s.now) }
{
    for (i, b) in s.iter().enumerate() {
        out[2 * i] = glyph(*b / 16);
        out[2 * i + 1] = glyph(*b % 16);
    }
}

// The digits of at most 4,096 bytes.
fn part(rt: &impl Print, s: &[u8]) -> io::Result<()>
    requires { length s.now ≤ 4096 }
{
    let mut out = [0u8; 8192];
    spell(s, &mut out);
    let n = 2 * s.len();
    text(rt, &out[0..n])
}

// Bytes in capital hex, `-` for none.
pub fn hex(rt: &impl Print, s: &[u8]) -> io::Result<()> {
    if s.is_empty() {
        return rt.print("-");
    }
    for piece in s.chunks(4096) {
        part(rt, piece)?;
    }
    Ok(())
}

// A price in ten-thousandths, with its four decimals.
pub fn price(rt: &impl Print, p: i64) -> io::Result<()> {
    if p < 0 {
        rt.print("-")?;
    }
    magnitude(rt, p.unsigned_abs())
}

// The point and the four decimals of a count of ten-thousandths. By hand and not by `{:04}`, so that the contract has their equation, `decimals_of`.
fn decimals(m: u64) -> [u8; 5]
    ensures { result ≡ decimals_of m }
{
    [
        b'.',
        48 + ((m / 1000 % 10) as u8),
        48 + ((m / 100 % 10) as u8),
        48 + ((m / 10 % 10) as u8),
        48 + ((m % 10) as u8),
    ]
}

// A count of ten-thousandths, with its four decimals and no sign.
fn magnitude(rt: &impl Print, m: u64) -> io::Result<()> {
    decimal(rt, m / 10000)?;
    let out = decimals(m);
    text(rt, &out)
}
