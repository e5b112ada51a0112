// The parts of questions and answers that the member's and the venue's have in common.
ghost use Rattle.std.specs.Prelude.{◌≤◌};

use asking::{words, writing};
use orders::Market;
use std::io;
use table::{Entry, Place, Table, Unit, UnitNumber};
use venue::Thresholds;

// A word of exactly so many bytes.
pub fn read_exactly<const N: usize>(word: &[u8]) -> Option<[u8; N]> {
    let mut bytes = [0; N];
    let n = words::read_bytes(word, &mut bytes)?;
    if n == N { Some(bytes) } else { None }
}

// A word as a market.
pub fn read_market(word: &[u8]) -> Option<Market> {
    match words::read_number(word, 1)? {
        0 => Some(Market::Equities),
        _ => Some(Market::Options),
    }
}

// The words from the one after k others on, as four numbers.
pub fn read_four(line: &[u8], k: usize) -> Option<[u32; 4]>
    requires { k ≤ 16 }
{
    let mut four = [0; 4];
    for i in 0..4 {
        four[i] = words::read_number(words::word(line, k + i), 4294967295)? as u32;
    }
    Some(four)
}

// A word of exactly 128 bytes as 32 numbers.
fn read_numbers(word: &[u8]) -> Option<[u32; 32]> {
    let bytes: [u8; 128] = read_exactly(word)?;
    let mut numbers = [0; 32];
    for i in 0..32 {
        numbers[i] = numbers::read_u32(&bytes, 4 * i);
    }
    Some(numbers)
}

// The words after k others as a table: its numbers, then its places.
pub fn read_table(line: &[u8], k: usize) -> Option<Table>
    requires { k ≤ 16 }
{
    let numbers = read_numbers(words::word(line, k))?;
    let places = read_numbers(words::word(line, k + 1))?;
    let mut table = Table::new();
    for i in 0..32 {
        table.entries[i] = Entry {
            last: UnitNumber(numbers[i]),
            place: Place(places[i]),
        };
    }
    Some(table)
}

// A word as thresholds.
pub fn read_thresholds(word: &[u8]) -> Option<Thresholds> {
    let numbers = read_numbers(word)?;
    let mut thresholds = Thresholds::new();
    for i in 0..32 {
        thresholds.numbers[i] = UnitNumber(numbers[i]);
    }
    Some(thresholds)
}

// The sum of a number of each unit.
pub fn sum<F: Fn(Unit) -> u32>(number: F) -> u64
    requires { F.IsAlwaysCallable number }
{
    let mut total = 0;
    for u in 0..32u8 {
        total += number(Unit(u + 1)) as u64;
    }
    total
}

// A number of each unit, 4 bytes each, after a space.
fn next_numbers<F: Fn(Unit) -> u32>(rt: &impl Print, number: F) -> io::Result<()>
    requires { F.IsAlwaysCallable number }
{
    let mut bytes = [0u8; 128];
    for u in 0..32u8 {
        let _ = numbers::write_u32(&mut bytes, 4 * (u as usize), number(Unit(u + 1)));
    }
    output(rt, &bytes)
}

// The sums of a table's numbers and of its places, each after a space.
pub fn next_sums(rt: &impl Print, t: Table) -> io::Result<()> {
    let numbers = sum(|unit| t.entry(unit).last.0);
    let places = sum(|unit| t.entry(unit).place.0);
    print!(rt; " {numbers} {places}")
}

// The first bytes of a buffer, as many as a length says or as there are, and a table's numbers and places.
pub fn stored(rt: &impl Print, buffer: &[u8], length: u32, t: Table) -> io::Result<()> {
    let n = buffer.len().min(length as usize);
    writing::hex(rt, &buffer[..n])?;
    next_numbers(rt, |unit| t.entry(unit).last.0)?;
    next_numbers(rt, |unit| t.entry(unit).place.0)
}

// A space and bytes: an output buffer after the call.
pub fn output(rt: &impl Print, out: &[u8]) -> io::Result<()> {
    rt.print(" ")?;
    writing::hex(rt, out)
}
