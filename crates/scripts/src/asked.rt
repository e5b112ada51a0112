// The login of a question: the choice of units, the names, and the bitfields of two types.
ghost use Rattle.std.specs.Prelude.{◌≤◌};

use crate::parts;
use asking::words;
use session_logins::{Bitfields, Choice};
use table::Unit;

// `WHICH FLAG COUNT UNITS`, the words after the first: a choice of units, a byte each.
pub fn read_units(line: &[u8]) -> Option<Choice> {
    let which = words::read_number(words::word(line, 1), 255)? as u8;
    let flag = words::read_number(words::word(line, 2), 255)? as u8;
    let count = words::read_number(words::word(line, 3), 255)? as u8;
    let numbers: [u8; 32] = parts::read_exactly(words::word(line, 4))?;
    let mut units = [Unit(0); 32];
    for (i, number) in numbers.iter().enumerate() {
        units[i] = Unit(*number);
    }
    Some(Choice {
        which,
        flag,
        count,
        units,
    })
}

// `GIVEN COUNT BITS`, the words after k others: the bitfields of a type.
pub fn read_bits(line: &[u8], k: usize) -> Option<Bitfields>
    requires { k ≤ 16 }
{
    let given = words::read_number(words::word(line, k), 1)? == 1;
    let count = words::read_number(words::word(line, k + 1), 255)? as u8;
    let bits = parts::read_exactly(words::word(line, k + 2))?;
    Some(Bitfields { given, count, bits })
}
