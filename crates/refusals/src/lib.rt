// Why a call is refused: document 01's table, in its order, and after it document 02's. Each reason has its number, and a refusal that is about a byte of a
// message has its place too, which document 02's third request asks of 6 to 10.
#![tactic(auto)]

ghost use Rattle.std.specs.Prelude.{◌≡◌, ◌<◌, eqb};
ghost use Rattle.refusals.specs.Told.{told, number_in, place_in};
ghost use Rattle.refusals.specs.Reasons.{number_of};
ghost use Rattle.refusals.specs.Outcomes.{outcome, outcome_with, code_of};

use std::marker::Model;

// A reason to refuse.
#[derive(Clone, Copy, Debug, PartialEq, Eq, Hash)]
pub enum Reason {
    // 1: a byte present at place 0 or 1 is not BA.
    BadStart,
    // 2: four bytes are present, and the length is under 8 or over 2,046.
    BadLength,
    // 3: fewer than four bytes, or fewer than the total.
    Incomplete,
    // 4: a type unknown in this direction.
    UnknownType,
    // 5: a unit or number against the rules.
    BadUnit,
    // 6: a total unlike what the counts and widths give.
    WrongTotal,
    // 7: a bitfield count above the message's most.
    TooManyBitfields,
    // 8: a set bit that is not listed.
    UnlistedBit,
    // 9: a required field that is not selected.
    NotSelected,
    // 10: a value against its kind or range.
    BadValue,
    // 11: a login group against its rules, lengths included.
    BadGroup,
    // 12: writer: an unselected field that is not zero.
    NotZero,
    // 13: a buffer too short for the whole result.
    NoRoom,
    // 14: a unit's number at or below the table's.
    AlreadyTaken,
    // 15: a number two or more above the table's.
    Gap,
    // 16: a session call that its phase does not take.
    OutOfPhase,
    // 17: the first mark has another date than asked.
    OtherDate,
    // 18: a book neither whole nor torn.
    BadBook,
    // 19: not a calendar day of 1970 to 2099.
    NotADay,
    // 20: the outgoing number 4,294,967,295 is already used.
    NumbersUsedUp,
    // 21: venue: a nonzero number at or below the last one.
    OldNumber,
    // 22: restart on a book under 16 bytes.
    NoFirstMark,
    // 23: a lockout without its firm, or a symbol together with a matching unit: document 02's first request.
    Conflict,
    // 26: no message of a unit is in the book: document 02's ninth request.
    NoMessage,
}

impl Reason {
    // Its number.
    pub fn number(self) -> u32
        ensures { result ≡ number_of self }
    {
        match self {
            Reason::BadStart => 1,
            Reason::BadLength => 2,
            Reason::Incomplete => 3,
            Reason::UnknownType => 4,
            Reason::BadUnit => 5,
            Reason::WrongTotal => 6,
            Reason::TooManyBitfields => 7,
            Reason::UnlistedBit => 8,
            Reason::NotSelected => 9,
            Reason::BadValue => 10,
            Reason::BadGroup => 11,
            Reason::NotZero => 12,
            Reason::NoRoom => 13,
            Reason::AlreadyTaken => 14,
            Reason::Gap => 15,
            Reason::OutOfPhase => 16,
            Reason::OtherDate => 17,
            Reason::BadBook => 18,
            Reason::NotADay => 19,
            Reason::NumbersUsedUp => 20,
            Reason::OldNumber => 21,
            Reason::NoFirstMark => 22,
            Reason::Conflict => 23,
            Reason::NoMessage => 26,
        }
    }
}

// A refusal: its reason, and the place in the message of the byte that it is about, 0 where it has none. In a clause it is the number that tells both,
// which is all that it keeps: one word, so that an answer is handed back in registers.
#[derive(Clone, Copy, Debug, PartialEq, Eq, PartialOrd, Ord, Hash)]
pub struct Refusal {
    code: u32,
}

impl Model for Refusal {
    ghost use Rattle.std.specs.Prelude.{refl, ℕ};

    ghost Value = { ℕ };

    ghost use Rattle.refusals.specs.Reasons.{IsRefusal};

    ghost view = { λ r. r.code };

    ghost invariant = { λ r. IsRefusal r.code };

    ghost inverse = { λ n. record { code = n } };

    ghost inverse_ok = { λ r h. refl };
}

impl Refusal {
    // A refusal without a place.
    pub fn new(reason: Reason) -> Refusal
        ensures { result ≡ number_of reason }
    {
        Refusal {
            code: reason.number(),
        }
    }

    // A refusal about the byte at a place.
    pub fn at(reason: Reason, place: usize) -> Refusal
        requires { place < 1000000 }
        ensures { result ≡ told (number_of reason) place }
    {
        Refusal {
            code: told(reason.number(), place),
        }
    }

    // Whether it has a reason.
    pub fn is(self, reason: Reason) -> bool
        ensures { result ≡ eqb (number_in self) (number_of reason) }
    {
        number_in(self.code) == reason.number()
    }

    // Its place, 0 where it has none.
    pub fn place(self) -> u32
        ensures { result ≡ place_in self }
    {
        place_in(self.code)
    }

    // Its number in the low byte, and its place above it.
    pub fn code(self) -> u32
        ensures { result ≡ self }
    {
        self.code
    }
}

// A number and a place in one number: the number in the low byte, the place above it.
pub fn told(number: u32, place: usize) -> u32
    requires { (number < 256) × (place < 1000000) }
    ensures { result ≡ told number place }
{
    number + 256 * (place as u32)
}

// The number of a refusal that is told in one number.
pub fn number_in(refusal: u32) -> u32
    ensures { result ≡ number_in refusal }
{
    refusal % 256
}

// Its place, 0 where it has none.
pub fn place_in(refusal: u32) -> u32
    ensures { result ≡ place_in refusal }
{
    refusal / 256
}

// What a caller of C is told: 0, or the refusal's number and place.
pub fn code(r: Result<(), Refusal>) -> u32
    ensures { result ≡ code_of r }
{
    match r {
        Ok(_) => 0,
        Err(refusal) => refusal.code(),
    }
}
