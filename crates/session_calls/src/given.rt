// What a desk gives a login, from the 87 bytes in which it is lent, and the login written from it.
ghost use Rattle.std.specs.Prelude.{◌≡◌, ◌+◌, ◌≤◌, length};
ghost use Rattle.refusals.specs.Outcomes.{outcome};
ghost use Rattle.session_messages.specs.Sessions.{record_refusal, record_buffer};
ghost use Rattle.book_calls.specs.BookBytes.{book_of};
ghost use Rattle.session_calls.specs.LoginBytes.{bits_in, choice_in, given_record};

use refusals::Refusal;
use session_logins::{Bitfields, Choice};
use table::Unit;

// The bitfields of a message type, from a place on.
fn bits_in(at: usize, given: &[u8]) -> Bitfields
    requires { (at ≤ 70) × (at + 17 ≤ length given.now) }
    ensures { result ≡ bits_in at given.now }
{
    let mut bits = [0u8; 15];
    block::copy(&given[at + 2..at + 17], &mut bits);
    Bitfields {
        given: numbers::byte_at(given, at) != 0,
        count: numbers::byte_at(given, at + 1),
        bits: bits,
    }
}

// The choice of units.
fn choice_in(given: &[u8]) -> Choice
    ensures { result ≡ choice_in given.now }
{
    let mut units = [Unit(0); 32];
    for i in 0..32 {
        units[i] = Unit(numbers::byte_at(given, 55 + i));
    }
    Choice {
        which: numbers::byte_at(given, 52),
        flag: numbers::byte_at(given, 53),
        count: numbers::byte_at(given, 54),
        units: units,
    }
}

// Writes the login that is given, with the numbers of a state's table: Ok; or 10, 11 or 13, and the buffer is as it was.
pub fn write_given(given: &[u8], state: &[u8], out: &mut [u8]) -> Result<(), Refusal>
    requires { 87 ≤ length given.now }
    ensures { (result ≡ outcome (record_refusal (given_record (book_of state.now).table given.now) (length out.old))) × (out.new ≡ record_buffer (given_record (book_of state.now).table given.now) out.old) }
{
    let table = book_calls::books::table_in(state);
    let choice = choice_in(given);
    let mut names = [0u8; 18];
    block::copy(&given[0..18], &mut names);
    let acknowledgments = bits_in(18, given);
    let executions = bits_in(35, given);
    session_logins::write_login(table, choice, names, acknowledgments, executions, out)
}
