// The bench venue from the bytes in which a caller keeps it, and into them.
ghost use Rattle.std.specs.Prelude.{◌≡◌, ◌≤◌, length};
ghost use Rattle.numbers.specs.Numbers.{patched};
ghost use Rattle.refusals.specs.Outcomes.{outcome, outcome_with};
ghost use Rattle.venue_calls.specs.VenueBytes.{called, thresholds_at, wants_bytes, venue_of, venue_bytes};

use book::Book;
use numbers::values::Value;
use refusals::{Reason, Refusal};
use table::{OutgoingNumber, UnitNumber};
use venue::{Thresholds, Venue};

// What the login wants of each unit, in a state.
fn thresholds_in(state: &[u8]) -> Thresholds
    requires { 402 ≤ length state.now }
    ensures { result ≡ (venue_of state.now).thresholds }
{
    let mut t = Thresholds::new();
    for i in 0..32 {
        t.numbers[i] = UnitNumber(u32::read(state, 272 + 4 * i));
    }
    t
}

// Whether a state can hold a venue: Ok; or 13 where it is under 402 bytes.
pub fn check_size(state: &[u8]) -> Result<(), Refusal>
    ensures { result ≡ outcome (called state.now 0) }
{
    if state.len() < 402 {
        return Err(Refusal::new(Reason::NoRoom));
    }
    Ok(())
}

// The venue of a state; or 13 where it is under 402 bytes.
pub fn load(state: &[u8]) -> Result<Venue, Refusal>
    ensures { result ≡ outcome_with (called state.now 0) (venue_of state.now) }
{
    check_size(state)?;
    let e = book_calls::books::extent_in(state);
    Ok(Venue {
        running: numbers::byte_at(state, 400) != 0,
        told: numbers::byte_at(state, 401) != 0,
        at: e.date,
        upto: e.last,
        length: e.length,
        received: OutgoingNumber(e.count),
        thresholds: thresholds_in(state),
        table: book_calls::books::table_in(state),
    })
}

// What the login wants of each unit, into a state.
fn store_thresholds(t: Thresholds, state: &mut [u8])
    requires { 402 ≤ length state.old }
    ensures { state.new ≡ patched state.old thresholds_at (wants_bytes 32 0 t.numbers) }
{
    for i in 0..32 {
        book_calls::books::put_number(state, 272 + 4 * i, t.numbers[i].0);
    }
}

// A venue into the front of a state.
pub fn store(v: Venue, state: &mut [u8])
    requires { 402 ≤ length state.old }
    ensures { state.new ≡ patched state.old 0 (venue_bytes v) }
{
    let front = Book {
        table: v.table,
        date: v.at,
        length: v.length,
        last: v.upto,
        count: v.received.0,
    };
    book_calls::books::store(front, state);
    store_thresholds(v.thresholds, state);
    state[400] = v.running as u8;
    state[401] = v.told as u8;
}
