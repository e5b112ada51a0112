// What a login asks of each unit, and the record of the Login Response.
ghost use Rattle.std.specs.Prelude.{◌≡◌, ◌∷◌, ◌+◌, ◌≤◌, length};
ghost use Rattle.numbers.specs.Numbers.{patched};
ghost use Rattle.session_groups.specs.Values.{pairs_bytes};
ghost use Rattle.session_logins.specs.LoginRequests.{up_from, pairs_for};
ghost use Rattle.session_fields.specs.AskedFor.{flag_of, asked_above};
ghost use Rattle.venue.specs.Venues.{thresholds_of, accepted_text};
ghost use Rattle.venue.specs.VenueStages.{lists_part, counted_part, answer_part, answer_record};

use crate::{Thresholds, Venue};
use session_messages::Record;
use table::{Table, Unit, UnitNumber};

// The flag of a login's group of units: 0 where no such group came.
fn flag_of(r: Record) -> u8
    ensures { result ≡ flag_of r }
{
    session_fields::login_request::flag(r).unwrap_or(0)
}

// The number above which a login wants a unit's messages.
#[tactic(auto, unfolding(session_fields::specs::AskedFor::asked_above))]
pub fn threshold(r: Record, unit: u8) -> u32
    ensures { result ≡ asked_above r unit }
{
    if let Some(number) = session_fields::login_request::listed(r, Unit(unit)) {
        return number.0;
    }
    if flag_of(r) == 1 {
        return u32::MAX;
    }
    0
}

// These numbers of all 32 units.
pub fn thresholds(r: Record) -> Thresholds
    ensures { result ≡ thresholds_of r }
{
    let mut t = Thresholds::new();
    for i in 0..32 {
        t.numbers[i] = UnitNumber(threshold(r, (i + 1) as u8));
    }
    t
}

// The pairs of all 32 units into the front of a lent tail.
pub fn put_pairs(table: Table, tail: &mut [u8])
    requires { 160 ≤ length tail.old }
    ensures { tail.new ≡ patched tail.old 0 (pairs_bytes (pairs_for table (up_from 32 1))) }
{
    let all = session_logins::all_units();
    session_logins::put_pairs(table, all, 32, tail);
}

// The pairs, and the login's groups after them.
pub fn put_lists(table: Table, groups: &[u8], tail: &mut [u8])
    requires { 160 + length groups.now ≤ length tail.old }
    ensures { tail.new ≡ patched tail.old 0 (lists_part table groups.now) }
{
    put_pairs(table, tail);
    block::copy(groups, &mut tail[160..]);
}

// The flag, the last number that a venue received, the count of pairs, and these.
pub fn put_counted(v: Venue, flag: u8, groups: &[u8], tail: &mut [u8])
    requires { 166 + length groups.now ≤ length tail.old }
    ensures { tail.new ≡ patched tail.old 0 (counted_part flag v.received.0 v.table groups.now) }
{
    tail[0] = flag;
    let _ = numbers::write_u32(tail, 1, v.received.0); // it fits
    tail[5] = 32;
    put_lists(v.table, groups, &mut tail[6..]);
}

// The status A and its text.
pub fn put_status(tail: &mut [u8])
    requires { 61 ≤ length tail.old }
    ensures { tail.new ≡ patched tail.old 0 (65 ∷ accepted_text) }
{
    let mut status = [0u8; 61];
    block::copy(b"AAccepted", &mut status);
    block::copy(&status, tail);
}

// A Login Response's body into the front of a buffer.
pub fn put_answer(v: Venue, flag: u8, groups: &[u8], out: &mut [u8])
    requires { 227 + length groups.now ≤ length out.old }
    ensures { out.new ≡ patched out.old 0 (answer_part flag v.received.0 v.table groups.now) }
{
    put_status(out);
    put_counted(v, flag, groups, &mut out[61..]);
}

// The record of the Login Response to a login, by its record, its groups' count and their bytes.
pub fn response(v: Venue, r: Record, groups: &[u8]) -> Record
    requires { length groups.now ≤ 206 }
    ensures { result ≡ answer_record v r groups.now }
{
    let mut body = [0u8; 433];
    put_answer(v, flag_of(r), groups, &mut body);
    Record {
        message: 0x24,
        unit: 0,
        number: 0,
        body: body,
    }
}
