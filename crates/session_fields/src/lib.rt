// The fields of the session messages by name, read and set. A getter answers the value in a record of the getter's type, and else `None`.
// A setter leaves a record of another type as it is. A module for each message; how fields, pairs and groups are read and fields set stands here.
#![tactic(auto)]

pub mod login_request;
pub mod login_response;
pub mod logout;

ghost use Rattle.std.specs.Prelude.{◌≡◌, ◌+◌, ◌≤◌};
ghost use Rattle.numbers.specs.Numbers.{put_buffer};
ghost use Rattle.session_fields.specs.SessionFields.{value_of, outgoing_of, pair_at, has_pair, pair_of, storing, setting_of};
ghost use Rattle.session_fields.specs.SessionFields.{group_is, group_from, request_group, response_group, group_flag, has_entry, group_pair, listed_from, group_listed, response_groups, front_of, has_bits, group_bits};

use numbers::values::Value;
use session_messages::Record;
use table::{OutgoingNumber, Unit, UnitNumber};

// A unit and its last number.
#[derive(Clone, Copy)]
pub struct Pair {
    pub unit: Unit,
    pub number: UnitNumber,
}

// A group's bitfields: their count, and the bytes, zero after them.
#[derive(Clone, Copy)]
pub struct Bits {
    pub count: u8,
    pub bits: [u8; 15],
}

// The value at a place of a message of the type.
fn value_of<T: Value<N>, const N: usize>(r: Record, message: u8, at: usize) -> Option<T>
    requires { at + N ≤ 433 }
    ensures { result ≡ value_of T.held message at r }
{
    if r.message == message {
        return Some(T::read(&r.body, at));
    }
    None
}

// The outgoing number at a place of a message of the type.
fn outgoing_of(r: Record, message: u8, at: usize) -> Option<OutgoingNumber>
    requires { at + 4 ≤ 433 }
    ensures { result ≡ outgoing_of message at r }
{
    let number = value_of(r, message, at)?;
    Some(OutgoingNumber(number))
}

// The pair at a place.
fn pair_at(s: &[u8], at: usize) -> Pair
    requires { at ≤ 70000 }
    ensures { result ≡ pair_at at s.now }
{
    Pair {
        unit: Unit(numbers::byte_at(s, at)),
        number: UnitNumber(numbers::read_u32(s, at + 1)),
    }
}

// Whether a message of the type has pair i of those whose count stands at a place.
fn has_pair(r: Record, message: u8, at: u8, i: u8) -> bool
    ensures { result ≡ has_pair message at i r }
{
    r.message == message && i < numbers::byte_at(&r.body, at as usize) && i < 32
}

// Pair i of those whose count stands at a place of a message of the type.
#[tactic(auto, unfolding(crate::specs::SessionFields::pair_of))]
fn pair_of(r: Record, message: u8, at: u8, i: u8) -> Option<Pair>
    ensures { result ≡ pair_of message at i r }
{
    if has_pair(r, message, at, i) {
        return Some(pair_at(&r.body, at as usize + 1 + 5 * (i as usize)));
    }
    None
}

// Whether the group at a place is of type t and, if that is 0x81, for the message type x.
fn is_group(t: u8, x: u8, at: u32, s: &[u8]) -> bool
    ensures { result ≡ group_is t x at s.now }
{
    if numbers::byte_at(s, at as usize + 2) != t {
        return false;
    }
    if t == 0x80 {
        return true;
    }
    numbers::byte_at(s, at as usize + 3) == x
}

// The place of the first such of n groups from a place of the body on.
fn find_group(n: u8, t: u8, x: u8, from: u16, s: &[u8]) -> Option<u16>
    ensures { result ≡ group_from n t x from s.now }
{
    let mut at = from as u32;
    for _ in 0..n {
        if 433 <= at {
            return None;
        }
        if is_group(t, x, at, s) {
            return Some(at as u16);
        }
        at += numbers::read_u16(s, at as usize) as u32;
    }
    None
}

// The same of a Login Request's groups.
fn request_group(r: Record, t: u8, x: u8) -> Option<u16>
    ensures { result ≡ request_group t x r }
{
    let body = r.body;
    if r.message == 0x37 {
        return find_group(numbers::byte_at(&body, 18), t, x, 19, &body);
    }
    None
}

// The same of a Login Response's groups, which follow its pairs.
fn response_group(r: Record, t: u8, x: u8) -> Option<u16>
    ensures { result ≡ response_group t x r }
{
    let body = r.body;
    if r.message == 0x24 {
        let at = 67 + 5 * (numbers::byte_at(&body, 66) as u16);
        return find_group(numbers::byte_at(&body, at as usize), t, x, at + 1, &body);
    }
    None
}

// The number of a Login Response's groups.
#[tactic(auto, unfolding(crate::specs::SessionFields::response_groups))]
fn response_groups(r: Record) -> Option<u8>
    ensures { result ≡ response_groups r }
{
    let body = r.body;
    if r.message == 0x24 {
        let at = 67 + 5 * (numbers::byte_at(&body, 66) as usize);
        return Some(numbers::byte_at(&body, at));
    }
    None
}

// The flag of the units' group, by its place.
#[tactic(auto, unfolding(crate::specs::SessionFields::group_flag))]
fn group_flag(r: Record, group: Option<u16>) -> Option<u8>
    ensures { result ≡ group_flag group r }
{
    let at = group?;
    Some(numbers::byte_at(&r.body, at as usize + 3))
}

// Whether the units' group at a place has pair i.
fn has_entry(at: u16, i: u8, s: &[u8]) -> bool
    ensures { result ≡ has_entry at i s.now }
{
    i < numbers::byte_at(s, at as usize + 4) && i < 32
}

// Pair i of the units' group.
#[tactic(auto, unfolding(crate::specs::SessionFields::group_pair))]
fn group_pair(r: Record, group: Option<u16>, i: u8) -> Option<Pair>
    ensures { result ≡ group_pair group i r }
{
    let at = group?;
    if has_entry(at, i, &r.body) {
        return Some(pair_at(&r.body, at as usize + 5 + 5 * (i as usize)));
    }
    None
}

// The first of n pairs that is for a unit: its place among the pairs.
fn find_listed(n: u8, unit: u8, at: u32, s: &[u8]) -> Option<u8>
    ensures { result ≡ listed_from n unit 0 at s.now }
{
    for i in 0..n {
        if numbers::byte_at(s, at as usize + 5 * (i as usize)) == unit {
            return Some(i);
        }
    }
    None
}

// The number that the units' group lists for a unit.
#[tactic(auto, unfolding(crate::specs::SessionFields::group_listed))]
fn group_listed(r: Record, group: Option<u16>, unit: Unit) -> Option<UnitNumber>
    ensures { result ≡ group_listed group unit.0 r }
{
    let body = r.body;
    let at = group?;
    let i = find_listed(
        numbers::byte_at(&body, at as usize + 4),
        unit.0,
        at as u32 + 5,
        &body,
    )?;
    let number = numbers::read_u32(&body, at as usize + 6 + 5 * (i as usize));
    Some(UnitNumber(number))
}

// The first n bytes of s from a place on, into the front of a buffer, where there are as many and it has room for them.
fn lift_front(n: usize, at: usize, s: &[u8], to: &mut [u8])
    ensures { to.new ≡ front_of n at s.now to.old }
{
    if s.len() < at {
        return;
    }
    if s.len() - at < n {
        return;
    }
    if to.len() < n {
        return;
    }
    block::copy(&s[at..at + n], to);
}

// Whether a group of bitfields, by its place, has up to 15 of them, all within the body.
fn has_bits(at: u16, s: &[u8]) -> bool
    ensures { result ≡ has_bits at s.now }
{
    let n = numbers::byte_at(s, at as usize + 4);
    n <= 15 && at as usize + 5 + (n as usize) <= s.len()
}

// Its bitfields.
#[tactic(auto, using(crate::proofs::Lifts::bits_got), unfolding(crate::specs::SessionFields::group_bits))]
fn group_bits(r: Record, group: Option<u16>) -> Option<Bits>
    ensures { result ≡ group_bits group r }
{
    let body = r.body;
    let at = group?;
    if has_bits(at, &body) {
        let mut bits: [u8; 15] = [0; 15];
        let n = numbers::byte_at(&body, at as usize + 4);
        lift_front(n as usize, at as usize + 5, &body, &mut bits);
        return Some(Bits {
            count: n,
            bits: bits,
        });
    }
    None
}

// Bytes put at a place of a buffer; where there is no room for them, it stays as it is.
fn put_at(to: &mut [u8], at: usize, bytes: &[u8])
    ensures { to.new ≡ put_buffer to.old at bytes.now }
{
    if to.len() < at {
        return;
    }
    if to.len() - at < bytes.len() {
        return;
    }
    block::copy(bytes, &mut to[at..]);
}

// The record with bytes in its body.
fn with_bytes(r: Record, at: usize, bytes: &[u8]) -> Record
    ensures { result ≡ storing at bytes.now r }
{
    let mut body = r.body;
    put_at(&mut body, at, bytes);
    Record { body: body, ..r }
}

// The record with a field set.
fn set_bytes(r: Record, message: u8, at: usize, bytes: &[u8]) -> Record
    ensures { result ≡ setting_of message at bytes.now r }
{
    if r.message == message {
        return with_bytes(r, at, bytes);
    }
    r
}
