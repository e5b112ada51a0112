// The directions: one reader and one writer each, over all types of that direction. Direction 0 is from the member of an equities market, 1 from the venue,
// 2 from the member of an options market. New Order has the type 38 in both markets; the record of the options' one has the type B8.
// A direction is a number and no enum: C gives any number, and the definitions of reading and writing answer 4 in a direction that is none of these.
// A record is the first bytes of a lent buffer, as many as its type's record has: session_messages::RECORD of a session message, block::RECORD of an order.
#![tactic(auto)]

ghost use Rattle.std.specs.Prelude.{◌≡◌, ◌++◌, ◌||◌, ◌-◌, ◌≤◌, length};
ghost use Rattle.numbers.specs.Numbers.{patched};
ghost use Rattle.block.specs.Slots.{zeros};
ghost use Rattle.block.specs.Sizes.{record_size};
ghost use Rattle.orders.specs.Markets.{of_market, typed};
ghost use Rattle.orders.specs.Orders as orders;
ghost use Rattle.order_records.specs.Records.{record_bytes, record_at};
ghost use Rattle.session_messages.specs.Sessions as sessions;
ghost use Rattle.session_messages.specs.Sizes.{session_record_size};
ghost use Rattle.messages.specs.Messages.{is_session, carries, type_in, session_record_bytes, session_at, read_refusal, read_call, read_record, write_call, write_out};
ghost use Rattle.messages.specs.Stages.{placed_refusal, placed_record, size_refusal, size_out};
ghost use Rattle.refusals.specs.Outcomes.{outcome};

use orders::Market;
use refusals::{Reason, Refusal};

// Whether a type is a session message's.
fn is_session(message: u8) -> bool
    ensures { result ≡ is_session message }
{
    if session_messages::of_member(message) {
        return true;
    }
    session_messages::of_venue(message)
}

// Whether a record's type is one that a member of a market sends.
fn of_member(market: Market, message: u8) -> bool
    ensures { result ≡ (of_market market message || sessions.of_member message) }
{
    if orders::of_market(market, message) {
        return true;
    }
    session_messages::of_member(message)
}

// Whether a direction has a record's type.
fn carries(direction: u8, message: u8) -> bool
    ensures { result ≡ carries direction message }
{
    if direction == 0 {
        return of_member(Market::Equities, message);
    }
    if direction == 1 {
        if orders::of_venue(message) {
            return true;
        }
        return session_messages::of_venue(message);
    }
    if direction == 2 {
        return of_member(Market::Options, message);
    }
    false
}

// The type that a record has in a direction, by its message's type on the wire.
fn type_in(direction: u8, message: u8) -> u8
    ensures { result ≡ type_in direction message }
{
    if direction != 2 {
        return message;
    }
    orders::record_type(Market::Options, message)
}

// A body into the front of a lent tail, with zeros after it.
fn put_body(b: &[u8], tail: &mut [u8])
    requires { (length b.now ≤ 433) × (433 ≤ length tail.old) }
    ensures { tail.new ≡ patched tail.old 0 (b.now ++ zeros (433 - length b.now)) }
{
    let n = b.len();
    block::copy(b, tail);
    block::clear(433 - n, &mut tail[n..]);
}

// A session message's record into the front of a buffer.
fn put_session(m: &[u8], buffer: &mut [u8])
    requires { (10 ≤ length m.now) × (length m.now ≤ 443) × (session_record_size ≤ length buffer.old) }
    ensures { buffer.new ≡ patched buffer.old 0 (session_record_bytes (sessions.record_of m.now)) }
{
    let message = wire::header::type_of(m);
    let unit = wire::header::unit_of(m);
    let number = wire::header::number_of(m);
    order_records::put_head(message, unit, number, buffer);
    put_body(&m[10..], &mut buffer[6..]);
}

// Reads a session message, as framing answers it, into a buffer: its refusal, then 13 for a buffer under its record's size.
fn read_session(m: &[u8], buffer: &mut [u8]) -> Result<(), Refusal>
    ensures { (result ≡ outcome (placed_refusal (sessions.read_refusal m.now) session_record_size (length buffer.old))) × (buffer.new ≡ placed_record (sessions.read_refusal m.now) session_record_size (session_record_bytes (sessions.record_of m.now)) buffer.old) }
{
    session_messages::check_session(m)?;
    if buffer.len() < session_messages::RECORD {
        return Err(Refusal::new(Reason::NoRoom));
    }
    put_session(m, buffer);
    Ok(())
}

// The same of an order message, under its record's type.
fn read_order(message: u8, m: &[u8], buffer: &mut [u8]) -> Result<(), Refusal>
    requires { 5 ≤ length m.now }
    ensures { (result ≡ outcome (placed_refusal (orders.read_refusal (typed message m.now)) record_size (length buffer.old))) × (buffer.new ≡ placed_record (orders.read_refusal (typed message m.now)) record_size (record_bytes (orders.record_of (typed message m.now))) buffer.old) }
{
    if block::RECORD <= buffer.len() {
        return order_reader::read_as(message, m, buffer);
    }
    order_reader::check_as(message, m)?;
    Err(Refusal::new(Reason::NoRoom))
}

// Reads the first whole message of any bytes into a record's buffer: Ok, and the record stands in the front of the buffer; or the refusal, 1 to 11, and
// after these 13 for a buffer under the size of this message's record, and the buffer is as it was. Bytes after the message play no part.
pub fn read(direction: u8, bytes: &[u8], buffer: &mut [u8]) -> Result<(), Refusal>
    ensures { (result ≡ outcome (read_call direction bytes.now (length buffer.old))) × (buffer.new ≡ read_record direction bytes.now buffer.old) }
{
    wire::check_frame(bytes)?;
    let m = wire::frame(bytes);
    let message = type_in(direction, wire::header::type_of(m));
    if !carries(direction, message) {
        return Err(Refusal::new(Reason::UnknownType));
    }
    if is_session(message) {
        return read_session(m, buffer);
    }
    read_order(message, m, buffer)
}

// Ok where the first whole message of any bytes is accepted, or its refusal (1 to 11, 23), judged where it stands. Bytes after it play no part.
#[tactic(auto, using(refusals::specs::OutcomeLaws::passed_on), unfolding(crate::specs::Messages::read_refusal))]
pub fn check_message(direction: u8, bytes: &[u8]) -> Result<(), Refusal>
    ensures { result ≡ outcome (read_refusal direction bytes.now) }
{
    wire::check_frame(bytes)?;
    let m = wire::frame(bytes);
    let message = type_in(direction, wire::header::type_of(m));
    if !carries(direction, message) {
        return Err(Refusal::new(Reason::UnknownType));
    }
    if is_session(message) {
        return session_messages::check_session(m);
    }
    order_reader::check_as(message, m)
}

// Writes a session message's record: 13 for one under its size, then its own refusals.
fn write_session(given: &[u8], out: &mut [u8]) -> Result<(), Refusal>
    ensures { (result ≡ outcome (size_refusal session_record_size (length given.now) (sessions.record_refusal (session_at given.now) (length out.old)))) × (out.new ≡ size_out session_record_size (length given.now) (sessions.record_buffer (session_at given.now) out.old) out.old) }
{
    if given.len() < session_messages::RECORD {
        return Err(Refusal::new(Reason::NoRoom));
    }
    let number = numbers::read_u32(given, 2);
    session_messages::write_body(
        given[0],
        given[1],
        number,
        &given[6..session_messages::RECORD],
        out,
    )
}

// The same of an order's record.
fn write_order(given: &[u8], out: &mut [u8]) -> Result<(), Refusal>
    ensures { (result ≡ outcome (size_refusal record_size (length given.now) (orders.write_refusal (record_at given.now) (length out.old)))) × (out.new ≡ size_out record_size (length given.now) (orders.write_buffer (record_at given.now) out.old) out.old) }
{
    if given.len() < block::RECORD {
        return Err(Refusal::new(Reason::NoRoom));
    }
    order_writer::write_order(given, out)
}

// Writes a record: Ok, and the buffer begins with the message's bytes and is otherwise as it was; or the refusal, and the buffer is as it was: 13 for an
// empty record, which has no type, 4, 13 for a record under its type's size, and then its own, 5, 7 to 13.
pub fn write(direction: u8, given: &[u8], out: &mut [u8]) -> Result<(), Refusal>
    ensures { (result ≡ outcome (write_call direction given.now (length out.old))) × (out.new ≡ write_out direction given.now out.old) }
{
    if given.len() == 0 {
        return Err(Refusal::new(Reason::NoRoom));
    }
    let message = given[0];
    if !carries(direction, message) {
        return Err(Refusal::new(Reason::UnknownType));
    }
    if is_session(message) {
        return write_session(given, out);
    }
    write_order(given, out)
}
