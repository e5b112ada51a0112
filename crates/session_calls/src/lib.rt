// The member's session as a caller keeps it, in 278 bytes, and its calls over them: each does what the session's own does, where the bytes stand, and a
// refused call changes no byte.
#![tactic(auto)]

pub mod beside;
mod given;
mod judging;

ghost use Rattle.std.specs.Prelude.{◌≡◌, cond, false, ◌≤◌, eqb, length};
ghost use Rattle.numbers.specs.Numbers.{patched};
ghost use Rattle.wire.specs.Frame.{framed};
ghost use Rattle.wire.specs.Header.{type_of};
ghost use Rattle.orders.specs.Markets.{market_of};
ghost use Rattle.messages.specs.Messages.{read_refusal};
ghost use Rattle.session.specs.declared.Phase.TheVariants.{Closed};
ghost use Rattle.book.specs.Books.{close_buffer, appended_by};
ghost use Rattle.book_calls.specs.InPlace.{good_refusal, good_buffer};
ghost use Rattle.session.specs.Sessions.{is_closed, in_phase, with_book, ended_by, responded_by, responded_buffer, status_in, received_in, receive_of, receive_buffer, told_of};
ghost use Rattle.session.specs.Stages.{heard_by, heard_buffer};
ghost use Rattle.session_calls.specs.SessionBytes.{outgoing_at, beside_bytes, session_of, session_bytes, session_after, told_number, open_call, open_call_buffer, open_call_state, restart_call, restart_call_state, login_call, login_call_out, login_call_state, receive_call, receive_call_told, receive_call_buffer, receive_call_state, order_call, order_call_out, order_call_state, heartbeat_call, heartbeat_call_out, break_call, break_call_buffer, break_call_state, phase_call};
ghost use Rattle.refusals.specs.Outcomes.{outcome};

use book_calls::books;
use refusals::{Reason, Refusal};
use session::{Phase, Told, phases};
use table::OutgoingNumber;

// A closed session for a market beside a state's book: no order has gone out.
fn put_closed(market: u8, state: &mut [u8])
    requires { 278 ≤ length state.old }
    ensures { state.new ≡ patched state.old outgoing_at (beside_bytes Closed 0 (market_of market)) }
{
    let m = book_calls::market_of(market);
    beside::put(Phase::Closed, OutgoingNumber(0), m, state);
}

// Opens a book for a date in a buffer, and a closed session for a market: Ok; or 13 for a state under 278 bytes, 19 or 13, and both are as they were.
pub fn open(date: u32, market: u8, buffer: &mut [u8], state: &mut [u8]) -> Result<(), Refusal>
    ensures { (result ≡ outcome (open_call date (length buffer.old) state.old)) × (buffer.new ≡ open_call_buffer date buffer.old state.old) × (state.new ≡ open_call_state date market (length buffer.old) state.old) }
{
    if state.len() < 278 {
        return Err(Refusal::new(Reason::NoRoom));
    }
    books::open(date, buffer, state)?;
    put_closed(market, state);
    Ok(())
}

// Restarts from a book for a date, with a closed session for a market: Ok; or 13 for a state under 278 bytes, 19, 22, 18, 17 or 18, and the state is as
// it was.
pub fn restart(date: u32, market: u8, bytes: &[u8], state: &mut [u8]) -> Result<(), Refusal>
    ensures { (result ≡ outcome (restart_call date bytes.now state.old)) × (state.new ≡ restart_call_state date market bytes.now state.old) }
{
    if state.len() < 278 {
        return Err(Refusal::new(Reason::NoRoom));
    }
    books::restart(date, bytes, state)?;
    put_closed(market, state);
    Ok(())
}

// The phase of a state, its outgoing number and its market as they are.
fn set_phase(p: Phase, state: &mut [u8])
    requires { 278 ≤ length state.old }
    ensures { state.new ≡ patched state.old 0 (session_bytes (in_phase p (session_of state.old))) }
{
    let outgoing = beside::outgoing_in(state);
    let market = beside::market_in(state);
    beside::put(p, outgoing, market, state);
}

// A login with the table's numbers, of which 87 bytes are given: Ok, it is written, and the session is asked; or 13 for a state under 278 bytes or for
// less given, 16 unless closed, 10, 11 or 13, and buffer and state are as they were.
pub fn login(given: &[u8], out: &mut [u8], state: &mut [u8]) -> Result<(), Refusal>
    ensures { (result ≡ outcome (login_call given.now (length out.old) state.old)) × (out.new ≡ login_call_out given.now out.old state.old) × (state.new ≡ login_call_state given.now (length out.old) state.old) }
{
    if state.len() < 278 {
        return Err(Refusal::new(Reason::NoRoom));
    }
    if given.len() < 87 {
        return Err(Refusal::new(Reason::NoRoom));
    }
    let phase = beside::phase_in(state);
    if !phases::is_closed(phase) {
        return Err(Refusal::new(Reason::OutOfPhase));
    }
    given::write_given(given, state, out)?;
    set_phase(Phase::Asked, state);
    Ok(())
}

// A heartbeat: Ok, and it is written; or 13 for a state under 278 bytes, 16 unless replaying or live, or 13, and the buffer is as it was.
pub fn heartbeat(state: &[u8], out: &mut [u8]) -> Result<(), Refusal>
    ensures { (result ≡ outcome (heartbeat_call (length out.old) state.now)) × (out.new ≡ heartbeat_call_out out.old state.now) }
{
    if state.len() < 278 {
        return Err(Refusal::new(Reason::NoRoom));
    }
    let phase = beside::phase_in(state);
    if !phases::is_open(phase) {
        return Err(Refusal::new(Reason::OutOfPhase));
    }
    let body = [0u8; 433];
    session_messages::write_body(0x03, 0, 0, &body, out)
}

// An order, of which the first RECORD bytes given are the record: Ok, and it is written under the next outgoing number; or 13 for a state under 278 bytes,
// 16 unless live, 20, 13, 4 or the writer's, and buffer and state are as they were.
pub fn order(given: &[u8], out: &mut [u8], state: &mut [u8]) -> Result<(), Refusal>
    ensures { (result ≡ outcome (order_call given.now (length out.old) state.old)) × (out.new ≡ order_call_out given.now out.old state.old) × (state.new ≡ order_call_state given.now (length out.old) state.old) }
{
    if state.len() < 278 {
        return Err(Refusal::new(Reason::NoRoom));
    }
    let phase = beside::phase_in(state);
    let outgoing = beside::outgoing_in(state);
    let market = beside::market_in(state);
    session::check_gate(phase, outgoing, market, given)?;
    let next = OutgoingNumber(outgoing.0 + 1);
    session::write_numbered(given, next, out)?;
    beside::put(phase, next, market, state);
    Ok(())
}

// The session's end: closed, with a mark in the book if there is room for it. A state of this length is not refused.
fn end(buffer: &mut [u8], state: &mut [u8])
    requires { 278 ≤ length state.old }
    ensures { (buffer.new ≡ close_buffer (session_of state.old).book buffer.old) × (state.new ≡ patched state.old 0 (session_bytes (ended_by (session_of state.old) (length buffer.old)))) }
{
    let outgoing = beside::outgoing_in(state);
    let market = beside::market_in(state);
    let _ = books::close(buffer, state);
    beside::put(Phase::Closed, outgoing, market, state);
}

// A break: Ok, and a session that runs has ended; or 13 for a state under 278 bytes, and both are as they were.
pub fn break_line(buffer: &mut [u8], state: &mut [u8]) -> Result<(), Refusal>
    ensures { (result ≡ outcome (break_call state.old)) × (buffer.new ≡ break_call_buffer buffer.old state.old) × (state.new ≡ break_call_state (length buffer.old) state.old) }
{
    if state.len() < 278 {
        return Err(Refusal::new(Reason::NoRoom));
    }
    let phase = beside::phase_in(state);
    if phases::is_closed(phase) {
        set_phase(phase, state);
        return Ok(());
    }
    end(buffer, state);
    Ok(())
}

// A Login Response m: status A leads to replaying, with the number from which the orders go on; any other status ends the session.
fn respond(m: &[u8], buffer: &mut [u8], state: &mut [u8])
    requires { 278 ≤ length state.old }
    ensures { (buffer.new ≡ responded_buffer (session_of state.old) (status_in m.now) buffer.old) × (state.new ≡ patched state.old 0 (session_bytes (responded_by (session_of state.old) (status_in m.now) (received_in m.now) (length buffer.old)))) }
{
    if numbers::byte_at(m, 10) != b'A' {
        end(buffer, state);
        return;
    }
    let received = OutgoingNumber(numbers::read_u32(m, 72));
    let market = beside::market_in(state);
    beside::put(Phase::Replaying, received, market, state);
}

// A message m that is not sequenced, of a type that passes: a Login Response, Replay Complete, a Logout; any other changes nothing.
fn hear(message: u8, m: &[u8], buffer: &mut [u8], state: &mut [u8])
    requires { (278 ≤ length state.old) × (message ≡ type_of m.now) }
    ensures { (buffer.new ≡ heard_buffer (session_of state.old) buffer.old m.now) × (state.new ≡ patched state.old 0 (session_bytes (heard_by (session_of state.old) (length buffer.old) m.now))) }
{
    if message == 0x24 {
        respond(m, buffer, state);
        return;
    }
    if message == 0x13 {
        set_phase(Phase::Live, state);
        return;
    }
    if message == 0x08 {
        end(buffer, state);
        return;
    }
    let phase = beside::phase_in(state);
    set_phase(phase, state);
}

// Books a sequenced message m that is good by itself: Ok, it is in the book and its unit's entry has risen; or 14, 15 or 13, and buffer and state are as
// they were.
fn book(m: &[u8], buffer: &mut [u8], state: &mut [u8]) -> Result<(), Refusal>
    requires { 278 ≤ length state.old }
    ensures { (result ≡ outcome (good_refusal (session_of state.old).book (length buffer.old) m.now)) × (buffer.new ≡ good_buffer (session_of state.old).book buffer.old m.now) × (state.new ≡ session_after (good_refusal (session_of state.old).book (length buffer.old) m.now) (with_book (session_of state.old) (appended_by (session_of state.old).book m.now)) state.old) }
{
    let phase = beside::phase_in(state);
    let outgoing = beside::outgoing_in(state);
    let market = beside::market_in(state);
    books::append_good(m, buffer, state)?;
    beside::put(phase, outgoing, market, state);
    Ok(())
}

// Takes a readable message m, the first of the bytes: Ok, and the state is as it says; or 16 for a type out of phase, 14, 15 or 13, and buffer and state are
// as they were.
fn take(
    phase: Phase,
    bytes: &[u8],
    m: &[u8],
    buffer: &mut [u8],
    state: &mut [u8],
) -> Result<(), Refusal>
    requires { (278 ≤ length state.old) × (phase ≡ (session_of state.old).phase) × (is_closed phase ≡ false) × (read_refusal 1 bytes.now ≡ 0) × (m.now ≡ framed bytes.now) }
    ensures { (result ≡ outcome (receive_of (session_of state.old) (length buffer.old) bytes.now).refusal) × (buffer.new ≡ receive_buffer (session_of state.old) buffer.old bytes.now) × (state.new ≡ session_after (receive_of (session_of state.old) (length buffer.old) bytes.now).refusal (receive_of (session_of state.old) (length buffer.old) bytes.now).session state.old) }
{
    let message = wire::header::type_of(m);
    if !phases::passes(phase, message) {
        return Err(Refusal::new(Reason::OutOfPhase));
    }
    if orders::is_sequenced(message) {
        return book(m, buffer, state);
    }
    hear(message, m, buffer, state);
    Ok(())
}

// What becomes of a message from the venue that a session takes, by its type: 0, nothing for the desk; 1, it is booked; 2, it is handed to the desk.
pub fn told_number(message: u8) -> u32
    ensures { result ≡ told_number (told_of message) }
{
    let told = session::told_of(message);
    match told {
        Told::Nothing => 0,
        Told::Booked => 1,
        Told::Handed => 2,
    }
}

// Any bytes from the venue, of which the first whole message counts: Ok, the session after it, and what became of it, 0 nothing, 1 booked, 2 handed to the
// desk; or 13 for a state under 278 bytes, 16 if closed, 1 to 11, 16 for a type out of phase, 14, 15 or 13, and all is as it was.
pub fn receive(
    bytes: &[u8],
    told: &mut u32,
    buffer: &mut [u8],
    state: &mut [u8],
) -> Result<(), Refusal>
    ensures { (result ≡ outcome (receive_call bytes.now (length buffer.old) state.old)) × (told.new ≡ receive_call_told bytes.now (length buffer.old) state.old told.old) × (buffer.new ≡ receive_call_buffer bytes.now buffer.old state.old) × (state.new ≡ receive_call_state bytes.now (length buffer.old) state.old) }
{
    if state.len() < 278 {
        return Err(Refusal::new(Reason::NoRoom));
    }
    let phase = beside::phase_in(state);
    if phases::is_closed(phase) {
        return Err(Refusal::new(Reason::OutOfPhase));
    }
    wire::check_frame(bytes)?;
    let m = wire::frame(bytes);
    judging::check_whole(m)?;
    take(phase, bytes, m, buffer, state)?;
    *told = told_number(numbers::byte_at(bytes, 4));
    Ok(())
}

// The phase of a state by its number: 0 closed, 1 asked, 2 replaying, 3 live; of a state under 278 bytes 0.
pub fn phase(state: &[u8]) -> u32
    ensures { result ≡ phase_call state.now }
{
    if state.len() < 278 {
        return 0;
    }
    beside::phase_number(beside::phase_in(state)) as u32
}
