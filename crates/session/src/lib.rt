// The member's session: its state by value, a method for each thing that can happen, each of which answers the next state.
#![tactic(auto)]

pub mod phases;

ghost use Rattle.std.specs.Prelude.{◌≡◌, true, false, ◌≤◌, length};
ghost use Rattle.wire.specs.Header.{type_of};
ghost use Rattle.wire.specs.Frame.{framed};
ghost use Rattle.orders.specs.Shapes.{sequenced};
ghost use Rattle.orders.specs.Orders.{write_refusal, write_buffer};
ghost use Rattle.session_logins.specs.LoginRequests.{login_record};
ghost use Rattle.messages.specs.Messages.{read_refusal};
ghost use Rattle.book.specs.Books.{append_of, append_buffer, close_buffer};
ghost use Rattle.session.specs.Sessions.{closed_with, in_phase, is_closed, ended_by, broken_by, broken_buffer, responded_by, responded_buffer, received_in, response_reading, response_of, response_buffer, message_of, message_buffer, receive_of, receive_buffer, told_of, receive_answer, login_of, login_out, heartbeat_of, heartbeat_out, numbered, order_of, order_out};
ghost use Rattle.session.specs.Stages.{booked_as, heard_by, heard_buffer, gate_by};
ghost use Rattle.block.specs.Sizes.{record_size};
ghost use Rattle.refusals.specs.Outcomes.{outcome, outcome_with};

use book::Book;
use orders::Market;
use refusals::{Reason, Refusal};
use session_logins::{Bitfields, Choice};
use table::OutgoingNumber;

// The phases: no session; a login sent and not yet answered; the venue replays; the venue has replayed.
#[derive(Clone, Copy)]
pub enum Phase {
    Closed,
    Asked,
    Replaying,
    Live,
}

// The phase, the number of the last order that went out, the market that it serves, and the book with its table.
#[derive(Clone, Copy)]
pub struct Session {
    pub phase: Phase,
    pub outgoing: OutgoingNumber,
    pub market: Market,
    pub book: Book,
}

// What became of a message: nothing for the desk, booked, or handed to the desk and neither booked nor counted.
#[derive(Clone, Copy)]
pub enum Told {
    Nothing,
    Booked,
    Handed,
}

// What becomes of a message of a type that is not refused.
#[tactic(auto, unfolding(crate::specs::Sessions::told_of))]
pub fn told_of(message: u8) -> Told
    ensures { result ≡ told_of message }
{
    if orders::is_sequenced(message) {
        return Told::Booked;
    }
    if orders::is_unsequenced(message) {
        return Told::Handed;
    }
    Told::Nothing
}

// The session after opening and after a restart, each of which names the market.
pub fn closed_with(market: Market, b: Book) -> Session
    ensures { result ≡ closed_with market b }
{
    Session {
        phase: Phase::Closed,
        outgoing: OutgoingNumber(0),
        market: market,
        book: b,
    }
}

// Writes an order's record, the first RECORD bytes given, under a number: Ok; or the writer's refusal, and the buffer is as it was.
pub fn write_numbered(given: &[u8], number: OutgoingNumber, out: &mut [u8]) -> Result<(), Refusal>
    requires { record_size ≤ length given.now }
    ensures { (result ≡ outcome (write_refusal (numbered given.now number.0) (length out.old))) × (out.new ≡ write_buffer (numbered given.now number.0) out.old) }
{
    let mut scratch = [0u8; block::RECORD];
    block::copy(&given[0..block::RECORD], &mut scratch);
    let _ = numbers::write_u32(&mut scratch, 2, number.0);
    order_writer::write_order(&scratch, out)
}

// The last received number of a Login Response.
fn received_in(m: &[u8]) -> OutgoingNumber
    ensures { result.0 ≡ received_in m.now }
{
    OutgoingNumber(numbers::read_u32(m, 72))
}

// Judges the first whole message of any bytes as a Login Response: Ok; or 1 to 11, 4 for any other type.
fn check_response(bytes: &[u8]) -> Result<(), Refusal>
    ensures { result ≡ outcome (response_reading bytes.now) }
{
    wire::check_frame(bytes)?;
    let m = wire::frame(bytes);
    if wire::header::type_of(m) != 0x24 {
        return Err(Refusal::new(Reason::UnknownType));
    }
    session_messages::check_session(m)
}

// The refusals of an order before the writer's, by phase, last outgoing number and market: 16 unless live, 20, 13 for a record under RECORD bytes, 4 for one
// that is not an order of the market.
pub fn check_gate(
    phase: Phase,
    outgoing: OutgoingNumber,
    market: Market,
    given: &[u8],
) -> Result<(), Refusal>
    ensures { result ≡ outcome (gate_by phase outgoing.0 market given.now) }
{
    if !phases::is_live(phase) {
        return Err(Refusal::new(Reason::OutOfPhase));
    }
    if outgoing.0 == 4294967295 {
        return Err(Refusal::new(Reason::NumbersUsedUp));
    }
    if given.len() < block::RECORD {
        return Err(Refusal::new(Reason::NoRoom));
    }
    if !orders::of_market(market, given[0]) {
        return Err(Refusal::new(Reason::UnknownType));
    }
    Ok(())
}

impl Session {
    // The same session in another phase.
    fn in_phase(self, p: Phase) -> Session
        ensures { result ≡ in_phase p self }
    {
        Session { phase: p, ..self }
    }

    // The session's end: closed, with a mark in the book if there is room for it.
    fn ended(self, buffer: &mut [u8]) -> Session
        ensures { (result ≡ ended_by self (length buffer.old)) × (buffer.new ≡ close_buffer self.book buffer.old) }
    {
        let book = self.book.close(buffer);
        Session {
            phase: Phase::Closed,
            book: book,
            ..self
        }
    }

    // A break: it ends the session; while closed it changes nothing.
    pub fn broken(self, buffer: &mut [u8]) -> Session
        ensures { (result ≡ broken_by self (length buffer.old)) × (buffer.new ≡ broken_buffer self buffer.old) }
    {
        if phases::is_closed(self.phase) {
            return self;
        }
        self.ended(buffer)
    }

    // Status A leads to replaying, with the number from which the orders go on; any other status ends the session.
    fn responded(self, status: u8, received: OutgoingNumber, buffer: &mut [u8]) -> Session
        ensures { (result ≡ responded_by self status received.0 (length buffer.old)) × (buffer.new ≡ responded_buffer self status buffer.old) }
    {
        if status == b'A' {
            return Session {
                phase: Phase::Replaying,
                outgoing: received,
                ..self
            };
        }
        self.ended(buffer)
    }

    // Appends a sequenced message that was read: the session with it in the book, its unit's entry risen; or 14, 15 or 13.
    fn append_read(self, bytes: &[u8], buffer: &mut [u8]) -> Result<Session, Refusal>
        requires { (read_refusal 1 bytes.now ≡ 0) × (sequenced (type_of (framed bytes.now)) ≡ true) }
        ensures { (result ≡ outcome_with (booked_as self (append_of self.book (length buffer.old) bytes.now)).refusal (booked_as self (append_of self.book (length buffer.old) bytes.now)).session) × (buffer.new ≡ append_buffer self.book buffer.old bytes.now) }
    {
        let book = self.book.append_good(bytes, buffer)?;
        Ok(Session { book: book, ..self })
    }

    // The state after a message m that is not sequenced, of a type that passes: a Login Response, Replay Complete, a Logout; a heartbeat and an
    // unsequenced message change nothing.
    fn heard(self, m: &[u8], buffer: &mut [u8]) -> Session
        ensures { (result ≡ heard_by self (length buffer.old) m.now) × (buffer.new ≡ heard_buffer self buffer.old m.now) }
    {
        let message = wire::header::type_of(m);
        if message == 0x24 {
            let status = numbers::byte_at(m, 10);
            let received = received_in(m);
            return self.responded(status, received, buffer);
        }
        if message == 0x13 {
            return self.in_phase(Phase::Live);
        }
        if message == 0x08 {
            return self.ended(buffer);
        }
        self
    }

    // Takes a readable message: the state after what it says; or 16 for a type out of phase, and 14, 15 or 13 for a sequenced message.
    fn take(self, bytes: &[u8], buffer: &mut [u8]) -> Result<Session, Refusal>
        requires { (is_closed self.phase ≡ false) × (read_refusal 1 bytes.now ≡ 0) }
        ensures { (result ≡ outcome_with (receive_of self (length buffer.old) bytes.now).refusal (receive_of self (length buffer.old) bytes.now).session) × (buffer.new ≡ receive_buffer self buffer.old bytes.now) }
    {
        let m = wire::frame(bytes);
        let message = wire::header::type_of(m);
        if !phases::passes(self.phase, message) {
            return Err(Refusal::new(Reason::OutOfPhase));
        }
        if orders::is_sequenced(message) {
            return self.append_read(bytes, buffer);
        }
        Ok(self.heard(m, buffer))
    }

    // A Login Response, the first whole message of any bytes: the state after it; or 16 if closed, the reading refusals, 4 for another type among them, or
    // 16 unless asked.
    pub fn response(self, bytes: &[u8], buffer: &mut [u8]) -> Result<Session, Refusal>
        ensures { (result ≡ outcome_with (response_of self (length buffer.old) bytes.now).refusal (response_of self (length buffer.old) bytes.now).session) × (buffer.new ≡ response_buffer self buffer.old bytes.now) }
    {
        if phases::is_closed(self.phase) {
            return Err(Refusal::new(Reason::OutOfPhase));
        }
        check_response(bytes)?;
        self.take(bytes, buffer)
    }

    // A sequenced message, the first whole message of any bytes: it is in the book and its unit's entry has risen; or 16 if closed, the reading refusals, 4
    // for another type among them, 16 unless replaying or live, 14, 15 or 13.
    pub fn message(self, bytes: &[u8], buffer: &mut [u8]) -> Result<Session, Refusal>
        ensures { (result ≡ outcome_with (message_of self (length buffer.old) bytes.now).refusal (message_of self (length buffer.old) bytes.now).session) × (buffer.new ≡ message_buffer self buffer.old bytes.now) }
    {
        if phases::is_closed(self.phase) {
            return Err(Refusal::new(Reason::OutOfPhase));
        }
        book::check_message(bytes)?;
        self.take(bytes, buffer)
    }

    // Any bytes from the venue, of which the first whole message counts: the state after it, and what became of it; or 16 if closed, the reading refusals,
    // 16 for a type out of phase, and 14, 15 or 13 for a sequenced message.
    pub fn receive(self, bytes: &[u8], buffer: &mut [u8]) -> Result<(Session, Told), Refusal>
        ensures { (result ≡ outcome_with (receive_answer self (length buffer.old) bytes.now).refusal ((receive_answer self (length buffer.old) bytes.now).session, (receive_answer self (length buffer.old) bytes.now).told)) × (buffer.new ≡ receive_buffer self buffer.old bytes.now) }
    {
        if phases::is_closed(self.phase) {
            return Err(Refusal::new(Reason::OutOfPhase));
        }
        messages::check_message(1, bytes)?;
        let s = self.take(bytes, buffer)?;
        let told = told_of(wire::header::type_of(wire::frame(bytes)));
        Ok((s, told))
    }

    // A login with the table's numbers: it is written, and the session is asked; or 16 unless closed, then the writer's refusals.
    pub fn login(
        self,
        choice: Choice,
        names: [u8; 18],
        acknowledgments: Bitfields,
        executions: Bitfields,
        out: &mut [u8],
    ) -> Result<Session, Refusal>
        ensures { (result ≡ outcome_with (login_of self (login_record self.book.table choice names acknowledgments executions) (length out.old)).refusal (login_of self (login_record self.book.table choice names acknowledgments executions) (length out.old)).session) × (out.new ≡ login_out self (login_record self.book.table choice names acknowledgments executions) out.old) }
    {
        if !phases::is_closed(self.phase) {
            return Err(Refusal::new(Reason::OutOfPhase));
        }
        session_logins::write_login(
            self.book.table,
            choice,
            names,
            acknowledgments,
            executions,
            out,
        )?;
        Ok(self.in_phase(Phase::Asked))
    }

    // A heartbeat: it is written; or 16 unless replaying or live, then the writer's refusals.
    pub fn heartbeat(self, out: &mut [u8]) -> Result<Session, Refusal>
        ensures { (result ≡ outcome_with (heartbeat_of self (length out.old)).refusal (heartbeat_of self (length out.old)).session) × (out.new ≡ heartbeat_out self out.old) }
    {
        if !phases::is_open(self.phase) {
            return Err(Refusal::new(Reason::OutOfPhase));
        }
        let body = [0u8; 433];
        session_messages::write_body(0x03, 0, 0, &body, out)?;
        Ok(self)
    }

    // An order, of which the first RECORD bytes given are the record, under the next outgoing number; a refused one uses no number up.
    pub fn order(self, given: &[u8], out: &mut [u8]) -> Result<Session, Refusal>
        ensures { (result ≡ outcome_with (order_of self given.now (length out.old)).refusal (order_of self given.now (length out.old)).session) × (out.new ≡ order_out self given.now out.old) }
    {
        check_gate(self.phase, self.outgoing, self.market, given)?;
        let number = OutgoingNumber(self.outgoing.0 + 1);
        write_numbered(given, number, out)?;
        Ok(Session {
            outgoing: number,
            ..self
        })
    }
}
