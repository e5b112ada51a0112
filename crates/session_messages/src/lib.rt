// The session messages as records: Login Request, Login Response, Logout, Replay Complete and both heartbeats.
#![tactic(auto)]

ghost use Rattle.std.specs.Prelude.{◌≡◌, ◌++◌, ◌+◌, ◌≤◌, ◌<◌, length, take, cond};
ghost use Rattle.numbers.specs.Numbers.{patched};
ghost use Rattle.wire.specs.Header.{header_bytes, total_of};
ghost use Rattle.kinds.specs.Kinds.{agrees_of};
ghost use Rattle.refusals.specs.Names.{bad_value};
ghost use Rattle.refusals.specs.Reasons.{number_of};
ghost use Rattle.refusals.specs.Told.{told};
ghost use Rattle.refusals.specs.FirstBad.{first_bad};
ghost use Rattle.refusals.specs.Outcomes.{outcome, outcome_with};
ghost use Rattle.session_groups.specs.Answers.{end_of};
ghost use Rattle.session_messages.specs.ValueFields.{name_fields, status_fields, reason_fields, text_wrong, told_bad};
ghost use Rattle.session_messages.specs.Types.{type_byte, message_at, message_as};
ghost use Rattle.session_messages.specs.Sessions.{of_member, of_venue, unit_good, fixed_size, values_refusal, flag_good, pairs_end, response_end, lists_end, body_end, size_of, lists_refusal, head_refusal, body_refusal, read_refusal, read_of, unused_refusal, held_refusal, write_refusal, write_buffer, record_refusal, record_buffer};

use kinds::Kind;
use refusals::{Reason, Refusal};

// The size of a session message's record as bytes: type, unit, number, body.
pub const RECORD: usize = 439;

// The record of such a message: `body` is what follows the ten bytes of the header, as on the wire, and zero after it.
#[derive(Clone, Copy)]
pub struct Record {
    pub message: u8,
    pub unit: u8,
    pub number: u32,
    pub body: [u8; 433],
}

// A type of the member's.
pub fn of_member(message: u8) -> bool
    ensures { result ≡ of_member message }
{
    match message {
        0x37 | 0x03 => true,
        _ => false,
    }
}

// A type of the venue's.
pub fn of_venue(message: u8) -> bool
    ensures { result ≡ of_venue message }
{
    match message {
        0x24 | 0x08 | 0x09 | 0x13 => true,
        _ => false,
    }
}

// What a session message is.
#[derive(Clone, Copy)]
enum Message {
    LoginRequest,
    ClientHeartbeat,
    LoginResponse,
    Logout,
    ServerHeartbeat,
    ReplayComplete,
}

// What a message of a type is, of either side.
#[tactic(auto, unfolding(crate::specs::Types::message_at))]
fn message_at(message: u8) -> Option<Message>
    ensures { result ≡ message_at message }
{
    match message {
        0x37 => Some(Message::LoginRequest),
        0x03 => Some(Message::ClientHeartbeat),
        0x24 => Some(Message::LoginResponse),
        0x08 => Some(Message::Logout),
        0x09 => Some(Message::ServerHeartbeat),
        0x13 => Some(Message::ReplayComplete),
        _ => None,
    }
}

// Whether a message has neither unit nor number.
fn is_unnumbered(unit: u8, number: u32) -> bool
    ensures { result ≡ unit_good unit number }
{
    unit == 0 && number == 0
}

// What a message is, where unit and number are 0; or 4 for the type, 5 for unit and number.
fn check_head(message: u8, unit: u8, number: u32) -> Result<Message, Refusal>
    ensures { result ≡ outcome_with (head_refusal message unit number) (message_as message) }
{
    let kind = message_at(message).ok_or(Refusal::new(Reason::UnknownType))?;
    if !is_unnumbered(unit, number) {
        return Err(Refusal::new(Reason::BadUnit));
    }
    Ok(kind)
}

// The bytes of the fixed part after the header.
#[tactic(auto, unfolding(crate::specs::Sessions::fixed_size))]
fn fixed_size(message: Message) -> usize
    ensures { result ≡ fixed_size (type_byte message) }
{
    match message {
        Message::LoginRequest => 19,
        Message::LoginResponse => 67,
        Message::Logout => 66,
        Message::ClientHeartbeat | Message::ServerHeartbeat | Message::ReplayComplete => 0,
    }
}

// A value of its kind; or 10, at its place in the message.
#[tactic(auto, unfolding(refusals::specs::Outcomes::outcome_with))]
fn check_value(kind: Kind, value: &[u8], place: usize) -> Result<(), Refusal>
    requires { place < 1000000 }
    ensures { result ≡ outcome (cond (agrees_of kind value.now) 0 (told bad_value place)) }
{
    if !kinds::agrees(kind, value) {
        return Err(Refusal::at(Reason::BadValue, place));
    }
    Ok(())
}

// Login Request: SessionSubID, Username and Password of their kind; or the first that is not, so too of the others.
fn check_names(b: &[u8]) -> Result<(), Refusal>
    requires { 18 ≤ length b.now }
    ensures { result ≡ outcome (told_bad (first_bad (name_fields b.now))) }
{
    check_value(Kind::Alphanumeric, &b[0..4], 10)?;
    check_value(Kind::Alphanumeric, &b[4..8], 14)?;
    check_value(Kind::Alphanumeric, &b[8..18], 18)
}

// The text of a Login Response or a Logout.
fn check_text(b: &[u8]) -> Result<(), Refusal>
    requires { 61 ≤ length b.now }
    ensures { result ≡ outcome (told_bad (text_wrong b.now)) }
{
    check_value(Kind::Text, &b[1..61], 11)
}

// Login Response: LoginResponseStatus and LoginResponseText of their kinds.
fn check_status(b: &[u8]) -> Result<(), Refusal>
    requires { 61 ≤ length b.now }
    ensures { result ≡ outcome (told_bad (first_bad (status_fields b.now))) }
{
    check_value(Kind::Alphanumeric, &b[0..1], 10)?;
    check_text(b)
}

// Logout: LogoutReason of its kind or an exclamation mark, and LogoutReasonText of its kind.
fn check_reason(b: &[u8]) -> Result<(), Refusal>
    requires { 61 ≤ length b.now }
    ensures { result ≡ outcome (told_bad (first_bad (reason_fields b.now))) }
{
    if b[0] == b'!' {
        return check_text(b);
    }
    check_status(b)
}

// The values of a fixed part, each of its kind; or 10, at the place in the message of the first that is not.
#[tactic(auto, unfolding(crate::specs::Sessions::fixed_size))]
fn check_values(message: Message, b: &[u8]) -> Result<(), Refusal>
    requires { fixed_size (type_byte message) ≤ length b.now }
    ensures { result ≡ outcome (values_refusal (type_byte message) b.now) }
{
    match message {
        Message::LoginRequest => check_names(b),
        Message::LoginResponse => check_status(b),
        Message::Logout => check_reason(b),
        _ => Ok(()),
    }
}

// Whether a Login Response's flag is 0 or 1; the others have none.
#[tactic(auto, unfolding(crate::specs::Sessions::flag_good))]
fn flag_good(message: Message, b: &[u8]) -> bool
    ensures { result ≡ flag_good (type_byte message) b.now }
{
    match message {
        Message::LoginResponse => numbers::byte_at(b, 61) < 2,
        _ => true,
    }
}

// The bytes of that many pairs; none where they are against the rules, so too of the others.
fn pairs_end(n: u8, s: &[u8]) -> Option<usize>
    ensures { result ≡ end_of (pairs_end n s.now) }
{
    session_groups::pairs_good(n, s).then_some(5 * (n as usize))
}

// Of that many pairs, a count and its groups.
#[tactic(auto, unfolding(crate::specs::Sessions::response_end))]
fn response_end(n: u8, s: &[u8]) -> Option<usize>
    ensures { result ≡ end_of (response_end n s.now) }
{
    let pairs = pairs_end(n, s)?;
    if s.len() <= pairs {
        return None;
    }
    let groups = session_groups::groups_end(s[pairs], &s[pairs + 1..])?;
    Some(pairs + 1 + groups)
}

// Of what follows the first count.
#[tactic(auto, unfolding(crate::specs::Sessions::lists_end))]
fn lists_end(message: Message, n: u8, s: &[u8]) -> Option<usize>
    ensures { result ≡ end_of (lists_end (type_byte message) n s.now) }
{
    match message {
        Message::LoginRequest => session_groups::groups_end(n, s),
        Message::LoginResponse => response_end(n, s),
        _ => pairs_end(n, s),
    }
}

// Of a body whose fixed part is there: none where its flag, pairs or groups are against the rules.
#[tactic(auto, unfolding(crate::specs::Sessions::body_end))]
fn body_end(message: Message, b: &[u8]) -> Option<usize>
    requires { fixed_size (type_byte message) ≤ length b.now }
    ensures { result ≡ end_of (body_end (type_byte message) b.now) }
{
    let k = fixed_size(message);
    if k == 0 {
        return Some(0);
    }
    if !flag_good(message, b) {
        return None;
    }
    let lists = lists_end(message, b[k - 1], &b[k..])?;
    Some(k + lists)
}

// The same; or 11.
fn body_size(message: Message, b: &[u8]) -> Result<usize, Refusal>
    requires { fixed_size (type_byte message) ≤ length b.now }
    ensures { result ≡ outcome_with (lists_refusal (type_byte message) b.now) (size_of (type_byte message) b.now) }
{
    body_end(message, b).ok_or(Refusal::new(Reason::BadGroup))
}

// The refusals of a message m whose fixed part is there, b being its body: 10, 11, 6 for bytes left.
fn check_body(m: &[u8], message: Message, b: &[u8]) -> Result<(), Refusal>
    requires { fixed_size (type_byte message) ≤ length b.now }
    ensures { result ≡ outcome (body_refusal (total_of m.now) (type_byte message) b.now) }
{
    check_values(message, b)?;
    let size = body_size(message, b)?;
    if size != b.len() {
        return Err(wire::wrong_total(m));
    }
    Ok(())
}

// Judges a whole message, as framing answers it: Ok, or its refusal, 4, 5, 6, 10 or 11; 6 and 10 with their places.
pub fn check_session(m: &[u8]) -> Result<(), Refusal>
    ensures { result ≡ outcome (read_refusal m.now) }
{
    let message = check_head(
        wire::header::type_of(m),
        wire::header::unit_of(m),
        wire::header::number_of(m),
    )?;
    if m.len() < 10 + fixed_size(message) {
        return Err(wire::wrong_total(m));
    }
    check_body(m, message, &m[10..])
}

// Reads a whole message, as framing answers it: its record, or the refusal.
pub fn read_session(m: &[u8]) -> Result<Record, Refusal>
    ensures { result ≡ outcome_with (read_of m.now).refusal (read_of m.now).session }
{
    check_session(m)?;
    let mut body = [0u8; 433];
    block::copy(&m[10..], &mut body);
    Ok(Record {
        message: wire::header::type_of(m),
        unit: wire::header::unit_of(m),
        number: wire::header::number_of(m),
        body,
    })
}

// The bytes of a record's body; or 11 where it is shorter than its fixed part, 10, 11, and 11 or 12 for a byte after it that is not zero.
fn held_size(message: Message, b: &[u8]) -> Result<usize, Refusal>
    ensures { result ≡ outcome_with (held_refusal (type_byte message) b.now) (size_of (type_byte message) b.now) }
{
    if b.len() < fixed_size(message) {
        return Err(Refusal::new(Reason::BadGroup));
    }
    check_values(message, b)?;
    let size = body_size(message, b)?;
    if !kinds::is_blank(&b[size..]) {
        return Err(Refusal::new(unused_reason(message)));
    }
    Ok(size)
}

// Why an unused place that is not zero is refused: 11, and 12 in a header alone.
fn unused_reason(message: Message) -> Reason
    ensures { number_of result ≡ unused_refusal (type_byte message) }
{
    if fixed_size(message) == 0 {
        return Reason::NotZero;
    }
    Reason::BadGroup
}

// The header and the first bytes of the body, into the front of a lent buffer.
fn put_session(message: u8, unit: u8, number: u32, size: usize, b: &[u8], out: &mut [u8])
    requires { (size ≤ 433) × (size ≤ length b.now) × (10 + size ≤ length out.old) }
    ensures { out.new ≡ patched out.old 0 (header_bytes (8 + size) message unit number ++ take size b.now) }
{
    let _ = wire::header::write_header(out, (8 + size) as u16, message, unit, number);
    block::copy_front(b, size, &mut out[10..]);
}

// Writes a body: Ok, and the buffer begins with the message's bytes and is otherwise as it was; or the refusal (4, 5, 10, 11, 12 or 13; 10 with the
// place in the message that would be written), and the buffer is as it was.
pub fn write_body(
    message: u8,
    unit: u8,
    number: u32,
    body: &[u8],
    out: &mut [u8],
) -> Result<(), Refusal>
    ensures { (result ≡ outcome (write_refusal message unit number body.now (length out.old))) × (out.new ≡ write_buffer message unit number body.now out.old) }
{
    let kind = check_head(message, unit, number)?;
    let size = held_size(kind, body)?;
    if out.len() < 10 + size {
        return Err(Refusal::new(Reason::NoRoom));
    }
    put_session(message, unit, number, size, body, out);
    Ok(())
}

// The same of a record.
pub fn write_session(r: Record, out: &mut [u8]) -> Result<(), Refusal>
    ensures { (result ≡ outcome (record_refusal r (length out.old))) × (out.new ≡ record_buffer r out.old) }
{
    write_body(r.message, r.unit, r.number, &r.body, out)
}
