// The bytes of the rehearsal's messages: each is a record, field by field by name, that the proved writer writes into a lent buffer.
use orders::Record;
use session_logins::Bitfields;
use table::OutgoingNumber;

// Buy and sell, as the field Side has them.
pub const BUY: u8 = b'1';

pub const SELL: u8 = b'2';

// A text filled up with NULs to a field's length; no text where it is longer.
fn filled<const N: usize>(text: &[u8]) -> [u8; N] {
    let mut field = [0; N];
    let n = text.len();
    if n <= N {
        field[..n].copy_from_slice(text);
    }
    field
}

// A record with its type, unit and number alone.
fn started(message: u8, unit: u8, number: u32) -> Record {
    let mut r = orders::blank_record();
    r.message = message;
    r.unit = unit;
    r.number = number;
    r
}

// Writes a record's message.
fn write(r: Record, out: &mut [u8]) {
    let mut given = [0u8; block::RECORD];
    let _ = order_records::store(r, &mut given);
    let _ = order_writer::write_order(&given, out);
}

// An Order Acknowledgment: the venue has the order, at this price.
pub fn acknowledgment(unit: u8, number: u32, id: &[u8], price: i64, out: &mut [u8]) {
    let r = started(0x25, unit, number);
    let timed = order_fields::acknowledgment::with_transaction_time(r, 1755590400000000000);
    let named = order_fields::acknowledgment::with_cl_ord_id(timed, filled(id));
    let known = order_fields::acknowledgment::with_order_id(named, 700000 + (number as u64));
    let priced = order_fields::acknowledgment::with_price(known, price);
    write(priced, out);
}

// An Order Execution: so many shares at this price, so many left.
pub fn execution(
    unit: u8,
    number: u32,
    id: &[u8],
    shares: u32,
    price: i64,
    left: u32,
    out: &mut [u8],
) {
    let r = started(0x2C, unit, number);
    let timed = order_fields::execution::with_transaction_time(r, 1755590400000000000);
    let named = order_fields::execution::with_cl_ord_id(timed, filled(id));
    let known = order_fields::execution::with_exec_id(named, 900000 + (number as u64));
    let filled = order_fields::execution::with_last_shares(known, shares);
    let priced = order_fields::execution::with_last_px(filled, price);
    let rest = order_fields::execution::with_leaves_qty(priced, left);
    write(rest, out);
}

// An Order Rejected: the venue does not take the order, for a reason.
pub fn order_rejected(id: &[u8], reason: u8, text: &[u8], out: &mut [u8]) {
    let r = started(0x26, 0, 0);
    let timed = order_fields::rejection::with_transaction_time(r, 1755590400000000000);
    let named = order_fields::rejection::with_cl_ord_id(timed, filled(id));
    let reasoned = order_fields::rejection::with_order_reject_reason(named, [reason]);
    write(
        order_fields::rejection::with_text(reasoned, filled(text)),
        out,
    );
}

// A Cancel Rejected: the order is not cancelled, for a reason.
pub fn cancel_rejected(id: &[u8], reason: u8, text: &[u8], out: &mut [u8]) {
    let r = started(0x2B, 0, 0);
    let timed = order_fields::cancel_rejection::with_transaction_time(r, 1755590400000000000);
    let named = order_fields::cancel_rejection::with_cl_ord_id(timed, filled(id));
    let reasoned = order_fields::cancel_rejection::with_cancel_reject_reason(named, [reason]);
    write(
        order_fields::cancel_rejection::with_text(reasoned, filled(text)),
        out,
    );
}

// A New Order's record, as our desk hands it over: its number is given by the session.
pub fn new_order(id: &[u8], side: u8, quantity: u32, price: i64) -> Record {
    let r = started(0x38, 0, 0);
    let named = order_fields::new_order::with_cl_ord_id(r, filled(id));
    let sided = order_fields::new_order::with_side(named, [side]);
    let sized = order_fields::new_order::with_order_qty(sided, quantity);
    let priced = order_fields::new_order::with_price(sized, price);
    let symbol = [b'Z', b'V', b'Z', b'Z', b'T', 0, 0, 0];
    let listed = order_fields::new_order::with_symbol(priced, symbol);
    order_fields::new_order::with_capacity(listed, [b'A'])
}

// An options New Order's record: ten contracts on MSFT that open a position, a call (1) or a put (0).
pub fn option(id: &[u8], side: u8, right: u8, maturity: u32, price: i64, strike: i64) -> Record {
    let r = started(0xB8, 0, 0);
    let named = order_fields::options_order::with_cl_ord_id(r, filled(id));
    let sided = order_fields::options_order::with_side(named, [side]);
    let sized = order_fields::options_order::with_order_qty(sided, 10);
    let priced = order_fields::options_order::with_price(sized, price);
    let symbol = [b'M', b'S', b'F', b'T', 0, 0, 0, 0];
    let listed = order_fields::options_order::with_symbol(priced, symbol);
    let able = order_fields::options_order::with_capacity(listed, [b'C']);
    let expires = order_fields::options_order::with_maturity_date(able, maturity);
    let struck = order_fields::options_order::with_strike_price(expires, strike);
    let righted = order_fields::options_order::with_put_or_call(struck, [right]);
    order_fields::options_order::with_open_close(righted, [b'O'])
}

// A Modify Order's record with all but a price: the order gets a new identifier and this quantity.
fn modified(id: &[u8], orig: &[u8], quantity: u32) -> Record {
    let r = started(0x3A, 0, 0);
    let named = order_fields::modify_order::with_cl_ord_id(r, filled(id));
    let meant = order_fields::modify_order::with_orig_cl_ord_id(named, filled(orig));
    order_fields::modify_order::with_order_qty(meant, quantity)
}

// A Modify Order's record: the order gets a new identifier, this quantity and this price.
pub fn modify(id: &[u8], orig: &[u8], quantity: u32, price: i64) -> Record {
    let sized = modified(id, orig, quantity);
    order_fields::modify_order::with_price(sized, price)
}

// The same without a price, for a limit order, which needs one.
pub fn unpriced(id: &[u8], orig: &[u8], quantity: u32) -> Record {
    let sized = modified(id, orig, quantity);
    order_fields::modify_order::with_ord_type(sized, [b'2'])
}

// A Cancel Order's record.
pub fn cancel(id: &[u8]) -> Record {
    let r = started(0x39, 0, 0);
    order_fields::cancel_order::with_orig_cl_ord_id(r, filled(id))
}

// The login's SessionSubID, Username and Password.
pub fn names() -> [u8; 18] {
    filled(b"0001TESTTESTING")
}

// The login asks for Price in acknowledgments.
pub fn acknowledgment_fields() -> Bitfields {
    Bitfields {
        given: true,
        count: 1,
        bits: [4, 0, 0, 0, 0, 0, 0, 0, 0, 0, 0, 0, 0, 0, 0],
    }
}

// It asks for no optional field in executions.
pub fn execution_fields() -> Bitfields {
    Bitfields {
        given: true,
        count: 0,
        bits: [0; 15],
    }
}

// A session message's record with nothing said yet.
pub fn session_record(message: u8) -> session_messages::Record {
    session_messages::Record {
        message: message,
        unit: 0,
        number: 0,
        body: [0; 433],
    }
}

// A Server Heartbeat.
pub fn server_heartbeat(out: &mut [u8]) {
    let _ = session_messages::write_session(session_record(0x09), out);
}

// A Logout at the end of the day.
pub fn logout(received: OutgoingNumber, out: &mut [u8]) {
    let r = session_record(0x08);
    let reasoned = session_fields::logout::with_reason(r, [b'E']);
    let told = session_fields::logout::with_text(reasoned, filled(b"End of Day"));
    let counted = session_fields::logout::with_last_received(told, received);
    let _ = session_messages::write_session(counted, out);
}
