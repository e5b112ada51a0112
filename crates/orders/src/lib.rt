// Messages with bitfields, as records: New Order of either market, Cancel Order, Modify Order and Purge Orders from the member; Order Acknowledgment, Order Execution, Order
// Rejected, Cancel Rejected and User Modify Rejected from the venue.
#![tactic(auto)]

ghost use Rattle.std.specs.Prelude.{◌≡◌, not, ◌&&◌, ◌||◌, eqb, ◌+◌, ◌≤◌, length};
ghost use Rattle.block.specs.Places.{selected_at};
ghost use Rattle.block.specs.Sizes.{layout_size};
ghost use Rattle.orders.specs.Shapes.{of_member, sequenced, unsequenced, of_venue, count_at, most_of, unit_good};
ghost use Rattle.orders.specs.Markets.{new_order_of, of_market, record_type, wire_type};
ghost use Rattle.orders.specs.FixedFields.{fixed_wrong};
ghost use Rattle.orders.specs.Rests.{bad_at, name_at, new_order_rest, modify_order_rest, execution_rest, rejection_rest};
ghost use Rattle.orders.specs.Middle.{middle_size, middle_good};
ghost use Rattle.orders.specs.Late.{market, char_f, char_s, char_b, char_l, late_refusal};
ghost use Rattle.orders.specs.LateBytes.{modify_late, purge_needs, purge_clash, purge_late};
ghost use Rattle.orders.specs.Orders.{blank};
ghost use Rattle.refusals.specs.Outcomes.{outcome};

use kinds::Kind;
use refusals::{Reason, Refusal};
use table::Unit;

// The record of such a message. `fixed` is the fixed part as on the wire, from byte 10 up to the count byte, and zero after it; `slots`
// are the optional fields in the full layout: every listed bit has a slot of its field's width, in the order of byte and bit.
#[derive(Clone, Copy)]
pub struct Record {
    pub message: u8,
    pub unit: u8,
    pub number: u32,
    pub fixed: [u8; block::FIXED],
    pub count: u8,
    pub bits: [u8; block::BITFIELDS],
    pub slots: [u8; block::LAYOUT],
}

// The market that a member trades in. New Order has the type 38 in both, and a dictionary of its own in each; in a record that of the options market has the
// type B8, so that a record tells its own dictionary.
#[derive(Clone, Copy)]
pub enum Market {
    Equities,
    Options,
}

// The type that a record of a market's New Order has.
fn new_order_of(market: Market) -> u8
    ensures { result ≡ new_order_of market }
{
    match market {
        Market::Equities => 0x38,
        Market::Options => 0xB8,
    }
}

// Whether a record's type is that of an order that a member of a market sends.
pub fn of_market(market: Market, message: u8) -> bool
    ensures { result ≡ of_market market message }
{
    if message == new_order_of(market) {
        return true;
    }
    match message {
        0x39 => true,
        0x3A => true,
        0x47 => true,
        _ => false,
    }
}

// The type that a record has in the options market, by the type of its message on the wire.
fn options_type(message: u8) -> u8
    ensures { result ≡ record_type Market.Options message }
{
    match message {
        0x38 => 0xB8,
        0xB8 => 0,
        _ => message,
    }
}

// The same in any market. In the options market 38 is B8, and B8, which no message has there, is none.
pub fn record_type(market: Market, message: u8) -> u8
    ensures { result ≡ record_type market message }
{
    match market {
        Market::Equities => message,
        Market::Options => options_type(message),
    }
}

// The type that a record's message has on the wire.
pub fn wire_type(message: u8) -> u8
    ensures { result ≡ wire_type message }
{
    if message == 0xB8 {
        return 0x38;
    }
    message
}

// A type of the member's.
pub fn of_member(message: u8) -> bool
    ensures { result ≡ of_member message }
{
    match message {
        0x38 | 0xB8 => true,
        0x39 => true,
        0x3A => true,
        0x47 => true,
        _ => false,
    }
}

// A type of the venue's that is sequenced: it counts in its unit, and is booked.
pub fn is_sequenced(message: u8) -> bool
    ensures { result ≡ sequenced message }
{
    match message {
        0x25 | 0x2C => true,
        _ => false,
    }
}

// A type of the venue's that is not: it is handed to the desk, and neither booked nor counted.
pub fn is_unsequenced(message: u8) -> bool
    ensures { result ≡ unsequenced message }
{
    match message {
        0x26 => true,
        0x29 => true,
        0x2B => true,
        _ => false,
    }
}

// A type of the venue's.
pub fn of_venue(message: u8) -> bool
    ensures { result ≡ of_venue message }
{
    if is_sequenced(message) {
        return true;
    }
    is_unsequenced(message)
}

// A type of either.
pub fn is_known(message: u8) -> bool
    ensures { result ≡ (of_member message || of_venue message) }
{
    if of_member(message) {
        return true;
    }
    of_venue(message)
}

// Where the count of bitfields stands.
pub fn count_at(message: u8) -> usize
    ensures { result ≡ count_at message }
{
    match message {
        0x38 | 0xB8 => 35,
        0x39 => 30,
        0x25 => 47,
        0x2C => 69,
        0x3A => 50,
        0x47 => 11,
        _ => 100,
    }
}

// The most bitfields.
pub fn most_of(message: u8) -> u8
    ensures { result ≡ most_of message }
{
    match message {
        0x38 | 0xB8 => 10,
        0x39 => 2,
        0x25 => 15,
        0x2C => 15,
        0x3A => 2,
        0x47 => 2,
        _ => 19,
    }
}

// Whether unit and number are 0.
fn both_zero(unit: u8, number: u32) -> bool
    ensures { result ≡ (eqb unit 0 && eqb number 0) }
{
    if unit == 0 {
        return number == 0;
    }
    false
}

// Whether a message of a type may carry a unit and a number.
pub fn unit_good(message: u8, unit: u8, number: u32) -> bool
    ensures { result ≡ unit_good message unit number }
{
    if of_member(message) {
        return unit == 0;
    }
    if is_unsequenced(message) {
        return both_zero(unit, number);
    }
    table::check_unit(Unit(unit)).is_ok()
}

// Where the identifier stands in the fixed part: ClOrdID, or OrigClOrdID of Cancel Order.
fn name_at(message: u8) -> usize
    ensures { result ≡ name_at message }
{
    match message {
        0x38 | 0xB8 => 0,
        0x39 => 0,
        0x3A => 0,
        _ => 8,
    }
}

// New Order, after ClOrdID: Side not blank and of its kind, OrderQty from 1 to 999,999. Ok; or 10 at the first that is not so.
#[tactic(auto, unfolding(refusals::specs::Outcomes::outcome_with))]
fn check_new_order(f: &[u8]) -> Result<(), Refusal>
    requires { 25 ≤ length f.now }
    ensures { result ≡ outcome (bad_at (new_order_rest f.now)) }
{
    if !kinds::agrees_filled(Kind::Alphanumeric, &f[20..21]) {
        return Err(Refusal::at(Reason::BadValue, 30));
    }
    let quantity = numbers::read_u32(&f[21..25], 0);
    if quantity < 1 {
        return Err(Refusal::at(Reason::BadValue, 31));
    }
    if 999999 < quantity {
        return Err(Refusal::at(Reason::BadValue, 31));
    }
    Ok(())
}

// Modify Order, after ClOrdID: OrigClOrdID. Ok; or 10 at its place where it is not an identifier.
#[tactic(auto, unfolding(refusals::specs::Outcomes::outcome_with))]
fn check_modify_order(f: &[u8]) -> Result<(), Refusal>
    requires { 40 ≤ length f.now }
    ensures { result ≡ outcome (bad_at (modify_order_rest f.now)) }
{
    if !kinds::agrees_filled(Kind::Identifier, &f[20..40]) {
        return Err(Refusal::at(Reason::BadValue, 30));
    }
    Ok(())
}

// Order Execution, after ClOrdID: BaseLiquidityIndicator, SubLiquidityIndicator and ContraBroker of their kinds. Ok; or 10 at the first that is not.
#[tactic(auto, unfolding(refusals::specs::Outcomes::outcome_with))]
fn check_execution(f: &[u8]) -> Result<(), Refusal>
    requires { 58 ≤ length f.now }
    ensures { result ≡ outcome (bad_at (execution_rest f.now)) }
{
    if !kinds::agrees(Kind::Alphanumeric, &f[52..53]) {
        return Err(Refusal::at(Reason::BadValue, 62));
    }
    if !kinds::agrees(Kind::Alphanumeric, &f[53..54]) {
        return Err(Refusal::at(Reason::BadValue, 63));
    }
    if !kinds::agrees(Kind::Alphanumeric, &f[54..58]) {
        return Err(Refusal::at(Reason::BadValue, 64));
    }
    Ok(())
}

// A rejection, after ClOrdID: the reason and Text of their kind. Ok; or 10 at the first that is not.
#[tactic(auto, unfolding(refusals::specs::Outcomes::outcome_with))]
fn check_rejection(f: &[u8]) -> Result<(), Refusal>
    requires { 89 ≤ length f.now }
    ensures { result ≡ outcome (bad_at (rejection_rest f.now)) }
{
    if !kinds::agrees(Kind::Text, &f[28..29]) {
        return Err(Refusal::at(Reason::BadValue, 38));
    }
    if !kinds::agrees(Kind::Text, &f[29..89]) {
        return Err(Refusal::at(Reason::BadValue, 39));
    }
    Ok(())
}

// 10 at the place in the message of the first field of a fixed part whose value is against its kind or range; Ok where there is none. More bytes may follow
// the fixed part. Every type but Purge Orders has an identifier, never blank; Cancel Order and Order Acknowledgment have nothing else to test.
pub fn check_fixed(message: u8, f: &[u8]) -> Result<(), Refusal>
    requires { count_at message ≤ length f.now + 10 }
    ensures { result ≡ outcome (bad_at (fixed_wrong message f.now)) }
{
    if message == 0x47 {
        return Ok(());
    }
    let at = name_at(message);
    if !kinds::identifies(&f[at..at + 20]) {
        return Err(Refusal::at(Reason::BadValue, 10 + at));
    }
    match message {
        0x38 | 0xB8 => check_new_order(f),
        0x39 => Ok(()),
        0x25 => Ok(()),
        0x2C => check_execution(f),
        0x3A => check_modify_order(f),
        _ => check_rejection(f),
    }
}

// The bytes between the bitfields and the optional fields: of Purge Orders RiskGroupIDCnt and its RiskGroupIDs, by the first byte of what follows the
// bitfields; the other messages have none.
pub fn middle_size(message: u8, count: u8, bits: &[u8], rest: &[u8]) -> usize
    ensures { (result ≡ middle_size message count bits.now rest.now) × (result ≤ 511) }
{
    if message == 0x47 {
        let groups = numbers::byte_at(rest, 0);
        return 1 + 2 * (groups as usize);
    }
    0
}

// Whether these bytes are good: at most 10 RiskGroupIDs.
pub fn middle_good(message: u8, count: u8, bits: &[u8], rest: &[u8]) -> bool
    ensures { result ≡ middle_good message count bits.now rest.now }
{
    if message == 0x47 {
        return numbers::byte_at(rest, 0) <= 10;
    }
    true
}

// Whether a Modify Order lacks its Price: it is not selected, and OrdType has not the market value.
fn modify_order_lacks(count: u8, bits: &[u8], kind: u8) -> bool
    requires { count ≤ length bits.now }
    ensures { result ≡ (not (selected_at count bits.now 3) && not (eqb kind market)) }
{
    if block::is_selected(bits, count, 3) {
        return false;
    }
    kind != b'1'
}

// Whether a Purge Orders whose MassCancelInst begins with F has no ClearingFirm.
fn lacks_firm(count: u8, bits: &[u8], first: u8) -> bool
    requires { count ≤ length bits.now }
    ensures { result ≡ (eqb first char_f && not (selected_at count bits.now 0)) }
{
    if first != b'F' {
        return false;
    }
    !block::is_selected(bits, count, 0)
}

// Whether the second character of MassCancelInst asks for one acknowledgment of all.
fn asks_for_one(style: u8) -> bool
    ensures { result ≡ (eqb style char_s || eqb style char_b) }
{
    if style == b'S' {
        return true;
    }
    style == b'B'
}

// Whether a Purge Orders that asks for it has no MassCancelID.
fn lacks_id(count: u8, bits: &[u8], second: u8) -> bool
    requires { count ≤ length bits.now }
    ensures { result ≡ ((eqb second char_s || eqb second char_b) && not (selected_at count bits.now 4)) }
{
    if !asks_for_one(second) {
        return false;
    }
    !block::is_selected(bits, count, 4)
}

// Whether a Purge Orders has not selected a field that MassCancelInst needs.
fn purge_orders_lacks(count: u8, bits: &[u8], first: u8, second: u8) -> bool
    requires { count ≤ length bits.now }
    ensures { result ≡ purge_needs count bits.now first second }
{
    if lacks_firm(count, bits, first) {
        return true;
    }
    lacks_id(count, bits, second)
}

// Whether the third character of MassCancelInst locks out without F as its first.
fn locks_all(first: u8, third: u8) -> bool
    ensures { result ≡ (eqb third char_l && not (eqb first char_f)) }
{
    if third != b'L' {
        return false;
    }
    first != b'F'
}

// Whether Symbol is selected together with a MatchingUnit other than 0.
fn symbol_and_unit(count: u8, bits: &[u8], unit: u8) -> bool
    requires { count ≤ length bits.now }
    ensures { result ≡ (selected_at count bits.now 8 && (selected_at count bits.now 15 && not (eqb unit 0))) }
{
    if !block::is_selected(bits, count, 8) {
        return false;
    }
    if !block::is_selected(bits, count, 15) {
        return false;
    }
    unit != 0
}

// Whether the fields of a Purge Orders do not go together.
fn purge_orders_conflicts(count: u8, bits: &[u8], first: u8, third: u8, unit: u8) -> bool
    requires { count ≤ length bits.now }
    ensures { result ≡ purge_clash count bits.now first third unit }
{
    if locks_all(first, third) {
        return true;
    }
    symbol_and_unit(count, bits, unit)
}

// What is judged of a Modify Order after 10, by OrdType's byte: 9, at the last bitfield byte, where Price is needed.
#[tactic(auto, unfolding(refusals::specs::Outcomes::outcome_with, crate::specs::LateBytes::modify_late))]
pub fn check_modify_late(count: u8, bits: &[u8], kind: u8) -> Result<(), Refusal>
    requires { count ≤ length bits.now }
    ensures { result ≡ outcome (modify_late count bits.now kind) }
{
    if modify_order_lacks(count, bits, kind) {
        return Err(Refusal::at(Reason::NotSelected, 50 + (count as usize)));
    }
    Ok(())
}

// What is judged of a Purge Orders after 10, by the first three characters of MassCancelInst and MatchingUnit: 9 for a field that they need, at the last
// bitfield byte; 23 for those that do not go together.
#[tactic(auto, unfolding(refusals::specs::Outcomes::outcome_with, crate::specs::LateBytes::purge_late))]
pub fn check_purge_late(
    count: u8,
    bits: &[u8],
    first: u8,
    second: u8,
    third: u8,
    unit: u8,
) -> Result<(), Refusal>
    requires { count ≤ length bits.now }
    ensures { result ≡ outcome (purge_late count bits.now first second third unit) }
{
    if purge_orders_lacks(count, bits, first, second) {
        return Err(Refusal::at(Reason::NotSelected, 11 + (count as usize)));
    }
    if purge_orders_conflicts(count, bits, first, third, unit) {
        return Err(Refusal::new(Reason::Conflict));
    }
    Ok(())
}

// The same of a full layout, whatever the message: the others have no late refusal.
pub fn check_late(message: u8, count: u8, bits: &[u8], slots: &[u8]) -> Result<(), Refusal>
    requires { (count ≤ length bits.now) × (length slots.now ≡ layout_size) }
    ensures { result ≡ outcome (late_refusal message count bits.now slots.now) }
{
    match message {
        0x3A => check_modify_late(count, bits, slots[16]),
        0x47 => check_purge_late(count, bits, slots[4], slots[5], slots[6], slots[56]),
        _ => Ok(()),
    }
}

// The blank record, with which a new one begins.
pub fn blank_record() -> Record
    ensures { result ≡ blank }
{
    Record {
        message: 0,
        unit: 0,
        number: 0,
        fixed: [0; block::FIXED],
        count: 0,
        bits: [0; block::BITFIELDS],
        slots: [0; block::LAYOUT],
    }
}
