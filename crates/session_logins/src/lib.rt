// The Login Request built from the sequence table, with the choice of units as a value.
#![tactic(auto)]

ghost use Rattle.std.specs.Prelude.{◌≡◌, [], ◌∷◌, ◌++◌, ◌*◌, ◌≤◌, length, take};
ghost use Rattle.numbers.specs.Numbers.{bytes_of, patched};
ghost use Rattle.session_groups.specs.Values.{pairs_bytes};
ghost use Rattle.session_messages.specs.Sessions.{record_refusal, record_buffer};
ghost use Rattle.session_logins.specs.LoginRequests.{blank_units, no_choice, all_units, used_units, numbers_of, choice_of, pairs_for, units_part, bits_part, group_count, groups_part, said_of, login_record};
ghost use Rattle.refusals.specs.Outcomes.{outcome};

use refusals::Refusal;
use session_messages::Record;
use table::{Table, Unit};

// Which units a login lists: 0 no choice given, 1 the first `count` of `units` with `flag`, any other no group of units.
#[derive(Clone, Copy)]
pub struct Choice {
    pub which: u8,
    pub flag: u8,
    pub count: u8,
    pub units: [Unit; 32],
}

// The bitfields that a login asks for of one message type, if it does.
#[derive(Clone, Copy)]
pub struct Bitfields {
    pub given: bool,
    pub count: u8,
    pub bits: [u8; 15],
}

// No choice given: the units whose entry is above 0, with flag 0.
pub fn no_choice() -> Choice
    ensures { result ≡ no_choice }
{
    Choice {
        which: 0,
        flag: 0,
        count: 0,
        units: [Unit(0); 32],
    }
}

// The first `count` of `units`, with a flag.
pub fn chosen(flag: u8, count: u8, units: [Unit; 32]) -> Choice
    ensures { result ≡ record { which = 1; flag = flag; count = count; units = units } }
{
    Choice {
        which: 1,
        flag: flag,
        count: count,
        units: units,
    }
}

// No group of units.
pub fn no_units() -> Choice
    ensures { result ≡ record { which = 2; flag = 0; count = 0; units = blank_units } }
{
    Choice {
        which: 2,
        flag: 0,
        count: 0,
        units: [Unit(0); 32],
    }
}

// The full list by name: all 32 units, ascending, with flag 1.
pub fn all_units() -> Choice
    ensures { result ≡ all_units }
{
    Choice {
        which: 1,
        flag: 1,
        count: 32,
        units: [
            Unit(1),
            Unit(2),
            Unit(3),
            Unit(4),
            Unit(5),
            Unit(6),
            Unit(7),
            Unit(8),
            Unit(9),
            Unit(10),
            Unit(11),
            Unit(12),
            Unit(13),
            Unit(14),
            Unit(15),
            Unit(16),
            Unit(17),
            Unit(18),
            Unit(19),
            Unit(20),
            Unit(21),
            Unit(22),
            Unit(23),
            Unit(24),
            Unit(25),
            Unit(26),
            Unit(27),
            Unit(28),
            Unit(29),
            Unit(30),
            Unit(31),
            Unit(32),
        ],
    }
}

// Only the units whose entry is above 0, ascending, with flag 0, so that an unlisted unit is replayed from its first message.
pub fn used_units(table: Table) -> Choice
    ensures { result ≡ used_units table }
{
    let mut units = [Unit(0); 32];
    let mut count: usize = 0;
    for i in 0u8..32 {
        let unit = Unit(i + 1);
        let held = table.entry(unit);
        if held.last.0 > 0 {
            units[count] = unit;
            count += 1;
        }
    }
    chosen(0, count as u8, units)
}

// The choice as it is carried out: the units whose entry is above 0 where none is given.
#[tactic(auto, unfolding(crate::specs::LoginRequests::choice_of))]
fn choice_of(table: Table, choice: Choice) -> Choice
    ensures { result ≡ choice_of table choice }
{
    if choice.which == 0 {
        return used_units(table);
    }
    choice
}

// A group's length, type, flag or message type, and number of entries, into the front of a lent tail.
fn put_group_head(size: u16, kind: u8, x: u8, count: u8, tail: &mut [u8])
    requires { 5 ≤ length tail.old }
    ensures { tail.new ≡ patched tail.old 0 (bytes_of 2 size ++ (kind ∷ x ∷ count ∷ [])) }
{
    let _ = numbers::write_u16(tail, 0, size);
    tail[2] = kind;
    tail[3] = x;
    tail[4] = count;
}

// The pairs of the first n units of a choice, each with its number in the table.
pub fn put_pairs(table: Table, choice: Choice, n: usize, tail: &mut [u8])
    requires { (n ≤ 32) × (5 * n ≤ length tail.old) }
    ensures { tail.new ≡ patched tail.old 0 (pairs_bytes (pairs_for table (take n (numbers_of choice.units)))) }
{
    for i in 0..n {
        let unit = choice.units[i];
        let entry = table.entry(unit);
        tail[5 * i] = unit.0;
        let _ = numbers::write_u32(tail, 5 * i + 1, entry.last.0);
    }
}

// The group of units, if there is one, into the front of a lent tail; answers its size.
fn put_units(table: Table, choice: Choice, tail: &mut [u8]) -> usize
    requires { 165 ≤ length tail.old }
    ensures { (result ≡ length (units_part table choice)) × (tail.new ≡ patched tail.old 0 (units_part table choice)) }
{
    if choice.which != 1 {
        return 0;
    }
    let n = (choice.count as usize).min(32);
    put_group_head(
        5 + 5 * (choice.count as u16),
        0x80,
        choice.flag,
        choice.count,
        tail,
    );
    put_pairs(table, choice, n, &mut tail[5..]);
    5 + 5 * n
}

// The group of the bitfields of a message type, if there is one, into the front of a lent tail; answers its size.
fn put_bits(kind: u8, b: Bitfields, tail: &mut [u8]) -> usize
    requires { 20 ≤ length tail.old }
    ensures { (result ≡ length (bits_part kind b)) × (tail.new ≡ patched tail.old 0 (bits_part kind b)) }
{
    if !b.given {
        return 0;
    }
    let bits = b.bits;
    let n = (b.count as usize).min(15);
    put_group_head(5 + (b.count as u16), 0x81, kind, b.count, tail);
    block::copy_front(&bits, n, &mut tail[5..]);
    5 + n
}

// The bitfields of 0x25 and those of 0x2C after them, into the front of a lent tail.
fn put_both(acknowledgments: Bitfields, executions: Bitfields, tail: &mut [u8])
    requires { 40 ≤ length tail.old }
    ensures { tail.new ≡ patched tail.old 0 (bits_part 0x25 acknowledgments ++ bits_part 0x2C executions) }
{
    let n = put_bits(0x25, acknowledgments, tail);
    put_bits(0x2C, executions, &mut tail[n..]);
}

// The group of units, and these after it.
fn put_groups(
    table: Table,
    choice: Choice,
    acknowledgments: Bitfields,
    executions: Bitfields,
    tail: &mut [u8],
)
    requires { 205 ≤ length tail.old }
    ensures { tail.new ≡ patched tail.old 0 (groups_part table choice acknowledgments executions) }
{
    let n = put_units(table, choice, tail);
    put_both(acknowledgments, executions, &mut tail[n..]);
}

// The number of groups.
#[tactic(auto, using(crate::proofs::Parts::counts), unfolding(crate::specs::LoginRequests::group_count))]
fn group_count(choice: Choice, acknowledgments: Bitfields, executions: Bitfields) -> u8
    ensures { result ≡ group_count choice acknowledgments executions }
{
    (choice.which == 1) as u8 + (acknowledgments.given as u8 + executions.given as u8)
}

// The names, the number of groups, and the groups, into the front of a buffer.
fn put_body(
    table: Table,
    choice: Choice,
    names: &[u8],
    acknowledgments: Bitfields,
    executions: Bitfields,
    out: &mut [u8],
)
    requires { (length names.now ≡ 18) × (224 ≤ length out.old) }
    ensures { out.new ≡ patched out.old 0 (said_of table choice names.now acknowledgments executions) }
{
    block::copy(names, out);
    out[18] = group_count(choice, acknowledgments, executions);
    put_groups(table, choice, acknowledgments, executions, &mut out[19..]);
}

// The record of a Login Request with the table's numbers: the writer refuses what the choice has against the rules.
pub fn login_record(
    table: Table,
    choice: Choice,
    names: [u8; 18],
    acknowledgments: Bitfields,
    executions: Bitfields,
) -> Record
    ensures { result ≡ login_record table choice names acknowledgments executions }
{
    let resolved = choice_of(table, choice);
    let mut body = [0u8; 433];
    put_body(
        table,
        resolved,
        &names,
        acknowledgments,
        executions,
        &mut body,
    );
    Record {
        message: 0x37,
        unit: 0,
        number: 0,
        body: body,
    }
}

// Writes that record: Ok, and the buffer begins with the message's bytes and is otherwise as it was; or the refusal (10, 11 or 13), and the
// buffer is as it was.
pub fn write_login(
    table: Table,
    choice: Choice,
    names: [u8; 18],
    acknowledgments: Bitfields,
    executions: Bitfields,
    out: &mut [u8],
) -> Result<(), Refusal>
    ensures { (result ≡ outcome (record_refusal (login_record table choice names acknowledgments executions) (length out.old))) × (out.new ≡ record_buffer (login_record table choice names acknowledgments executions) out.old) }
{
    session_messages::write_session(
        login_record(table, choice, names, acknowledgments, executions),
        out,
    )
}
