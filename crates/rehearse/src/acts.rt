// The acts of the day, in their order.
use crate::bench::{Bench, Room};
use crate::forms::Form;
use crate::say::Who;
use crate::{bench, forms, lasts, orders_out, outage, say, written};
use book::Book;
use orders::Market;
use std::io;
use table::{Table, Unit};

// The day, and the day before.
const TODAY: u32 = 20250819;

const YESTERDAY: u32 = 20250818;

// How many bytes of the last message do not reach the disk when the power fails.
const MISSING: u32 = 30;

// Prices in ten-thousandths.
const ABC: i64 = 1234500;

const ABC_LATER: i64 = 1234400;

const DEF: i64 = 471000;

const GHI: i64 = 99950;

const JKL: i64 = 222500;

// Of an option: its price, its strike price, the day that it expires, and a number that is no day.
const PREMIUM: i64 = 6000;

const STRIKE: i64 = 175000;

const MATURITY: u32 = 20250919;

const NO_DAY: u32 = 20250931;

// The number that a unit's next message has.
fn next_number(b: Bench, unit: u8) -> u32 {
    b.venue.table.entry(Unit(unit)).last.0.wrapping_add(1)
}

// The venue acknowledges an order, in its log.
fn acknowledges(
    rt: &impl Print,
    b: Bench,
    unit: u8,
    id: &[u8],
    price: i64,
    log: &mut Room,
) -> io::Result<Bench> {
    let mut bytes = [0u8; 200];
    written::acknowledgment(unit, next_number(b, unit), id, price, &mut bytes);
    bench::logs(rt, b.later(10), &bytes, log)
}

// The venue executes an order, in its log.
fn executes(
    rt: &impl Print,
    b: Bench,
    unit: u8,
    id: &[u8],
    shares: u32,
    price: i64,
    left: u32,
    log: &mut Room,
) -> io::Result<Bench> {
    let mut bytes = [0u8; 200];
    written::execution(
        unit,
        next_number(b, unit),
        id,
        shares,
        price,
        left,
        &mut bytes,
    );
    bench::logs(rt, b.later(10), &bytes, log)
}

// A new day: the book is opened, for the equities market, and the venue has an empty log.
pub fn opens(rt: &impl Print, book: &mut Room) -> io::Result<Bench> {
    say::title(
        rt,
        "1. A new day book, a login with nothing to replay, and four orders",
    )?;
    begins(rt, Market::Equities, book)
}

// A new day book, for a market, and a venue with an empty log.
fn begins(rt: &impl Print, market: Market, book: &mut Room) -> io::Result<Bench> {
    let first = book::open(TODAY, book);
    let kept = match &first {
        Ok(kept) => *kept,
        Err(_) => book::blank_book(),
    };
    let b = Bench {
        session: session::closed_with(market, kept),
        venue: venue::new_venue(),
        held: Table::new(),
        clock: 0,
        sent: 0,
        heard: 0,
    };
    let opened = b.at(8, 0);
    say::row(rt, opened.clock, Who::Gateway)?;
    print!(rt; "opens the day book for {TODAY}, ")?;
    rt.print(say::market(market))?;
    rt.print(": ")?;
    if let Err(refusal) = &first {
        println!(rt; "{}", say::Refused(*refusal))?;
    } else {
        let numbers = say::Numbers(b.table());
        println!(rt;
            "one mark, {} bytes, no message; table: {numbers}",
            b.book_length()
        )?;
    }
    Ok(opened)
}

// The first session: nothing to replay, four orders, of which the last has the identifier of the first, and the line breaks.
pub fn first_session(rt: &impl Print, b: Bench, book: &mut Room, log: &Room) -> io::Result<Bench> {
    let before = b.at(9, 29).later(59500);
    let asked = bench::logs_in(rt, before, Form::UsedUnits, book)?;
    let live = bench::delivers(rt, asked, log, book)?;
    let abc = written::new_order(b"ABC123", written::BUY, 500, ABC);
    let one = orders_out::sends(rt, live.at(9, 30), abc)?;
    let def = written::new_order(b"DEF456", written::SELL, 700, DEF);
    let two = orders_out::sends(rt, one.later(100), def)?;
    let ghi = written::new_order(b"GHI789", written::BUY, 1000, GHI);
    let three = orders_out::sends(rt, two.later(100), ghi)?;
    let again = written::new_order(b"ABC123", written::BUY, 100, ABC);
    let four = orders_out::sends(rt, three.later(100), again)?;
    bench::breaks(rt, four.later(50), book)
}

// What becomes of the orders while no line stands.
pub fn while_down(rt: &impl Print, b: Bench, log: &mut Room) -> io::Result<Bench> {
    say::title(rt, "2. No line: the venue logs what becomes of the orders")?;
    let down = b.later(740);
    let one = acknowledges(rt, down, 1, b"ABC123", ABC, log)?;
    let two = acknowledges(rt, one, 2, b"DEF456", DEF, log)?;
    let three = acknowledges(rt, two, 3, b"GHI789", GHI, log)?;
    let four = executes(rt, three, 1, b"ABC123", 300, ABC, 200, log)?;
    let five = executes(rt, four, 2, b"DEF456", 200, DEF, 500, log)?;
    let six = executes(rt, five, 1, b"ABC123", 200, ABC_LATER, 0, log)?;
    let seven = executes(rt, six, 3, b"GHI789", 400, GHI, 600, log)?;
    executes(rt, seven, 3, b"GHI789", 100, GHI, 500, log)
}

// The first replay, in which a rejection arrives between two messages, and the line breaks.
pub fn first_replay(rt: &impl Print, b: Bench, book: &mut Room, log: &Room) -> io::Result<Bench> {
    say::title(
        rt,
        "3. A new line; a rejection between two messages; it breaks during the replay",
    )?;
    let asked = bench::logs_in(rt, b.at(9, 31), Form::UsedUnits, book)?;
    let one = bench::delivers(rt, asked, log, book)?;
    let mut bytes = [0u8; 200];
    written::order_rejected(b"ABC123", b'D', b"Duplicate ClOrdID", &mut bytes);
    let told = bench::rejects(rt, one, &bytes, book)?;
    let two = bench::delivers(rt, told, log, book)?;
    let three = bench::delivers(rt, two, log, book)?;
    let lost = bench::loses(rt, three, log)?;
    bench::breaks(rt, lost.later(5), book)
}

// The second replay, in which the line breaks again.
pub fn second_replay(rt: &impl Print, b: Bench, book: &mut Room, log: &Room) -> io::Result<Bench> {
    say::title(
        rt,
        "4. The next line, with the full list of units by name; it breaks during the replay again",
    )?;
    let asked = bench::logs_in(rt, b.at(9, 32), Form::AllUnits, book)?;
    let one = bench::delivers(rt, asked, log, book)?;
    let jkl = written::new_order(b"JKL012", written::BUY, 300, JKL);
    let refused = orders_out::sends(rt, one.later(5), jkl)?;
    let two = bench::delivers(rt, refused, log, book)?;
    bench::breaks(rt, two.later(5), book)
}

// The third replay, up to the message in whose middle the power fails.
pub fn third_replay(rt: &impl Print, b: Bench, book: &mut Room, log: &Room) -> io::Result<Bench> {
    say::title(
        rt,
        "5. Another line; the power fails in the middle of a message",
    )?;
    let asked = bench::logs_in(rt, b.at(9, 33), Form::UsedUnits, book)?;
    let one = bench::delivers(rt, asked, log, book)?;
    bench::delivers(rt, one, log, book)
}

// The power failure and the restart: from last night's book, by mistake, and from the day's.
pub fn restart_after_cut(rt: &impl Print, b: Bench, book: &Room) -> io::Result<Bench> {
    let n = b.book_length().wrapping_sub(MISSING);
    let down = outage::power_fails(rt, b.later(1), n)?;
    say::title(
        rt,
        "6. The restart: last night's book, by mistake, and then the day's own",
    )?;
    let refused = from_last_night(rt, down.at(9, 35))?;
    let again = refused.later(30000);
    say::row(rt, again.clock, Who::Gateway)?;
    rt.print("is given the day's book")?;
    outage::restarts(rt, again, TODAY, book, n)
}

// A restart for the day from last night's book.
fn from_last_night(rt: &impl Print, b: Bench) -> io::Result<Bench> {
    let mut buffer = [0u8; 4096];
    let old = last_night(&mut buffer);
    say::row(rt, b.clock, Who::Gateway)?;
    print!(rt; "is given the book of {}", old.date)?;
    let refused = outage::restarts(rt, b, TODAY, &buffer, old.length)?;
    say::further(rt)?;
    let numbers = say::Numbers(old.table);
    println!(rt;
        "(its table: {numbers}; a login with it would have claimed messages of today that we never saw)"
    )?;
    Ok(refused)
}

// Last night's book, which holds four messages of unit 3.
fn last_night(buffer: &mut Room) -> Book {
    let opened = book::open(YESTERDAY, buffer).unwrap_or(book::blank_book());
    let one = with_old(opened, 1, buffer);
    let two = with_old(one, 2, buffer);
    let three = with_old(two, 3, buffer);
    let four = with_old(three, 4, buffer);
    four.close(buffer)
}

// That book with one message more.
fn with_old(b: Book, number: u32, buffer: &mut Room) -> Book {
    let mut bytes = [0u8; 200];
    written::execution(3, number, b"OLD001", 100, GHI, 0, &mut bytes);
    b.append(&bytes, buffer).unwrap_or(b)
}

// The replay that completes; one message is logged before its login, and one after.
pub fn full_replay(
    rt: &impl Print,
    b: Bench,
    book: &mut Room,
    log: &mut Room,
) -> io::Result<Bench> {
    say::title(rt, "7. A new line after the restart; the replay completes")?;
    let logged = executes(rt, b.at(9, 36), 3, b"GHI789", 500, GHI, 0, log)?;
    let ready = logged.later(10);
    forms::compares(rt, ready, log)?;
    let asked = bench::logs_in(rt, ready, Form::UsedUnits, book)?;
    let one = bench::delivers(rt, asked, log, book)?;
    let meanwhile = executes(rt, one, 2, b"DEF456", 500, DEF, 0, log)?;
    let two = bench::delivers(rt, meanwhile, log, book)?;
    let three = bench::delivers(rt, two, log, book)?;
    bench::delivers(rt, three, log, book)
}

// Live: what was logged meanwhile, orders whose numbers go on from the last that the venue received, a price that is changed, and a cancel that is
// rejected.
pub fn live(rt: &impl Print, b: Bench, book: &mut Room, log: &mut Room) -> io::Result<Bench> {
    say::title(
        rt,
        "8. Live: what was logged after the login follows, our orders go on, a price is changed, and a cancel is rejected",
    )?;
    let caught_up = bench::delivers(rt, b, log, book)?;
    let idle = bench::delivers(rt, caught_up, log, book)?;
    let jkl = written::new_order(b"JKL012", written::BUY, 300, JKL);
    let ordered = orders_out::sends(rt, idle.later(500), jkl)?;
    let known = acknowledges(rt, ordered, 1, b"JKL012", JKL, log)?;
    let told = bench::delivers(rt, known, log, book)?;
    let modified = reprices(rt, told.later(500))?;
    let cancels = orders_out::sends(rt, modified.later(500), written::cancel(b"JKL013"))?;
    let mut bytes = [0u8; 200];
    written::cancel_rejected(b"JKL013", b'J', b"TOO LATE", &mut bytes);
    bench::rejects(rt, cancels.later(10), &bytes, book)
}

// The desk changes a price; and asks for a change without one, which the session does not take.
fn reprices(rt: &impl Print, b: Bench) -> io::Result<Bench> {
    let dearer = written::modify(b"JKL013", b"JKL012", 300, JKL + 500);
    let modified = orders_out::sends(rt, b, dearer)?;
    let unpriced = written::unpriced(b"JKL014", b"JKL013", 200);
    orders_out::sends(rt, modified.later(100), unpriced)
}

// Messages out of order: a gap, and a repeat.
pub fn out_of_order(rt: &impl Print, b: Bench, book: &mut Room) -> io::Result<Bench> {
    say::title(
        rt,
        "9. Messages out of order are refused, and nothing changes",
    )?;
    let mut bytes = [0u8; 200];
    written::execution(1, 6, b"JKL012", 100, JKL, 200, &mut bytes);
    let gap = bench::receives(rt, b.later(100), &bytes, book)?;
    written::acknowledgment(1, 4, b"JKL012", JKL, &mut bytes);
    bench::receives(rt, gap.later(100), &bytes, book)
}

// Heartbeats, and a venue that falls silent.
pub fn heartbeats(rt: &impl Print, b: Bench, book: &mut Room) -> io::Result<Bench> {
    say::title(rt, "10. Heartbeats, and a venue that falls silent")?;
    let early = orders_out::beats(rt, b.later(799))?;
    let beaten = orders_out::beats(rt, early.later(1))?;
    let mut bytes = [0u8; 200];
    written::server_heartbeat(&mut bytes);
    let heard = bench::receives(rt, beaten.later(200), &bytes, book)?;
    say::further(rt)?;
    println!(rt; "(our own heartbeats of the next five seconds are left out)")?;
    let nearly = heard.later(4999);
    orders_out::listens(rt, nearly)?;
    let silent = nearly.later(1);
    orders_out::listens(rt, silent)?;
    bench::breaks(rt, silent, book)
}

// The last session: nothing is missing, the venue logs us out at the day's end, and the desk asks for the last message of each unit.
pub fn end_of_day(rt: &impl Print, b: Bench, book: &mut Room, log: &Room) -> io::Result<Bench> {
    say::title(
        rt,
        "11. The last line: nothing to replay, and a Logout at the end of the day",
    )?;
    let before = b.at(15, 59).later(59000);
    let asked = bench::logs_in(rt, before, Form::UsedUnits, book)?;
    let complete = bench::delivers(rt, asked, log, book)?;
    let v = complete.venue;
    let mut bytes = [0u8; 200];
    written::logout(v.received, &mut bytes);
    let ended = bench::receives(rt, complete.at(16, 0), &bytes, book)?;
    lasts::tells_all(rt, ended.later(1000), book)?;
    Ok(ended)
}

// The options desk: a gateway of its own, with a book and a venue of its own. An order of the other market and one whose maturity is no day stay; after a
// break the session serves its market still.
pub fn options_desk(rt: &impl Print) -> io::Result<()> {
    say::title(
        rt,
        "12. The options desk, the same morning: a gateway that serves the other market",
    )?;
    let mut book = [0u8; 4096];
    let log = [0u8; 4096];
    let opened = begins(rt, Market::Options, &mut book)?;
    let asked = bench::logs_in(rt, opened.at(9, 30), Form::UsedUnits, &mut book)?;
    let live = bench::delivers(rt, asked, &log, &mut book)?;
    let call = written::option(b"OPT001", written::BUY, b'1', MATURITY, PREMIUM, STRIKE);
    let one = orders_out::sends(rt, live.later(100), call)?;
    let share = written::new_order(b"ABC123", written::BUY, 500, ABC);
    let two = orders_out::sends(rt, one.later(100), share)?;
    let dayless = written::option(b"OPT002", written::BUY, b'1', NO_DAY, PREMIUM, STRIKE);
    let three = orders_out::sends(rt, two.later(100), dayless)?;
    let broken = bench::breaks(rt, three.later(50), &mut book)?;
    let again = bench::logs_in(rt, broken.at(9, 31), Form::UsedUnits, &mut book)?;
    let back = bench::delivers(rt, again, &log, &mut book)?;
    let put = written::option(b"OPT003", written::SELL, b'0', MATURITY, PREMIUM, STRIKE);
    orders_out::sends(rt, back.later(100), put)?;
    Ok(())
}

// The book's listing.
pub fn listing(rt: &impl Print, b: Bench, book: &Room) -> io::Result<()> {
    say::title(rt, "13. The day book, listed")?;
    println!(rt;
        "(mark: date, messages before it, bytes back to the mark before; message: type, unit, number, ClOrdID, Price;"
    )?;
    println!(rt;
        "25 is an acknowledgment, 2C an execution; end: the book's good length, torn bytes)"
    )?;
    outage::lists(rt, b, book)
}
