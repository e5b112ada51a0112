// The bench: our gateway's session and the venue, by value, while the book's and the log's bytes are lent; and what passes between the two.
use crate::forms::Form;
use crate::say::Who;
use crate::{replays, say, told, written};
use orders::Market;
use refusals::Refusal;
use session::{Session, Told};
use std::io;
use table::Table;
use venue::Venue;

// The room of a book or a log.
pub type Room = [u8; 4096];

// What stands on the bench.
#[derive(Clone, Copy)]
pub struct Bench {
    pub session: Session,
    pub venue: Venue,
    // for each unit, the last number that the log held when the venue took the last login
    pub held: Table,
    // milliseconds since midnight, and when our gateway last sent and last heard something
    pub clock: u32,
    pub sent: u32,
    pub heard: u32,
}

impl Bench {
    // The bench at an hour and minute of the day.
    pub fn at(self, hour: u8, minute: u8) -> Bench {
        Bench {
            clock: (u32::from(hour) * 60 + u32::from(minute)) * 60000,
            ..self
        }
    }

    // The bench so many milliseconds later.
    pub fn later(self, milliseconds: u32) -> Bench {
        Bench {
            clock: self.clock.wrapping_add(milliseconds),
            ..self
        }
    }

    // The bench with our session in another state.
    pub fn with_session(self, session: Session) -> Bench {
        Bench { session, ..self }
    }

    // The bench with the venue in another state.
    pub fn with_venue(self, venue: Venue) -> Bench {
        Bench { venue, ..self }
    }

    // The bench after our gateway sent something.
    pub fn after_sending(self, session: Session) -> Bench {
        Bench {
            session,
            sent: self.clock,
            ..self
        }
    }

    // The bench after our gateway heard something.
    fn after_hearing(self, session: Session) -> Bench {
        Bench {
            session,
            heard: self.clock,
            ..self
        }
    }

    // Our book's table.
    pub fn table(self) -> Table {
        self.session.book.table
    }

    // The market that our gateway serves.
    pub fn market(self) -> Market {
        self.session.market
    }

    // Our book's length.
    pub fn book_length(self) -> u32 {
        self.session.book.length
    }
}

// Which units a login lists.
fn listed(form: Form) -> &'static str {
    match form {
        Form::AllUnits => "the full list of 32 units",
        Form::UsedUnits => "its units above 0",
    }
}

// Our gateway sends its login in a form.
fn asks(rt: &impl Print, b: Bench, form: Form, up: &mut [u8]) -> io::Result<Bench> {
    let asked = b.session.login(
        form.choice(),
        written::names(),
        written::acknowledgment_fields(),
        written::execution_fields(),
        up,
    );
    say::row(rt, b.clock, Who::Gateway)?;
    if let Err(refusal) = asked {
        println!(rt; "may not log in: {}", say::Refused(refusal))?;
    } else {
        print!(rt; "logs in with {}", listed(form))?;
        told::size(rt, up)?;
        println!(rt; "; it claims: {}", say::Numbers(b.table()))?;
    }
    Ok(b.after_sending(asked.unwrap_or(b.session)))
}

// The venue takes the login, and answers it.
fn answers(rt: &impl Print, b: Bench, up: &[u8], down: &mut [u8]) -> io::Result<Bench> {
    let held = b.venue.table;
    let answered = b.venue.login(up, down);
    say::row(rt, b.clock, Who::Venue)?;
    if let Err(refusal) = answered {
        println!(rt; "does not take the login: {}", say::Refused(refusal))?;
    } else {
        rt.print("answers ")?;
        told::response(rt, down)?;
        println!(rt; "; its log: {}", say::Numbers(held))?;
    }
    Ok(Bench {
        venue: answered.map_or(b.venue, |sent| sent.venue),
        held,
        ..b
    })
}

// Our gateway logs in on a new line, with the full list of units or with no choice of them, the venue answers, and the answer arrives.
pub fn logs_in(rt: &impl Print, b: Bench, form: Form, book: &mut Room) -> io::Result<Bench> {
    let mut up = [0u8; 600];
    let mut down = [0u8; 600];
    let asked = asks(rt, b, form, &mut up)?;
    let answered = answers(rt, asked.later(10), &up, &mut down)?;
    receives(rt, answered.later(10), &down, book)
}

// The venue takes its next step, and what it sends arrives.
pub fn delivers(rt: &impl Print, b: Bench, log: &Room, book: &mut Room) -> io::Result<Bench> {
    let mut down = [0u8; 2048];
    let sent = match b.venue.step(log, &mut down) {
        Ok(sent) => sent,
        Err(refusal) => {
            let waited = b.later(10);
            say::row(rt, waited.clock, Who::Venue)?;
            println!(rt; "{}", say::Refused(refusal))?;
            return Ok(waited);
        }
    };
    let stepped = b.with_venue(sent.venue).later(10);
    if sent.sent == 0 {
        say::row(rt, stepped.clock, Who::Venue)?;
        println!(rt; "has nothing more to send")?;
        return Ok(stepped);
    }
    receives(rt, stepped, &down, book)
}

// The venue takes its next step, and what it sends is lost: the line breaks before it arrives.
pub fn loses(rt: &impl Print, b: Bench, log: &Room) -> io::Result<Bench> {
    let mut down = [0u8; 2048];
    let after = b
        .venue
        .step(log, &mut down)
        .map_or(b.venue, |sent| sent.venue);
    let stepped = b.with_venue(after).later(10);
    say::row(rt, stepped.clock, Who::Venue)?;
    rt.print("sends ")?;
    told::report(rt, &down)?;
    println!(rt; ", which never arrives")?;
    Ok(stepped)
}

// The venue sends a rejection, and it arrives.
pub fn rejects(rt: &impl Print, b: Bench, bytes: &[u8], book: &mut Room) -> io::Result<Bench> {
    say::row(rt, b.clock, Who::Venue)?;
    rt.print("sends ")?;
    told::rejection(rt, bytes)?;
    told::size(rt, bytes)?;
    println!(rt; ", which is neither numbered nor logged")?;
    receives(rt, b.later(10), bytes, book)
}

// Bytes of the venue's arrive at our gateway.
pub fn receives(rt: &impl Print, b: Bench, bytes: &[u8], book: &mut Room) -> io::Result<Bench> {
    let answer = b.session.receive(bytes, book);
    say::row(rt, b.clock, Who::Gateway)?;
    match answer {
        Ok((heard, told)) => {
            let next = b.after_hearing(heard);
            told_of(rt, next, told, bytes, book)?;
            Ok(next)
        }
        Err(refusal) => {
            let next = b.after_hearing(b.session);
            refuses(rt, next, bytes, refusal)?;
            Ok(next)
        }
    }
}

// A message is refused: the book and its table, which stay as they were.
fn refuses(rt: &impl Print, b: Bench, bytes: &[u8], refusal: Refusal) -> io::Result<()> {
    rt.print("gets ")?;
    told::report(rt, bytes)?;
    println!(rt; ": {}", say::Refused(refusal))?;
    say::further(rt)?;
    println!(rt;
        "book still {} bytes, table still: {}",
        b.book_length(),
        say::Numbers(b.table())
    )
}

// A message is taken: what became of it.
fn told_of(rt: &impl Print, b: Bench, told: Told, bytes: &[u8], book: &Room) -> io::Result<()> {
    match told {
        Told::Nothing => heard_of(rt, b, bytes, book),
        Told::Booked => books(rt, b, bytes),
        Told::Handed => hands(rt, bytes),
    }
}

// A session message is taken: what it brings.
fn heard_of(rt: &impl Print, b: Bench, bytes: &[u8], book: &Room) -> io::Result<()> {
    match wire::header::type_of(bytes) {
        0x24 => begins(rt, b),
        0x13 => replays::completes(rt, b),
        0x09 => println!(rt; "hears a Server Heartbeat; book and table stay as they are"),
        _ => logs_out(rt, b, bytes, book),
    }
}

// A rejection is handed to the desk.
fn hands(rt: &impl Print, bytes: &[u8]) -> io::Result<()> {
    rt.print("hands the desk ")?;
    told::rejection(rt, bytes)?;
    println!(rt; "; book and table stay as they are")
}

// A message is in the book.
fn books(rt: &impl Print, b: Bench, bytes: &[u8]) -> io::Result<()> {
    rt.print("books ")?;
    told::report(rt, bytes)?;
    println!(rt; "; table: {}", say::Numbers(b.table()))
}

// The answer to the login has arrived.
fn begins(rt: &impl Print, b: Bench) -> io::Result<()> {
    let s = b.session;
    let next = u64::from(s.outgoing.0) + 1;
    println!(rt;
        "has the answer and is {}; its next order will have number {next}",
        say::phase(s.phase)
    )
}

// A Logout has arrived.
fn logs_out(rt: &impl Print, b: Bench, bytes: &[u8], book: &Room) -> io::Result<()> {
    rt.print("hears ")?;
    told::logout(rt, bytes)?;
    rt.print(": session ")?;
    ends(rt, b, book)
}

// The session's end: its phase, and the mark that it left in the book.
fn ends(rt: &impl Print, b: Bench, book: &Room) -> io::Result<()> {
    let s = b.session;
    let kept = s.book;
    rt.print(say::phase(s.phase))?;
    if u64::from(kept.last) + 16 != u64::from(kept.length) {
        return println!(rt; ", no room for a mark in the book");
    }
    let back = numbers::read_u32(book, (kept.last as usize) + 12);
    println!(rt;
        ", mark in the book: {} messages so far, {back} bytes back to the mark before",
        kept.count
    )
}

// The line breaks, and both sides see it.
pub fn breaks(rt: &impl Print, b: Bench, book: &mut Room) -> io::Result<Bench> {
    say::row(rt, b.clock, Who::Line)?;
    println!(rt; "breaks")?;
    let next = Bench {
        session: b.session.broken(book),
        venue: b.venue.broken(),
        ..b
    };
    say::row(rt, b.clock, Who::Gateway)?;
    rt.print("sees the break: session ")?;
    ends(rt, next, book)?;
    Ok(next)
}

// The venue logs a message.
pub fn logs(rt: &impl Print, b: Bench, bytes: &[u8], log: &mut Room) -> io::Result<Bench> {
    let logged = b.venue.log(bytes, log);
    say::row(rt, b.clock, Who::Venue)?;
    rt.print("logs ")?;
    told::report(rt, bytes)?;
    told::size(rt, bytes)?;
    if let Err(refusal) = logged {
        print!(rt; ": {}", say::Refused(refusal))?;
    }
    println!(rt)?;
    Ok(b.with_venue(logged.unwrap_or(b.venue)))
}
