// The two forms of a login with the whole table: the units above 0, where no choice is given, and the full list by name.
use crate::bench::{Bench, Room};
use crate::say::Who;
use crate::{say, written};
use refusals::Refusal;
use session_logins::Choice;
use std::io;
use venue::{Sent, Venue};

// The forms: the units above 0, and all 32.
#[derive(Clone, Copy)]
pub enum Form {
    UsedUnits,
    AllUnits,
}

impl Form {
    // The choice of units of a form.
    pub fn choice(self) -> Choice {
        match self {
            Form::UsedUnits => session_logins::no_choice(),
            Form::AllUnits => session_logins::all_units(),
        }
    }
}

// Two venues, the messages that the first has sent, and whether the other has sent the same bytes.
#[derive(Clone, Copy)]
struct Pair {
    one: Venue,
    other: Venue,
    sent: u8,
    same: bool,
}

// The login in a form, into the front of a buffer, and the venue after it.
fn taken(b: Bench, form: Form, up: &mut [u8]) -> Venue {
    let _ = b.session.login(
        form.choice(),
        written::names(),
        written::acknowledgment_fields(),
        written::execution_fields(),
        up,
    );
    let mut down = [0u8; 600];
    b.venue
        .login(up, &mut down)
        .map_or(b.venue, |sent| sent.venue)
}

// What a step of a venue brings: the venue after it, and whether it sent a message; as it was, where it is refused.
fn after(v: Venue, step: Result<Sent, Refusal>) -> (Venue, bool) {
    step.map_or((v, false), |sent| (sent.venue, sent.sent != 0))
}

// A step of both.
fn steps(p: Pair, log: &Room) -> Pair {
    let mut down = [0u8; 2048];
    let mut beside = [0u8; 2048];
    let (one, sent) = after(p.one, p.one.step(log, &mut down));
    let (other, _) = after(p.other, p.other.step(log, &mut beside));
    Pair {
        one,
        other,
        sent: p.sent.wrapping_add(u8::from(sent)),
        same: p.same && down == beside,
    }
}

// So many steps that the venue has nothing more to send.
fn all_steps(p: Pair, log: &Room) -> Pair {
    (0..6).fold(p, |p, _| steps(p, log))
}

// The length of the first message.
fn length_in(bytes: &[u8]) -> usize {
    wire::frame(bytes).len()
}

// Both forms are tried from one and the same state, of which nothing is kept: what the venue sends after either.
pub fn compares(rt: &impl Print, b: Bench, log: &Room) -> io::Result<()> {
    let mut short = [0u8; 600];
    let mut full = [0u8; 600];
    let started = Pair {
        one: taken(b, Form::UsedUnits, &mut short),
        other: taken(b, Form::AllUnits, &mut full),
        sent: 0,
        same: true,
    };
    let p = all_steps(started, log);
    say::row(rt, b.clock, Who::Gateway)?;
    print!(rt;
        "compares both forms of its login: {} bytes with its units above 0, ",
        length_in(&short)
    )?;
    print!(rt; "{} with all 32; ", length_in(&full))?;
    if p.same {
        println!(rt;
            "after either the venue would send the same {} messages, byte for byte",
            p.sent
        )
    } else {
        println!(rt; "AFTER THE TWO THE VENUE WOULD NOT SEND THE SAME")
    }
}
