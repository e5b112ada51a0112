// A rehearsal of one trading day: our gateway's session against the bench venue, told row by row. Every answer is one of the proved core.
#![tactic(auto)]

mod acts;
mod bench;
mod forms;
mod lasts;
mod orders_out;
mod outage;
mod replays;
mod say;
mod told;
mod written;

use bench::{Bench, Room};
use std::io;

// What the rows mean.
fn preface(rt: &impl Print) -> io::Result<()> {
    println!(rt;
        "One trading day, rehearsed: our order gateway against the bench venue. Each step is a call of the proved core."
    )?;
    println!(rt;
        "A row says when, who, and what. The venue numbers its messages unit by unit: 'unit 1 at 3' says that message 3 is the"
    )?;
    println!(rt;
        "last one held of unit 1, and units at 0 are left out. The day book holds the venue's messages, and a mark from its"
    )?;
    println!(rt;
        "opening and from each session's end. A refusal comes with its number and what it means."
    )
}

// The day up to the restart.
fn morning(rt: &impl Print, book: &mut Room, log: &mut Room) -> io::Result<Bench> {
    let opened = acts::opens(rt, book)?;
    let broken = acts::first_session(rt, opened, book, log)?;
    let logged = acts::while_down(rt, broken, log)?;
    let first = acts::first_replay(rt, logged, book, log)?;
    let second = acts::second_replay(rt, first, book, log)?;
    let third = acts::third_replay(rt, second, book, log)?;
    acts::restart_after_cut(rt, third, book)
}

// The day after it.
fn rest_of_day(rt: &impl Print, b: Bench, book: &mut Room, log: &mut Room) -> io::Result<()> {
    let complete = acts::full_replay(rt, b, book, log)?;
    let live = acts::live(rt, complete, book, log)?;
    let refused = acts::out_of_order(rt, live, book)?;
    let silent = acts::heartbeats(rt, refused, book)?;
    let ended = acts::end_of_day(rt, silent, book, log)?;
    acts::options_desk(rt)?;
    acts::listing(rt, ended, book)
}

// The book's and the log's bytes, and the day.
fn main(rt: HostRuntime) -> io::Result<()> {
    let mut book = [0u8; 4096];
    let mut log = [0u8; 4096];
    preface(&rt)?;
    let b = morning(&rt, &mut book, &mut log)?;
    rest_of_day(&rt, b, &mut book, &mut log)
}
