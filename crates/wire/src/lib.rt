// The wire: a message's header, and framing, which finds the first whole message of a buffer.
#![tactic(auto)]

pub mod header;

ghost use Rattle.std.specs.Prelude.{◌≡◌, take, drop};
ghost use Rattle.refusals.specs.Names.{wrong_total};
ghost use Rattle.refusals.specs.Told.{told};
ghost use Rattle.wire.specs.Header.{total_of};
ghost use Rattle.wire.specs.Frame.{not_ba, starts_bad, length_bad, cut_short, frame_refusal, framed};
ghost use Rattle.refusals.specs.Outcomes.{outcome};

use refusals::{Reason, Refusal};

// Whether a byte is present at a place and is not BA.
fn is_not_ba(s: &[u8], i: usize) -> bool
    ensures { result ≡ not_ba s.now i }
{
    if i < s.len() {
        return s[i] != 0xBA;
    }
    false
}

// Refusal 1: a byte present at place 0 or 1 is not BA.
fn starts_bad(s: &[u8]) -> bool
    ensures { result ≡ starts_bad s.now }
{
    if is_not_ba(s, 0) {
        return true;
    }
    is_not_ba(s, 1)
}

// Refusal 2: four bytes are present, and the length is under 8 or over 2,046.
fn length_bad(s: &[u8]) -> bool
    ensures { result ≡ length_bad s.now }
{
    if s.len() < 4 {
        return false;
    }
    let n = header::length_of(s);
    if n < 8 {
        return true;
    }
    2046 < n
}

// Refusal 3: fewer than four bytes, or fewer than the total.
fn cut_short(s: &[u8]) -> bool
    ensures { result ≡ cut_short s.now }
{
    if s.len() < 4 {
        return true;
    }
    s.len() < header::total_of(s)
}

// Ok where a buffer starts with a whole message, or the refusal: 1, 2 or 3.
#[tactic(auto, unfolding(refusals::specs::Outcomes::outcome_with, crate::specs::Frame::frame_refusal))]
pub fn check_frame(s: &[u8]) -> Result<(), Refusal>
    ensures { result ≡ outcome (frame_refusal s.now) }
{
    if starts_bad(s) {
        return Err(Refusal::new(Reason::BadStart));
    }
    if length_bad(s) {
        return Err(Refusal::new(Reason::BadLength));
    }
    if cut_short(s) {
        return Err(Refusal::new(Reason::Incomplete));
    }
    Ok(())
}

// The first whole message, a part of the caller's buffer; empty where framing refuses.
pub fn frame(s: &[u8]) -> &[u8]
    ensures { result.now ≡ framed s.now }
{
    if check_frame(s).is_ok() {
        let n = header::total_of(s);
        &s[..n]
    } else {
        &s[..0]
    }
}

// Refusal 6, which is told at the message's end: its total, as the header has it.
pub fn wrong_total(m: &[u8]) -> Refusal
    ensures { result ≡ told wrong_total (total_of m.now) }
{
    let n = header::length_of(m);
    Refusal::at(Reason::WrongTotal, (n as usize) + 2)
}

// The first n bytes of a buffer, as far as they are lent.
pub fn first_part(s: &[u8], n: usize) -> &[u8]
    ensures { result.now ≡ take n s.now }
{
    if n < s.len() { &s[..n] } else { &s[..] }
}

// What stands from a place of a buffer on; nothing past its end.
pub fn rest(s: &[u8], at: usize) -> &[u8]
    ensures { result.now ≡ drop at s.now }
{
    let n = s.len();
    if at < n { &s[at..] } else { &s[n..] }
}
