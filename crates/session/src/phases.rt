// The questions of a phase: which it is, and what passes in it.
ghost use Rattle.std.specs.Prelude.{◌≡◌, ◌||◌, eqb};
ghost use Rattle.orders.specs.Shapes.{of_venue};
ghost use Rattle.session.specs.Sessions.{is_closed, is_asked, is_live, is_open, passes};

use crate::Phase;

// Whether no session runs.
pub fn is_closed(p: Phase) -> bool
    ensures { result ≡ is_closed p }
{
    matches!(p, Phase::Closed)
}

// Whether a login waits for its answer.
pub fn is_asked(p: Phase) -> bool
    ensures { result ≡ is_asked p }
{
    matches!(p, Phase::Asked)
}

// Whether the replay is complete.
pub fn is_live(p: Phase) -> bool
    ensures { result ≡ is_live p }
{
    matches!(p, Phase::Live)
}

// Replaying or live.
pub fn is_open(p: Phase) -> bool
    ensures { result ≡ is_open p }
{
    matches!(p, Phase::Replaying | Phase::Live)
}

// Whether a type passes both while replaying and while live.
fn passes_open(message: u8) -> bool
    ensures { result ≡ (of_venue message || (eqb message 0x09 || eqb message 0x08)) }
{
    orders::of_venue(message) || message == 0x09 || message == 0x08
}

// Whether a type passes while asked.
fn passes_asked(message: u8) -> bool
    ensures { result ≡ (eqb message 0x24 || eqb message 0x08) }
{
    message == 0x24 || message == 0x08
}

// Whether a type passes in a phase.
#[tactic(auto, unfolding(crate::specs::Sessions::passes))]
pub fn passes(p: Phase, message: u8) -> bool
    ensures { result ≡ passes p message }
{
    match p {
        Phase::Closed => false,
        Phase::Asked => passes_asked(message),
        Phase::Replaying => message == 0x13 || passes_open(message),
        Phase::Live => passes_open(message),
    }
}
