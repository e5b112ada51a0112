// What a session's state has beside its book: the outgoing number, the phase and the market.
ghost use Rattle.std.specs.Prelude.{◌≡◌, ◌≤◌, length};
ghost use Rattle.numbers.specs.Numbers.{patched};
ghost use Rattle.session_calls.specs.SessionBytes.{outgoing_at, phase_of, phase_number, market_number, session_of, beside_bytes};

use orders::Market;
use session::Phase;
use table::OutgoingNumber;

// A phase by its number; what is no phase's is that of no session.
fn phase_of(n: u8) -> Phase
    ensures { result ≡ phase_of n }
{
    match n {
        1 => Phase::Asked,
        2 => Phase::Replaying,
        3 => Phase::Live,
        _ => Phase::Closed,
    }
}

// The number of a phase.
pub fn phase_number(p: Phase) -> u8
    ensures { result ≡ phase_number p }
{
    match p {
        Phase::Closed => 0,
        Phase::Asked => 1,
        Phase::Replaying => 2,
        Phase::Live => 3,
    }
}

// The number of a market.
fn market_number(m: Market) -> u8
    ensures { result ≡ market_number m }
{
    match m {
        Market::Equities => 0,
        Market::Options => 1,
    }
}

// The phase of a state.
pub fn phase_in(state: &[u8]) -> Phase
    ensures { result ≡ (session_of state.now).phase }
{
    phase_of(numbers::byte_at(state, 276))
}

// Its market.
pub fn market_in(state: &[u8]) -> Market
    ensures { result ≡ (session_of state.now).market }
{
    book_calls::market_of(numbers::byte_at(state, 277))
}

// Its outgoing number.
pub fn outgoing_in(state: &[u8]) -> OutgoingNumber
    ensures { result.0 ≡ (session_of state.now).outgoing.0 }
{
    OutgoingNumber(numbers::read_u32(state, 272))
}

// Phase, outgoing number and market into a state, after its book.
pub fn put(phase: Phase, outgoing: OutgoingNumber, market: Market, state: &mut [u8])
    requires { 278 ≤ length state.old }
    ensures { state.new ≡ patched state.old outgoing_at (beside_bytes phase outgoing.0 market) }
{
    book_calls::books::put_number(state, 272, outgoing.0);
    state[276] = phase_number(phase);
    state[277] = market_number(market);
}
