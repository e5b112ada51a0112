// The pulse of a line: whether a heartbeat is due, and whether the peer is silent, on a millisecond clock of 32 bits that wraps.
#![tactic(auto)]

ghost use Rattle.std.specs.Prelude.{◌≡◌};
ghost use Rattle.pulse.specs.Pulse.{elapsed_of, heartbeat_due, peer_silent};

// The milliseconds from one reading of the clock to a later one.
pub fn elapsed(now: u32, then: u32) -> u32
    ensures { result ≡ elapsed_of «now» «then» }
{
    std::num::wrapping_sub_u32(now, then)
}

// Whether a heartbeat is due, when the last message went out at `sent`.
pub fn heartbeat_due(now: u32, sent: u32) -> bool
    ensures { result ≡ heartbeat_due «now» sent }
{
    1000 <= elapsed(now, sent)
}

// Whether the peer is silent, when it was last heard at `heard`.
pub fn peer_silent(now: u32, heard: u32) -> bool
    ensures { result ≡ peer_silent «now» heard }
{
    5000 <= elapsed(now, heard)
}
