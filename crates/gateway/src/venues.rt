// The bench venue's calls over C: each is that of venue_calls, where its state of 402 bytes is told.
ghost use Rattle.std.specs.Prelude.{◌≡◌, length};
ghost use Rattle.venue_calls.specs.VenueBytes.{new_call, new_call_state, log_call, log_call_buffer, log_call_state, login_call, login_call_sent, login_call_out, login_call_state, step_call, step_call_sent, step_call_out, step_call_state, order_call, order_call_state, break_call, break_call_state};

// A venue with a new log: 0; or 13 for a state under 402 bytes, and it is as it was.
pub fn boe_venue_new(state: &mut [u8]) -> u32
    ensures { (result ≡ new_call state.old) × (state.new ≡ new_call_state state.old) }
{
    refusals::code(venue_calls::new_log(state))
}

// Appends the first whole message of the bytes to the log: 0; or 13 for a state under 402 bytes, 1 to 10, 14, 15 or 13, and buffer and state are as they
// were.
pub fn boe_venue_log(message: &[u8], buffer: &mut [u8], state: &mut [u8]) -> u32
    ensures { (result ≡ log_call message.now (length buffer.old) state.old) × (buffer.new ≡ log_call_buffer message.now buffer.old state.old) × (state.new ≡ log_call_state message.now (length buffer.old) state.old) }
{
    refusals::code(venue_calls::log(message, buffer, state))
}

// Takes a login while no session runs: 0, the Login Response in the buffer's front, how many bytes it has, and the session begun; or 13 for a state
// under 402 bytes, 16, 1 to 11 or 13, and all is as it was.
pub fn boe_venue_login(message: &[u8], sent: &mut u32, out: &mut [u8], state: &mut [u8]) -> u32
    ensures { (result ≡ login_call message.now (length out.old) state.old) × (sent.new ≡ login_call_sent message.now (length out.old) state.old sent.old) × (out.new ≡ login_call_out message.now out.old state.old) × (state.new ≡ login_call_state message.now (length out.old) state.old) }
{
    refusals::code(venue_calls::login(message, sent, out, state))
}

// A step of a session over the log's bytes: 0, and the next message or Replay Complete in the buffer's front, or nothing where it is idle, and how many
// bytes that is; or 13 for a state under 402 bytes, 16 or 13, and all is as it was.
pub fn boe_venue_step(log: &[u8], sent: &mut u32, out: &mut [u8], state: &mut [u8]) -> u32
    ensures { (result ≡ step_call log.now (length out.old) state.old) × (sent.new ≡ step_call_sent log.now (length out.old) state.old sent.old) × (out.new ≡ step_call_out log.now out.old state.old) × (state.new ≡ step_call_state log.now (length out.old) state.old) }
{
    refusals::code(venue_calls::step(log, sent, out, state))
}

// Takes what a member of a market sends in a session: 0, and its number is kept; or 13 for a state under 402 bytes, 16, the reading refusals or 21, and
// the state is as it was.
pub fn boe_venue_order(market: u8, message: &[u8], state: &mut [u8]) -> u32
    ensures { (result ≡ order_call market message.now state.old) × (state.new ≡ order_call_state market message.now state.old) }
{
    refusals::code(venue_calls::order(market, message, state))
}

// A break: 0, and nothing is left of the session but the last number received; or 13 for a state under 402 bytes, and it is as it was.
pub fn boe_venue_break(state: &mut [u8]) -> u32
    ensures { (result ≡ break_call state.old) × (state.new ≡ break_call_state state.old) }
{
    refusals::code(venue_calls::break_line(state))
}
