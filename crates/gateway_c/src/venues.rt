// The bench venue's calls as C has them.
ghost use Rattle.std.specs.Prelude.{◌≡◌, length};
ghost use Rattle.venue_calls.specs.VenueBytes.{new_call, new_call_state, log_call, log_call_buffer, log_call_state, login_call, login_call_sent, login_call_out, login_call_state, step_call, step_call_sent, step_call_out, step_call_state, order_call, order_call_state, break_call, break_call_state};

// Exports `gateway::venues::boe_venue_new`.
#[unsafe(no_mangle)]
pub extern "C" fn boe_venue_new(state: &mut [u8]) -> u32
    ensures { (result ≡ new_call state.old) × (state.new ≡ new_call_state state.old) }
{
    gateway::venues::boe_venue_new(state)
}

// Exports `gateway::venues::boe_venue_log`.
#[unsafe(no_mangle)]
pub extern "C" fn boe_venue_log(message: &[u8], buffer: &mut [u8], state: &mut [u8]) -> u32
    ensures { (result ≡ log_call message.now (length buffer.old) state.old) × (buffer.new ≡ log_call_buffer message.now buffer.old state.old) × (state.new ≡ log_call_state message.now (length buffer.old) state.old) }
{
    gateway::venues::boe_venue_log(message, buffer, state)
}

// Exports `gateway::venues::boe_venue_login`.
#[unsafe(no_mangle)]
pub extern "C" fn boe_venue_login(
    message: &[u8],
    sent: &mut u32,
    out: &mut [u8],
    state: &mut [u8],
) -> u32
    ensures { (result ≡ login_call message.now (length out.old) state.old) × (sent.new ≡ login_call_sent message.now (length out.old) state.old sent.old) × (out.new ≡ login_call_out message.now out.old state.old) × (state.new ≡ login_call_state message.now (length out.old) state.old) }
{
    gateway::venues::boe_venue_login(message, sent, out, state)
}

// Exports `gateway::venues::boe_venue_step`.
#[unsafe(no_mangle)]
pub extern "C" fn boe_venue_step(
    log: &[u8],
    sent: &mut u32,
    out: &mut [u8],
    state: &mut [u8],
) -> u32
    ensures { (result ≡ step_call log.now (length out.old) state.old) × (sent.new ≡ step_call_sent log.now (length out.old) state.old sent.old) × (out.new ≡ step_call_out log.now out.old state.old) × (state.new ≡ step_call_state log.now (length out.old) state.old) }
{
    gateway::venues::boe_venue_step(log, sent, out, state)
}

// Exports `gateway::venues::boe_venue_order`.
#[unsafe(no_mangle)]
pub extern "C" fn boe_venue_order(market: u8, message: &[u8], state: &mut [u8]) -> u32
    ensures { (result ≡ order_call market message.now state.old) × (state.new ≡ order_call_state market message.now state.old) }
{
    gateway::venues::boe_venue_order(market, message, state)
}

// Exports `gateway::venues::boe_venue_break`.
#[unsafe(no_mangle)]
pub extern "C" fn boe_venue_break(state: &mut [u8]) -> u32
    ensures { (result ≡ break_call state.old) × (state.new ≡ break_call_state state.old) }
{
    gateway::venues::boe_venue_break(state)
}
