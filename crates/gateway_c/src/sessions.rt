// The session's calls as C has them.
ghost use Rattle.std.specs.Prelude.{◌≡◌, length};
ghost use Rattle.session_calls.specs.SessionBytes.{open_call, open_call_buffer, open_call_state, restart_call, restart_call_state, login_call, login_call_out, login_call_state, receive_call, receive_call_told, receive_call_buffer, receive_call_state, order_call, order_call_out, order_call_state, heartbeat_call, heartbeat_call_out, break_call, break_call_buffer, break_call_state, phase_call};

// Exports `gateway::sessions::boe_session_open`.
#[unsafe(no_mangle)]
pub extern "C" fn boe_session_open(
    date: u32,
    market: u8,
    buffer: &mut [u8],
    state: &mut [u8],
) -> u32
    ensures { (result ≡ open_call date (length buffer.old) state.old) × (buffer.new ≡ open_call_buffer date buffer.old state.old) × (state.new ≡ open_call_state date market (length buffer.old) state.old) }
{
    gateway::sessions::boe_session_open(date, market, buffer, state)
}

// Exports `gateway::sessions::boe_session_restart`.
#[unsafe(no_mangle)]
pub extern "C" fn boe_session_restart(date: u32, market: u8, bytes: &[u8], state: &mut [u8]) -> u32
    ensures { (result ≡ restart_call date bytes.now state.old) × (state.new ≡ restart_call_state date market bytes.now state.old) }
{
    gateway::sessions::boe_session_restart(date, market, bytes, state)
}

// Exports `gateway::sessions::boe_session_login`.
#[unsafe(no_mangle)]
pub extern "C" fn boe_session_login(given: &[u8], out: &mut [u8], state: &mut [u8]) -> u32
    ensures { (result ≡ login_call given.now (length out.old) state.old) × (out.new ≡ login_call_out given.now out.old state.old) × (state.new ≡ login_call_state given.now (length out.old) state.old) }
{
    gateway::sessions::boe_session_login(given, out, state)
}

// Exports `gateway::sessions::boe_session_heartbeat`.
#[unsafe(no_mangle)]
pub extern "C" fn boe_session_heartbeat(state: &[u8], out: &mut [u8]) -> u32
    ensures { (result ≡ heartbeat_call (length out.old) state.now) × (out.new ≡ heartbeat_call_out out.old state.now) }
{
    gateway::sessions::boe_session_heartbeat(state, out)
}

// Exports `gateway::sessions::boe_session_order`.
#[unsafe(no_mangle)]
pub extern "C" fn boe_session_order(given: &[u8], out: &mut [u8], state: &mut [u8]) -> u32
    ensures { (result ≡ order_call given.now (length out.old) state.old) × (out.new ≡ order_call_out given.now out.old state.old) × (state.new ≡ order_call_state given.now (length out.old) state.old) }
{
    gateway::sessions::boe_session_order(given, out, state)
}

// Exports `gateway::sessions::boe_session_break`.
#[unsafe(no_mangle)]
pub extern "C" fn boe_session_break(buffer: &mut [u8], state: &mut [u8]) -> u32
    ensures { (result ≡ break_call state.old) × (buffer.new ≡ break_call_buffer buffer.old state.old) × (state.new ≡ break_call_state (length buffer.old) state.old) }
{
    gateway::sessions::boe_session_break(buffer, state)
}

// Exports `gateway::sessions::boe_session_receive`.
#[unsafe(no_mangle)]
pub extern "C" fn boe_session_receive(
    bytes: &[u8],
    told: &mut u32,
    buffer: &mut [u8],
    state: &mut [u8],
) -> u32
    ensures { (result ≡ receive_call bytes.now (length buffer.old) state.old) × (told.new ≡ receive_call_told bytes.now (length buffer.old) state.old told.old) × (buffer.new ≡ receive_call_buffer bytes.now buffer.old state.old) × (state.new ≡ receive_call_state bytes.now (length buffer.old) state.old) }
{
    gateway::sessions::boe_session_receive(bytes, told, buffer, state)
}

// Exports `gateway::sessions::boe_session_phase`.
#[unsafe(no_mangle)]
pub extern "C" fn boe_session_phase(state: &[u8]) -> u32
    ensures { result ≡ phase_call state.now }
{
    gateway::sessions::boe_session_phase(state)
}
