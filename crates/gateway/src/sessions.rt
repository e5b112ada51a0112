// The session's calls over C: each is that of session_calls, where its state of 278 bytes is told.
ghost use Rattle.std.specs.Prelude.{◌≡◌, length};
ghost use Rattle.session_calls.specs.SessionBytes.{open_call, open_call_buffer, open_call_state, restart_call, restart_call_state, login_call, login_call_out, login_call_state, receive_call, receive_call_told, receive_call_buffer, receive_call_state, order_call, order_call_out, order_call_state, heartbeat_call, heartbeat_call_out, break_call, break_call_buffer, break_call_state, phase_call};

// Opens a book for a date in a buffer, and a closed session for a market: 0; or 13 for a state under 278 bytes, 19 or 13, and both are as they were.
pub fn boe_session_open(date: u32, market: u8, buffer: &mut [u8], state: &mut [u8]) -> u32
    ensures { (result ≡ open_call date (length buffer.old) state.old) × (buffer.new ≡ open_call_buffer date buffer.old state.old) × (state.new ≡ open_call_state date market (length buffer.old) state.old) }
{
    refusals::code(session_calls::open(date, market, buffer, state))
}

// Restarts from a book for a date, with a closed session for a market: 0; or 13 for a state under 278 bytes, 19, 22, 18, 17 or 18, and the state is as
// it was.
pub fn boe_session_restart(date: u32, market: u8, bytes: &[u8], state: &mut [u8]) -> u32
    ensures { (result ≡ restart_call date bytes.now state.old) × (state.new ≡ restart_call_state date market bytes.now state.old) }
{
    refusals::code(session_calls::restart(date, market, bytes, state))
}

// A login with the table's numbers, of which 87 bytes are given: 0, it is written, and the session is asked; or 13 for a state under 278 bytes or for
// less given, 16 unless closed, 10, 11 or 13, and buffer and state are as they were.
pub fn boe_session_login(given: &[u8], out: &mut [u8], state: &mut [u8]) -> u32
    ensures { (result ≡ login_call given.now (length out.old) state.old) × (out.new ≡ login_call_out given.now out.old state.old) × (state.new ≡ login_call_state given.now (length out.old) state.old) }
{
    refusals::code(session_calls::login(given, out, state))
}

// A heartbeat: 0, and it is written; or 13 for a state under 278 bytes, 16 unless replaying or live, or 13, and the buffer is as it was.
pub fn boe_session_heartbeat(state: &[u8], out: &mut [u8]) -> u32
    ensures { (result ≡ heartbeat_call (length out.old) state.now) × (out.new ≡ heartbeat_call_out out.old state.now) }
{
    refusals::code(session_calls::heartbeat(state, out))
}

// An order, of which the first RECORD bytes given are the record: 0, and it is written under the next outgoing number; or 13 for a state under 278 bytes,
// 16 unless live, 20, 13, 4 or the writer's, and buffer and state are as they were.
pub fn boe_session_order(given: &[u8], out: &mut [u8], state: &mut [u8]) -> u32
    ensures { (result ≡ order_call given.now (length out.old) state.old) × (out.new ≡ order_call_out given.now out.old state.old) × (state.new ≡ order_call_state given.now (length out.old) state.old) }
{
    refusals::code(session_calls::order(given, out, state))
}

// A break: 0, and a session that runs has ended; or 13 for a state under 278 bytes, and both are as they were.
pub fn boe_session_break(buffer: &mut [u8], state: &mut [u8]) -> u32
    ensures { (result ≡ break_call state.old) × (buffer.new ≡ break_call_buffer buffer.old state.old) × (state.new ≡ break_call_state (length buffer.old) state.old) }
{
    refusals::code(session_calls::break_line(buffer, state))
}

// Any bytes from the venue, of which the first whole message counts: 0, the session after it, and what became of it, 0 nothing, 1 booked, 2 handed to the
// desk; or 13 for a state under 278 bytes, 16 if closed, 1 to 11, 16 for a type out of phase, 14, 15 or 13, and all is as it was.
pub fn boe_session_receive(bytes: &[u8], told: &mut u32, buffer: &mut [u8], state: &mut [u8]) -> u32
    ensures { (result ≡ receive_call bytes.now (length buffer.old) state.old) × (told.new ≡ receive_call_told bytes.now (length buffer.old) state.old told.old) × (buffer.new ≡ receive_call_buffer bytes.now buffer.old state.old) × (state.new ≡ receive_call_state bytes.now (length buffer.old) state.old) }
{
    refusals::code(session_calls::receive(bytes, told, buffer, state))
}

// The phase of a state by its number: 0 closed, 1 asked, 2 replaying, 3 live; of a state under 278 bytes 0.
pub fn boe_session_phase(state: &[u8]) -> u32
    ensures { result ≡ phase_call state.now }
{
    session_calls::phase(state)
}
