// The day book's calls as C has them.
ghost use Rattle.std.specs.Prelude.{◌≡◌, length};
ghost use Rattle.book_calls.specs.BookBytes.{open_call, open_call_buffer, open_call_state, append_call, append_call_buffer, append_call_state, close_call, close_call_buffer, close_call_state, restart_call, restart_call_state, last_call, last_call_at, last_call_length};

// Exports `gateway::books::boe_book_open`.
#[unsafe(no_mangle)]
pub extern "C" fn boe_book_open(date: u32, buffer: &mut [u8], state: &mut [u8]) -> u32
    ensures { (result ≡ open_call date (length buffer.old) (length state.old)) × (buffer.new ≡ open_call_buffer date (length state.old) buffer.old) × (state.new ≡ open_call_state date (length buffer.old) state.old) }
{
    gateway::books::boe_book_open(date, buffer, state)
}

// Exports `gateway::books::boe_book_append`.
#[unsafe(no_mangle)]
pub extern "C" fn boe_book_append(bytes: &[u8], buffer: &mut [u8], state: &mut [u8]) -> u32
    ensures { (result ≡ append_call state.old (length buffer.old) bytes.now) × (buffer.new ≡ append_call_buffer state.old buffer.old bytes.now) × (state.new ≡ append_call_state state.old (length buffer.old) bytes.now) }
{
    gateway::books::boe_book_append(bytes, buffer, state)
}

// Exports `gateway::books::boe_book_close`.
#[unsafe(no_mangle)]
pub extern "C" fn boe_book_close(buffer: &mut [u8], state: &mut [u8]) -> u32
    ensures { (result ≡ close_call state.old) × (buffer.new ≡ close_call_buffer state.old buffer.old) × (state.new ≡ close_call_state state.old (length buffer.old)) }
{
    gateway::books::boe_book_close(buffer, state)
}

// Exports `gateway::books::boe_restart`.
#[unsafe(no_mangle)]
pub extern "C" fn boe_restart(date: u32, bytes: &[u8], state: &mut [u8]) -> u32
    ensures { (result ≡ restart_call date bytes.now (length state.old)) × (state.new ≡ restart_call_state date bytes.now state.old) }
{
    gateway::books::boe_restart(date, bytes, state)
}

// Exports `gateway::books::boe_last_refusal`.
#[unsafe(no_mangle)]
pub extern "C" fn boe_last_refusal(unit: u8, bytes: &[u8], state: &[u8]) -> u32
    ensures { result ≡ last_call unit bytes.now state.now }
{
    gateway::books::boe_last_refusal(unit, bytes, state)
}

// Exports `gateway::books::boe_last_at`.
#[unsafe(no_mangle)]
pub extern "C" fn boe_last_at(unit: u8, bytes: &[u8], state: &[u8]) -> usize
    ensures { result ≡ last_call_at unit bytes.now state.now }
{
    gateway::books::boe_last_at(unit, bytes, state)
}

// Exports `gateway::books::boe_last_length`.
#[unsafe(no_mangle)]
pub extern "C" fn boe_last_length(unit: u8, bytes: &[u8], state: &[u8]) -> usize
    ensures { result ≡ last_call_length unit bytes.now state.now }
{
    gateway::books::boe_last_length(unit, bytes, state)
}
