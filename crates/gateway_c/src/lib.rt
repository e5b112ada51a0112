// The calls of gateway as C has them: each export calls gateway's function of its name, where it is told, and states its clauses again. A slice is a
// pointer and a length in C; include/boe.h declares them.
#![tactic(auto)]

mod books;
mod sessions;
mod venues;

ghost use Rattle.std.specs.Prelude.{◌≡◌, length};
ghost use Rattle.wire.specs.Frame.{frame_refusal, framed};
ghost use Rattle.book_calls.specs.TableBytes.{table_refusal, table_bytes};
ghost use Rattle.session.specs.Sessions.{told_of};
ghost use Rattle.session_calls.specs.SessionBytes.{told_number};
ghost use Rattle.pulse.specs.Pulse.{heartbeat_due, peer_silent};
ghost use Rattle.gateway.specs.Desk.{version_number, as_number};
ghost use Rattle.messages.specs.Messages.{read_call, read_record, write_call, write_out};

// Exports `gateway::boe_frame_refusal`.
#[unsafe(no_mangle)]
pub extern "C" fn boe_frame_refusal(bytes: &[u8]) -> u32
    ensures { result ≡ frame_refusal bytes.now }
{
    gateway::boe_frame_refusal(bytes)
}

// Exports `gateway::boe_frame_length`.
#[unsafe(no_mangle)]
pub extern "C" fn boe_frame_length(bytes: &[u8]) -> usize
    ensures { result ≡ length (framed bytes.now) }
{
    gateway::boe_frame_length(bytes)
}

// Exports `gateway::boe_table_step`.
#[unsafe(no_mangle)]
pub extern "C" fn boe_table_step(unit: u8, number: u32, entries: &mut [u8]) -> u32
    ensures { (result ≡ table_refusal entries.old unit number) × (entries.new ≡ table_bytes entries.old unit number) }
{
    gateway::boe_table_step(unit, number, entries)
}

// Exports `gateway::boe_read`.
#[unsafe(no_mangle)]
pub extern "C" fn boe_read(direction: u8, bytes: &[u8], buffer: &mut [u8]) -> u32
    ensures { (result ≡ read_call direction bytes.now (length buffer.old)) × (buffer.new ≡ read_record direction bytes.now buffer.old) }
{
    gateway::boe_read(direction, bytes, buffer)
}

// Exports `gateway::boe_told`.
#[unsafe(no_mangle)]
pub extern "C" fn boe_told(message: u8) -> u32
    ensures { result ≡ told_number (told_of message) }
{
    gateway::boe_told(message)
}

// Exports `gateway::boe_write`.
#[unsafe(no_mangle)]
pub extern "C" fn boe_write(direction: u8, given: &[u8], out: &mut [u8]) -> u32
    ensures { (result ≡ write_call direction given.now (length out.old)) × (out.new ≡ write_out direction given.now out.old) }
{
    gateway::boe_write(direction, given, out)
}

// Exports `gateway::boe_heartbeat_due`.
#[unsafe(no_mangle)]
pub extern "C" fn boe_heartbeat_due(now: u32, sent: u32) -> u32
    ensures { result ≡ as_number (heartbeat_due «now» sent) }
{
    gateway::boe_heartbeat_due(now, sent)
}

// Exports `gateway::boe_peer_silent`.
#[unsafe(no_mangle)]
pub extern "C" fn boe_peer_silent(now: u32, heard: u32) -> u32
    ensures { result ≡ as_number (peer_silent «now» heard) }
{
    gateway::boe_peer_silent(now, heard)
}

// Exports `gateway::boe_version`.
#[unsafe(no_mangle)]
pub extern "C" fn boe_version() -> u32
    ensures { result ≡ version_number }
{
    gateway::boe_version()
}
