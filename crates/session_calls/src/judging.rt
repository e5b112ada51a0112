// Judges a message from the venue where it stands: nothing of it is stored.
ghost use Rattle.std.specs.Prelude.{◌≡◌, cond};
ghost use Rattle.refusals.specs.Names.{unknown_type};
ghost use Rattle.refusals.specs.Outcomes.{outcome};
ghost use Rattle.wire.specs.Header.{type_of};
ghost use Rattle.messages.specs.Messages.{carries, own_refusal};

use refusals::{Reason, Refusal};

// A whole message: Ok; or 4 for a type that is none of the venue's, or its own refusal.
pub fn check_whole(m: &[u8]) -> Result<(), Refusal>
    ensures { result ≡ outcome (cond (carries 1 (type_of m.now)) (own_refusal m.now) unknown_type) }
{
    let message = wire::header::type_of(m);
    if orders::of_venue(message) {
        return order_reader::check_order(m);
    }
    if session_messages::of_venue(message) {
        return session_messages::check_session(m);
    }
    Err(Refusal::new(Reason::UnknownType))
}
