//! Connections over which lines are sent, one after another.
ghost use Rattle.std.specs.Prelude.{◌≡◌, ◌+◌, ℕ, IfOk, IfErr, OnErr};
ghost use Rattle.audit_cli_connection.specs.Faults.{IsNoBadArgument};
ghost use Rattle.audit_cli_connection.specs.declared.fault.RemoteError.{RemoteError};
ghost use Rattle.audit_wire_ask.specs.declared.placing.Placing.{Placing};
ghost use Rattle.audit_wire_ask.specs.declared.sending.SendEnd.{SendEnd};
ghost use Rattle.audit_cli_client.specs.Sent.{placing_after, with_leg, KeepsConnections};

use audit_cli_connection::RemoteError;
use audit_wire_ask::{Places, Placing, SendEnd};

/// How sending over one connection ended.
#[derive(Clone, Copy)]
pub(crate) struct Leg {
    /// The places of the lines.
    pub(crate) places: Places,
    pub(crate) end: SendEnd,
    /// How many bytes of the input were read and not taken.
    pub(crate) unread: usize,
}

/// Connections over which the lines of an input are sent. Code that is generic over them knows what was sent over all
/// of them, and that there is none any more, from these calls alone.
pub(crate) trait Legs {
    /// There were this many connections. This was sent and answered over all of them, with the error of the last one,
    /// and over another one the lines have these places.
    ghost sent: { Self → ℕ → Placing → SendEnd → Type 0 };

    /// There was a connection.
    ghost reached: { Self → Type 0 };

    /// A call failed with this fault.
    ghost broke: { Self → RemoteError → Type 0 };

    /// Sends over another connection the lines after the first `before`, at these places. No argument is called bad.
    fn send(&mut self, placing: Placing, before: u64) -> Result<Leg, RemoteError>
        ensures sent { IfOk result (λ leg. (count : ℕ) (total : SendEnd) → sent self.old count placing total
            → before ≡ total.answered
            → sent self.new (count + 1) (placing_after leg.places) (with_leg total leg.end)) }
        ensures same { OnErr result ((count : ℕ) (places : Placing) (total : SendEnd)
            → sent self.old count places total → sent self.new count places total) }
        ensures broke { IfErr result (broke self.new) }
        ensures kept { KeepsConnections reached broke self.old self.new }
        ensures bad { IfErr result IsNoBadArgument };

    /// Goes back in the input before the last lines that were taken, as [`audit_wire_ask::KeptInput::go_back`] does.
    fn go_back(&mut self, unread: usize, lines: u64) -> bool
        ensures same { (count : ℕ) (places : Placing) (total : SendEnd) → sent self.old count places total
            → sent self.new count places total }
        ensures kept { KeepsConnections reached broke self.old self.new };
}
