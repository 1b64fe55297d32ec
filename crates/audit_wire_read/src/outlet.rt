//! Where verified events go.
ghost use Rattle.std.specs.Prelude.{◌≤◌, [], ◌∷◌, OnOk, OnErr};
ghost use Rattle.audit_base.specs.declared.limits.TheConstants.{MAX_COUNT};
ghost use Rattle.audit_wire_read.specs.Outlet.{OutletModel, a_keeping, a_printing};

use audit_chain::Event;
use audit_proof::Commitment;
use audit_verify::State;

/// Where verified events go, and where it is kept from what reading continues.
pub trait Outlet {
    /// Why events weren't printed, or a state wasn't kept.
    type Error;

    /// What its calls did.
    ghost calls: { OutletModel Self };

    /// Keeps a state, and the newest commitment, to which the log of the state leads, in place of those that were kept.
    /// It returns once both would outlast a stop of the machine. After an error either the old ones are kept or these.
    fn keep(&mut self, state: &State, newest: &Commitment) -> Result<(), Self::Error>
        ensures done { OnOk result (calls.DidCalls self.old self.new (a_keeping state.now newest.now ∷ [])) }
        ensures failed { OnErr result (calls.Tried self.old self.new (a_keeping state.now newest.now)) };

    /// Prints events, of which the first has this index in its log, and flushes. An index is at most `MAX_COUNT`.
    /// After an error some of them may have been printed.
    fn print(&mut self, first: u64, events: &[Event]) -> Result<(), Self::Error>
        requires most { first ≤ MAX_COUNT }
        ensures done { OnOk result (calls.DidCalls self.old self.new (a_printing first events.now ∷ [])) }
        ensures failed { OnErr result (calls.Tried self.old self.new (a_printing first events.now)) };
}
