ghost use Rattle.std.specs.Prelude.{[], ◌∷◌};
ghost use Rattle.audit_serve_ready.specs.Door.{DoorModel, a_judging, an_asking, a_release, a_parting, an_offer};
ghost use Rattle.audit_serve_ready.specs.Door.{a_pause};

use crate::departure::Departure;
use crate::newcomer::Newcomer;
use crate::next::Next;
use crate::ready_stream::ReadyStream;

/// Where clients come in. No call but `pause` may wait.
pub trait Door {
    /// The stream of a client.
    type Stream: ReadyStream + Drop;

    /// What its calls do, and what is known of it.
    ghost calls: { DoorModel Self Self.Stream };

    /// The next client, for a place that is vacant, or none if no further client has come.
    fn next_client(&mut self, place: usize) -> Option<Newcomer<Self::Stream>>
        ensures { calls.DidCalls self.old self.new (an_offer place result ∷ []) };

    /// Whether the client at a place has to go, as one that has been idle while another one waits. It is asked for each
    /// client in each pass.
    fn dismisses(&mut self, place: usize, client: &Self::Stream) -> bool
        ensures { calls.DidCalls self.old self.new (a_judging place client.now result ∷ []) };

    /// Called in a pass in which something was read, while a client has sent nothing that was read in the last such
    /// pass; with whether the latest reading found something. Returns whether all that have sent nothing are asked
    /// again before the core flushes. A pass asks 1,024 times at most, and the call must not wait.
    fn asks_again(&mut self, found: bool) -> bool
        ensures { calls.DidCalls self.old self.new (an_asking found result ∷ []) };

    /// Called in each pass after the flush and before any reply is written, and before what is kept is written in the
    /// end. Returns whether replies may leave: if not, none leaves any more, and serving ends.
    fn lets_reply(&mut self) -> bool
        ensures { calls.DidCalls self.old self.new (a_release result ∷ []) };

    /// Takes a client back that has left its place, or that couldn't be admitted to it.
    fn gone(&mut self, place: usize, client: Self::Stream, departure: Departure)
        ensures { calls.DidCalls self.old self.new (a_parting place client departure ∷ []) };

    /// Called after each pass, with whether anything moved in it: bytes, or a client. If nothing did, it waits until
    /// something may. If something did, it must not wait.
    fn pause(&mut self, moved: bool) -> Next
        ensures { calls.DidCalls self.old self.new (a_pause moved result ∷ []) };
}
