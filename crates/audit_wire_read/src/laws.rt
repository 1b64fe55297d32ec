ghost use Rattle.std.specs.Prelude.{◌≡◌, ◌⊎◌, ◌<◌, ◌≤◌, ℕ, List, [], ◌++◌, false};
ghost use Rattle.std.specs.List.{AllByRecursion};
ghost use Rattle.audit_chain.specs.EventData.{EventData};
ghost use Rattle.audit_chain.specs.Closing.{is_closed};
ghost use Rattle.audit_chain.specs.Entries.{log_entries};
ghost use Rattle.audit_verify.specs.State.{StateData, first_state, state_of_log};
ghost use Rattle.audit_verify.specs.Verdict.{IsVerified};
ghost use Rattle.audit_wire_read.specs.Outlet.{OutletCall};
ghost use Rattle.audit_wire_read.specs.ReadingOn.{reading_calls, ReadsFront};
ghost use Rattle.audit_wire_read.specs.Front.{CameTo};
ghost use Rattle.audit_wire_read.specs.Runs.{ReadRun, AreReadRuns, state_after_runs, newest_after_runs, lines_of_runs};
ghost use Rattle.audit_wire_read.specs.Runs.{IsLineOf, HasLine, HasCollision, IsReadRun, LeavesRun};
ghost use Rattle.audit_wire_read.specs.Newest.{Extends};

use crate::outlet::Outlet;
use audit_proof::Commitment;

/// However far the calls of reading on came, the events that were printed are those of the first pieces, in order, and
/// what is kept is the state after them, or the one before the last of these pieces. So whoever continues from what is
/// kept misses no event, and sees at most one piece again. The function does nothing: its contract is the law.
pub fn what_is_kept_follows_what_is_printed()
    ensures { (state : StateData) (newest : Commitment) (pieces : List (List EventData)) (done rest : List OutletCall)
        → reading_calls state newest pieces ≡ done ++ rest → CameTo state pieces done }
{}

/// Over any runs, each of which continues from what the one before it left and is cut off anywhere, the lines that were
/// printed are those of one log: each has the event that has its index in the log of the last commitment that was kept,
/// unless two texts have one SHA-256. No index is missing before the state that is kept. The function does nothing: its
/// contract is the law.
///
/// What [`read_on`](crate::read_on) did is such a run, by [`what_a_reading_did_is_a_run`]. One that was killed, or failed,
/// while it printed printed some of the events of that call.
pub fn runs_print_the_lines_of_one_log()
    // The first state is that of a log that was verified and goes on; the last commitment is to a log with its key.
    ensures lines { (first_key bytes export : List ℕ) (older kept : Commitment) (state : StateData)
        (past log : List EventData) (runs : List ReadRun)
        → IsVerified first_key older bytes past → is_closed past ≡ false → state ≡ state_of_log first_key past
        → AreReadRuns state kept runs → IsVerified first_key (newest_after_runs kept runs) export log
        → AllByRecursion (IsLineOf log) (lines_of_runs runs) ⊎ HasCollision (log_entries first_key log) }

    // Whatever the first state, each index from its count on has a line, up to the count of the state that is kept.
    ensures all { (state : StateData) (kept : Commitment) (runs : List ReadRun) (index : ℕ)
        → AreReadRuns state kept runs → state.frontier.count ≤ index
        → index < (state_after_runs state runs).frontier.count → HasLine index (lines_of_runs runs) }

    // Before its first entry a log has the state of no events.
    ensures start { (first_key : List ℕ) → first_state first_key ≡ state_of_log first_key [] }
{}

/// What a reading did, by `front` of [`read_on`](crate::read_on), is a run: its calls are the first ones for its pieces,
/// and of the others at most the next was tried. `after` is the commitment that it was given: the one that was kept, or
/// one that [`newest_under`](crate::newest_under) returned. The function does nothing: its contract is the law.
pub fn what_a_reading_did_is_a_run<O: Outlet>()
    ensures { (state : StateData) (kept after newest : Commitment) (old new : O) → Extends kept after
        → Extends after newest → ReadsFront O.calls state newest old new → LeavesRun O.calls state kept old new }
{}
