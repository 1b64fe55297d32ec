//! Laws of requests to a daemon. Each function does nothing: its contract is the law, which may stand on another one.
ghost use Rattle.std.specs.Prelude.{◌≡◌, ◌≤◌, ℕ, true, List, ◌∷◌, Contains, length};
ghost use Rattle.audit_base.specs.declared.limits.TheConstants.{SESSIONS};
ghost use Rattle.audit_serve_passes.specs.declared.bound_kinds.BoundKinds.{BoundKinds};
ghost use Rattle.audit_serve_passes.specs.declared.bound_kinds.TheConstants.{MAX_BOUND_KINDS};
ghost use Rattle.audit_serve_passes.specs.declared.rights.Rights.TheVariants.{Source};
ghost use Rattle.audit_serve_passes.specs.Rights.{is_bound};
ghost use Rattle.audit_serve_ready.specs.Clients.{AreChanges, ClientChange, a_coming};
ghost use Rattle.audit_serve_ready.specs.Slot.{SlotData};
ghost use Rattle.audit_serve_ready.specs.Stays.{StaysAt};
ghost use Rattle.audit_serve_ready.specs.declared.newcomer.Newcomer.{Newcomer};
ghost use Rattle.audit_server.specs.Core.{sessions_of};
ghost use Rattle.audit_server.specs.CoreModel.{core_model};
ghost use Rattle.audit_server.specs.Runs.{arrivals_through};
ghost use Rattle.audit_server_commit.specs.Arrivals.{appends_among};
ghost use Rattle.audit_server_commit.specs.Waiting.{Append};
ghost use Rattle.audit_server_commit.specs.Arrived.{arrivals_from};
ghost use Rattle.audit_cli_daemon.specs.declared.arguments.TheConstants.{DEFAULT_IDLE, DEFAULT_RESERVE};
ghost use Rattle.audit_cli_daemon.specs.declared.request.Settings.{Settings};
ghost use Rattle.audit_cli_daemon.specs.Carried.{sources_asked, rights_asked};
ghost use Rattle.audit_cli_daemon.specs.Sources.{has_kind};

use audit_disk_model::Sectors;
use audit_serve_ready::ReadyStream;
use audit_server::Core;
use audit_server::laws::rights_bind_what_arrives;

/// The seconds and sectors without a word, and how many kinds may be bound, as numbers.
pub fn limits_are_these_numbers()
    ensures idle { DEFAULT_IDLE ≡ 60 }
    ensures reserve { DEFAULT_RESERVE ≡ 1 }
    ensures kinds { MAX_BOUND_KINDS ≡ 15 }
{}

/// An event of a kind that is bound to a source arrives of a client of its socket alone. `bound` are the kinds of the
/// sources, and each client has the rights of the socket by which it came (`run`, `IsDoorFor`); so one of whom such an
/// event arrives, at any time from its coming on, has the rights of that kind's source.
pub fn bound_kinds_come_by_their_sockets<D: Sectors, S: ReadyStream>(old: &Core<D>, new: &Core<D>)
    ensures { (settings : Settings) (bound : BoundKinds) (kind k : ℕ) (client : Newcomer S)
        (changes : List (ClientChange S)) (before after : List (SlotData S)) (backlog first : ℕ) (append : Append)
        → ((one : ℕ) → is_bound bound one ≡ has_kind (sources_asked settings) one)
        → has_kind (sources_asked settings) kind ≡ true
        → Contains (rights_asked settings bound) client.rights → length before ≤ SESSIONS
        → AreChanges core_model S.calls backlog first (a_coming k client ∷ changes) old.now new.now before after
        → StaysAt k changes
        → Contains (appends_among (arrivals_from k
        (arrivals_through (a_coming k client ∷ changes) (sessions_of old.now)))) append
        → append.event.kind ≡ kind → client.rights ≡ Source kind }
{
    rights_bind_what_arrives::<D, S>(old, new);
}
