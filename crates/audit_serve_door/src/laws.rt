//! Laws of a door, each the contract of a function that does nothing.
ghost use Rattle.std.specs.Prelude.{List};
ghost use Rattle.std.specs.List.{AllByRecursion};
ghost use Rattle.audit_serve_ready.specs.Door.{DoorCall};
ghost use Rattle.audit_serve_door.specs.Comings.{AreDoorCalls, GivesAllowed, who_waits};
ghost use Rattle.audit_serve_door.specs.Entrances.{rights_of_door};
ghost use Rattle.audit_serve_door.specs.Waits.{NobodyWaits};
ghost use Rattle.audit_serve_door.specs.declared.metered.Metered.{Metered};
ghost use Rattle.audit_serve_door.specs.declared.nonblocking.Nonblocking.{Nonblocking};
ghost use Rattle.audit_serve_door.specs.declared.socket_door.SocketDoor.{SocketDoor};

use crate::accepts::Accepts;
use crate::journal::Journal;
use crate::watch::Watch;

/// Whoever is given a place by a door at which nobody waited in the beginning has the rights of one of its sockets.
pub fn each_client_has_the_rights_of_a_socket<C, J: Journal, W: Watch, L: Accepts<S>, S>()
    ensures { (old new : SocketDoor C J W L S) (calls : List (DoorCall (Metered (Nonblocking S))))
        → NobodyWaits (who_waits old) → AreDoorCalls L.model J.notes W.left old calls new
        → AllByRecursion (GivesAllowed (rights_of_door old)) calls }
{}
