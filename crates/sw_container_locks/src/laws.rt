//! Laws of all locks. Each function does nothing: its clause is the law.

ghost use Rattle.sw_container_locks.specs.Laws.{ChangeMoves, LiftingRestarts, ReadMoves};
ghost use Rattle.sw_container_locks.specs.Restarting.{RestartMoves};

use sw_keeper::Keeper;

/// A step that may change a container, at the lock of its place, is one of its device: what every other place holds stays.
pub fn change_moves<K: Keeper + Drop>()
    ensures { ChangeMoves K.tells K.holds K.faults K.calls }
{}

/// So is a read, and what every place holds stays.
pub fn read_moves<K: Keeper + Drop, A>()
    ensures { ReadMoves K.tells K.holds K.faults K.calls A }
{}

/// The locks of a device, lifted and set down over the keepers that were given, are those of a device that was restarted.
pub fn lifting_restarts<K: Keeper + Drop>()
    ensures { LiftingRestarts K.tells K.holds K.faults }
{}

/// So are the locks of a device that begin anew where they stand.
pub fn restart_moves<K: Keeper + Drop>()
    ensures { RestartMoves K.tells K.holds K.faults }
{}
