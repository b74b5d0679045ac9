//! The laws of what is held. The functions do nothing: their clauses are the laws.

ghost use Rattle.sw_held_laws.specs.Laws.{SettledContainersHoldAll, WritesAreRecordedOrHeld};

/// Of each put and deletion that reached any device, and for each replica of its container, a record waits, or the replica holds it.
pub fn writes_are_recorded_or_held()
    ensures { WritesAreRecordedOrHeld }
{}

/// Of a container of which no record is pending, each replica holds each put and deletion of it that reached any device, alone or by the shard of its name.
pub fn settled_containers_hold_all()
    ensures { SettledContainersHoldAll }
{}
