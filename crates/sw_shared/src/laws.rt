//! Laws of steps under a lock that others use too. Each function does nothing: its clause is the law.

ghost use Rattle.sw_shared.specs.Laws.{SeenJoins, SeenStays, SharedReads, SharedSteps};

use sw_volume::Volume;

/// A step of what the lock has is a step of what was seen of it before, whatever others entered in between.
pub fn steps_are_shared<K, V, E, C, A>()
    ensures { SharedSteps K V E C A }
{}

/// The same of a read of a name.
pub fn reads_are_shared()
    ensures { SharedReads }
{}

/// A pass that gave numbers away, or was given some, has seen what it knows.
pub fn what_was_seen_stays<V: Volume + Drop>()
    ensures { SeenStays V.tells V.holds V.faults }
{}

/// A pass that took another one in has seen what the later of the two had.
pub fn what_was_seen_is_joined<V: Volume + Drop>()
    ensures { SeenJoins V.tells V.holds V.faults }
{}
