//! Laws of restarts, and of keepers that don't fail. Each function does nothing: its clause is the law.

ghost use Rattle.sw_core.specs.Lifting.{LiftingRestarts};
ghost use Rattle.sw_core.specs.Sound.{NoChangeFails, NoLookFails};
ghost use Rattle.sw_core.specs.Worlds.{keeper_seen};

use sw_keeper::Keeper;
use sw_volume::Volume;

/// A device that is lifted, and set down over the parts that were given, was restarted.
pub fn lifting_restarts<V: Volume + Drop, K: Keeper + Drop>()
    ensures { LiftingRestarts V.tells V.holds V.faults (keeper_seen K.tells K.holds K.faults) }
{}

/// Where no keeper counts a fault, no step that may change a container is answered that its keeper failed.
pub fn no_change_fails<V: Volume + Drop, K: Keeper + Drop>()
    ensures { NoChangeFails V.tells V.holds V.faults (keeper_seen K.tells K.holds K.faults) }
{}

/// Nor is a read of one.
pub fn no_look_fails<V: Volume + Drop, K: Keeper + Drop, A>()
    ensures { NoLookFails V.tells V.holds V.faults (keeper_seen K.tells K.holds K.faults) A }
{}
