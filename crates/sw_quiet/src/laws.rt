//! Laws of nodes that keep no trail. The function does nothing: its clause is the law.

ghost use Rattle.sw_core.specs.Worlds.{keeper_seen};
ghost use Rattle.sw_quiet.specs.Laws.{LiftingRestartsQuietly};

use sw_keeper::Keeper;
use sw_volume::Volume;

/// A device that is lifted, and set down over the parts that were given, was restarted.
pub fn lifting_restarts_quietly<V: Volume + Drop, K: Keeper + Drop>()
    ensures { LiftingRestartsQuietly V.tells V.holds V.faults (keeper_seen K.tells K.holds K.faults) }
{}
