//! Laws of sessions. Each function does nothing: its clause is the law.

ghost use Rattle.sw_core.specs.Worlds.{keeper_seen};
ghost use Rattle.sw_nodes.specs.Exchanging.{ExchangeMeets};

use sw_keeper::Keeper;
use sw_volume::Volume;

/// Where a push there and one back were asked for, and both told as done, both devices hold the join of what they held.
pub fn exchange_meets<V: Volume + Drop, K: Keeper + Drop>()
    ensures { ExchangeMeets V.tells V.holds V.faults (keeper_seen K.tells K.holds K.faults) }
{}
