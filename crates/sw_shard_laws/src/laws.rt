//! Laws of ledgers. Each function does nothing: its clause is the law.

ghost use Rattle.sw_shard_laws.specs.Laws.{BegunIsSound, CanBeSplit, ChangesKeepPoints, ClosedIsAtShards, EmptiedIsServed, HadIsHeld};
ghost use Rattle.sw_shard_laws.specs.Laws.{HeldStays, HiddenRowsStay, MergedIsHeld, NumbersAreKept, ParcelRaisesAPoint};
ghost use Rattle.sw_shard_laws.specs.Laws.{ParcelRaisesASyncPoint, PointsTell, RedirectedIsHeld, RowsWereMerged, RunsKeepPoints};
ghost use Rattle.sw_shard_laws.specs.Laws.{ShardsAreMade, SyncPointsTell, TablesGoOn, TiledRangesFit};

/// Where nothing was created yet, points hold.
pub fn begun_is_sound()
    ensures { BegunIsSound }
{}

/// After any change points hold: none is above the greatest number given out, each row of a range that is under the point of a device of its shard that
/// device has, and each row that is under the sync point of another replica that one holds.
pub fn changes_keep_points()
    ensures { ChangesKeepPoints }
{}

/// And so after any list of changes.
pub fn runs_keep_points()
    ensures { RunsKeepPoints }
{}

/// Whatever changes are made, a row that a replica holds it holds from then on: it has it, or one of its name that counts at least as much, or it leaves
/// the name to a shard, and each replica of that shard has such a row.
pub fn held_stays()
    ensures { HeldStays }
{}

/// What a hidden container has, as each shard is one, it has itself from then on.
pub fn hidden_rows_stay()
    ensures { HiddenRowsStay }
{}

/// A row that is merged at a replica is held there from then on.
pub fn merged_is_held()
    ensures { MergedIsHeld }
{}

/// Each row that a replica has of a range as it closes it is at each replica of the range's shard from then on.
pub fn closed_is_at_shards()
    ensures { ClosedIsAtShards }
{}

/// A point that is raised isn't below the number to which it is raised.
pub fn numbers_are_kept()
    ensures { NumbersAreKept }
{}

/// What a replica has it holds, also where it has closed the name's range since.
pub fn had_is_held()
    ensures { HadIsHeld }
{}

/// Where a replica leaves a name to a shard, it holds what each replica of the shard has.
pub fn redirected_is_held()
    ensures { RedirectedIsHeld }
{}

/// Each row that stands at a replica was merged there: none is made up.
pub fn rows_were_merged()
    ensures { RowsWereMerged }
{}

/// A point of a range tells truly what a device of its shard has.
pub fn points_tell()
    ensures { PointsTell }
{}

/// A sync point tells truly what another replica holds.
pub fn sync_points_tell()
    ensures { SyncPointsTell }
{}

/// Of a container with ranges each name is in one, and each leads to a hidden container that was created at each of its replicas.
pub fn shards_are_made()
    ensures { ShardsAreMade }
{}

/// A container whose rows were taken away has none, and leaves each name to a shard.
pub fn emptied_is_served()
    ensures { EmptiedIsServed }
{}

/// Whatever changes are made, what was created stays, a name that is left to a shard stays left to that one, ranges stay once they are set, and numbers,
/// points and the count of closed ranges only rise.
pub fn tables_go_on()
    ensures { TablesGoOn }
{}

/// A container can be split to the end, so that its row is at its shard and no longer with it.
pub fn can_be_split()
    ensures { CanBeSplit }
{}

/// By ranges that together are all names, each once, a container can be split once their shards are made.
pub fn tiled_ranges_fit()
    ensures { TiledRangesFit }
{}

/// Once a device of a shard has all rows that were read of the range, its point can be raised to the number up to which they were read.
pub fn parcel_raises_a_point()
    ensures { ParcelRaisesAPoint }
{}

/// And so a sync point, once the other replica holds all rows that were read.
pub fn parcel_raises_a_sync_point()
    ensures { ParcelRaisesASyncPoint }
{}
