//! Each function does nothing: its clause is the law.

ghost use Rattle.sw_sharded_listing.specs.Laws.{AcrossLists, PartsAreInTurn, UnsplitListsOnce};
ghost use Rattle.sw_sharded_listing.specs.Reads.{ReadsLeaveAll, RefusalsAreFew, TrailsTellOne};

/// What a listing across shards answers is the listing of all rows that were read, each within the range of its part.
pub fn across_lists()
    ensures { AcrossLists }
{}

/// A container that isn't split is listed as one listing of it would be.
pub fn unsplit_lists_once()
    ensures { UnsplitListsOnce }
{}

/// The parts of a container stand in the direction of a listing, whatever was read of them.
pub fn parts_are_in_turn()
    ensures { PartsAreInTurn }
{}

/// Listings and counts across shards change nothing, whatever they tell.
pub fn reads_leave_all()
    ensures { ReadsLeaveAll }
{}

/// By few answers a listing or a count across shards is refused.
pub fn refusals_are_few()
    ensures { RefusalsAreFew }
{}

/// A door that keeps its trail tells by it what a container was listed as, and how it was counted.
pub fn trails_tell_one()
    ensures { TrailsTellOne }
{}
