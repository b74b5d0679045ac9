//! Laws of pushes of rows, at nodes that nobody else changes meanwhile, to replicas that have left no name to a shard. Each function does nothing: its
//! clause is the law.

ghost use Rattle.sw_cont_replicator.specs.Laws.{ExchangesAgree, ExchangesMeet, PointsBegin, PushesKeepPoints, PushesMeet, PushesReach};
ghost use Rattle.sw_cont_replicator.specs.Laws.{RestartsKeepPoints, StepsKeepPoints};

/// Where a push is done the receiver has each row that the sender had above its sync point as it began, or one of its name that counts at least as much.
pub fn pushes_reach()
    ensures { PushesReach }
{}

/// Where moreover that point told truly, the receiver then has of each name the greatest of both rows, and the sender the row that it had.
pub fn pushes_meet()
    ensures { PushesMeet }
{}

/// Sync points that told truly do so after a push, whatever came of it.
pub fn pushes_keep_points()
    ensures { PushesKeepPoints }
{}

/// A push that is done, and then one back that is done, leave both replicas with the greatest rows of both.
pub fn exchanges_meet()
    ensures { ExchangesMeet }
{}

/// Where rows of a name that count the same are one, both then have the same rows.
pub fn exchanges_agree()
    ensures { ExchangesAgree }
{}

/// Where nothing is held of a container, its sync points tell truly.
pub fn points_begin()
    ensures { PointsBegin }
{}

/// A step at a container that sets no sync point, and takes no rows away, keeps them telling truly, however it ends.
pub fn steps_keep_points()
    ensures { StepsKeepPoints }
{}

/// So does a restart.
pub fn restarts_keep_points()
    ensures { RestartsKeepPoints }
{}
