//! Laws of points. Each function does nothing: its clause is the law.

ghost use Rattle.sw_point_laws.specs.Laws.{AcknowledgedIsHeld, HeldStaysHeld, PointsHoldOverRuns, RunsBegin, RunsBeginAnew, TakenIsHeld};

/// After any honest run points hold: each row of a range that is under the point of a device of its shard that device has, and each row that is under the
/// sync point of another replica that one holds.
pub fn points_hold_over_runs()
    ensures { PointsHoldOverRuns }
{}

/// A row that a replica holds it holds from then on: it has it, or one of its name that counts at least as much, or it leaves the name to a shard, and each
/// replica of that shard has such a row.
pub fn held_stays_held()
    ensures { HeldStaysHeld }
{}

/// Each row that a replica took is held there from then on, alone or with others; so is each one that counts as acknowledged by it.
pub fn acknowledged_is_held()
    ensures taken { TakenIsHeld }
    ensures acknowledged { AcknowledgedIsHeld }
{}

/// Where nothing was created yet, no message was sent and each lock tells its contents, these laws hold of what comes.
pub fn runs_begin()
    ensures { RunsBegin }
{}

/// So they do again of what comes behind such a run, once no message is on its way any more.
pub fn runs_begin_anew()
    ensures { RunsBeginAnew }
{}
