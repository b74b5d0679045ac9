//! Laws of updates. Each function does nothing: its clause is the law.

ghost use Rattle.sw_updater.specs.Laws.{DoneUpdatesEndRecords};

/// Where an update is done, it read all stripes, and each record that they gave was dropped since, or filed anew. Where others are at the nodes, one of
/// them may have entered a mark that takes a device back instead, which no step does.
pub fn done_updates_end_records()
    ensures { DoneUpdatesEndRecords }
{}
