//! Laws of steps at containers. Each function does nothing: its clause is the law.

ghost use Rattle.sw_container_steps.specs.Laws.{ContainersAreRules, CreatedIsThere, EntriesAreOfThePlace, EntriesAreSeen};
ghost use Rattle.sw_container_steps.specs.Laws.{RemovedIsAbsent, RowIsMerged, RowsAreMerged, StepsHold};

/// The rules of containers are rules.
pub fn containers_are_rules()
    ensures { ContainersAreRules }
{}

/// A container whose creation isn't refused is there, and has the rows that it had.
pub fn created_is_there()
    ensures { CreatedIsThere }
{}

/// A container whose deletion isn't refused is absent, and its rows stay.
pub fn removed_is_absent()
    ensures { RemovedIsAbsent }
{}

/// Rows that aren't refused are merged one by one, in their order, and the container is there.
pub fn rows_are_merged()
    ensures { RowsAreMerged }
{}

/// One row is merged as a list of it is.
pub fn row_is_merged()
    ensures { RowIsMerged }
{}

/// All entries of a step are of its place.
pub fn entries_are_of_the_place()
    ensures { EntriesAreOfThePlace }
{}

/// What a step that isn't refused leaves is held, so a keeper takes its batch.
pub fn steps_hold()
    ensures { StepsHold }
{}

/// A step that isn't refused and has entries changes what they are seen by: a time of the container, the greatest number of a row, or the sync point
/// that they set.
pub fn entries_are_seen()
    ensures { EntriesAreSeen }
{}
