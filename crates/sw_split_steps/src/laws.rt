//! Laws of steps at containers, as changes of a ledger. Each function does nothing: its clause is the law.

ghost use Rattle.sw_split_steps.specs.Laws.{NothingIsInOrder, ServedAgrees, StepsAreChanges, StepsKeepOrder};

/// A step at a container in order that isn't refused is changes of the container's table, one for each entry, one after the other: each passes the tests of
/// the ledger, and leaves what the entry leaves.
pub fn steps_are_changes()
    ensures { StepsAreChanges }
{}

/// What was never created is in order.
pub fn nothing_is_in_order()
    ensures { NothingIsInOrder }
{}

/// What a step at a container in order leaves is in order, where it isn't refused.
pub fn steps_keep_order()
    ensures { StepsKeepOrder }
{}

/// A container leaves a name to the same shard as its table.
pub fn served_agrees()
    ensures { ServedAgrees }
{}
