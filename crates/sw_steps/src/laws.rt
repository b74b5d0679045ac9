//! Laws of steps and passes. Each function does nothing: its clause is the law.

ghost use Rattle.sw_steps.specs.Laws.{CleavesRun, CreationsRun, PushingRuns, RowPushesRun, StepsMeet, UpdatesRun, WorldsAreApart};

/// A push at nodes that nobody else changes is a run of the machine, whatever comes of it. It marks no record, and drops none.
pub fn pushing_runs()
    ensures { PushingRuns }
{}

/// A push of rows at nodes that nobody else changes is an honest run of the machine, whatever comes of it: a row goes to a shard only where the receiver
/// left it to that, and the point is kept once each row up to it counts as acknowledged by the receiver.
pub fn row_pushes_run()
    ensures { RowPushesRun }
{}

/// A pass that moves a range of a container to its shard, at nodes that nobody else changes, is an honest run of the machine, whatever comes of it, where the
/// container isn't itself a shard: it sends the rows to the shard that the container told, keeps a point behind the acknowledgement of the rows that were read
/// above it, and closes the range by all devices of the shard.
pub fn cleaves_run()
    ensures { CleavesRun }
{}

/// A pass that creates the shards of a container, at nodes that nobody else changes, is an honest run of the machine, whatever comes of it, where the container
/// isn't itself a shard: it sets the list of ranges, which are all names, each once, behind the creation of each replica of each shard.
pub fn creations_run()
    ensures { CreationsRun }
{}

/// An update at nodes that nobody else changes is an honest run of the machine, whatever comes of it: it marks a device in a record once a row for it counts
/// as acknowledged by that device, and the drop of a record names all devices of its container.
pub fn updates_run()
    ensures { UpdatesRun }
{}

/// A push that is told as done and a later one back, in a list of steps, leave both devices with the join of what both held.
pub fn steps_meet()
    ensures { StepsMeet }
{}

/// A lock of a world is one of one device, as the machine's laws on journals want it.
pub fn worlds_are_apart()
    ensures { WorldsAreApart }
{}
