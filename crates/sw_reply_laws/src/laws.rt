//! Laws of replies to writes. Each function does nothing: its clause is the law.

ghost use Rattle.sw_reply_laws.specs.Laws.{ChangesStand, ChangesStandOn, LinesOfChangesStand, LinesOfWritesStand, WritesStand, WritesStandOn};

/// What a reply to a write of an object says of what stands is true of it, and stays so: where it tells that the write was made, what stands has it, and
/// where it is a 409, what stands is of the time that it shows, or later. So it is of each line of a write in a run, at the end of the run.
pub fn object_replies_stand()
    ensures then { WritesStand }
    ensures on { WritesStandOn }
    ensures lines { LinesOfWritesStand }
{}

/// What a reply to a change of a container says of its tables is true of them, and stays so. Of a row it says that there is one of its name that counts at
/// least as much, unless the container's rows were taken away since, which go to its shards.
pub fn container_replies_stand()
    ensures then { ChangesStand }
    ensures on { ChangesStandOn }
    ensures lines { LinesOfChangesStand }
{}
