//! Laws of origins. Each function does nothing: its clause is the law.

ghost use Rattle.sw_origin_laws.specs.Laws.{HonestRunsAreRooted, RowsComeFromWrites};

/// Each row of a container, and of each of its shards, at any device, is that of a put or deletion of an object of that container which reached some device.
pub fn rows_come_from_writes()
    ensures { RowsComeFromWrites }
{}

/// An honest run of which each line is plain, named and rooted is one of which this law speaks.
pub fn honest_runs_are_rooted()
    ensures { HonestRunsAreRooted }
{}
