//! The law of listings after whole runs. The function does nothing: its clause is the law.

ghost use Rattle.sw_exact_laws.specs.Laws.{ListingsOfRunsAreExact};

/// After an honest, plain and rooted run that began with nothing, a listing across shards of a container of which no record waits is that of its live objects.
pub fn listings_of_runs_are_exact()
    ensures { ListingsOfRunsAreExact }
{}
