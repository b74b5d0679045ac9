//! Laws of listings. Each function does nothing: its clause is the law.

ghost use Rattle.sw_listing_laws.specs.Laws.{HonestRunsAreSound, ListingsAreExact, LiveRowsAreThere, SettledContainersListExactly};
ghost use Rattle.sw_listing_laws.specs.Laws.{SettledContainersShowExactly};

/// Of a container that isn't hidden, and of which no record is pending, each replica that has left no name to a shard shows exactly the live objects.
pub fn settled_containers_show_exactly()
    ensures { SettledContainersShowExactly }
{}

/// So its rows that aren't deleted are those of the live objects; whatever is asked of its rows, it is exactly what is asked of these; and each listing that
/// comes in a run of a container that isn't split into shards at its device is that.
pub fn listings_are_exact()
    ensures there { LiveRowsAreThere }
    ensures lists { SettledContainersListExactly }
    ensures comes { ListingsAreExact }
{}

/// An honest run, of which each line is plain and named, is one of which these laws speak.
pub fn honest_runs_are_sound()
    ensures { HonestRunsAreSound }
{}
