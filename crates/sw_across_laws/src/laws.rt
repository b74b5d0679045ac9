//! Laws of listings across shards. Each function does nothing: its clause is the law.

ghost use Rattle.sw_across_laws.specs.Laws.{AcrossIsExact, ListingsAcrossAreExact, LiveRowsAcross, ShardsAreUnsplit};

/// What a container that is settled and its shards show is ready to be listed one after the other, and of its rows those that aren't deleted are those of the
/// live objects.
pub fn live_rows_across()
    ensures { LiveRowsAcross }
{}

/// So the listings of them, one after the other, are what the rows of the live objects give, whatever is asked.
pub fn across_is_exact()
    ensures { AcrossIsExact }
{}

/// After an honest run no shard is split itself, as these laws ask, since points hold.
pub fn shards_are_unsplit()
    ensures { ShardsAreUnsplit }
{}

/// And what `list_across` answers over a door that is alone is that.
pub fn listings_across_are_exact()
    ensures { ListingsAcrossAreExact }
{}
