//! Each function does nothing: its clause is the law.

ghost use Rattle.sw_shard_listing.specs.Laws.{ListingIsOfItsRows, ListingsAddUp};

/// A listing depends on the live rows alone, not on their order, their numbers or the deleted rows among them.
pub fn listing_is_of_its_rows()
    ensures { ListingIsOfItsRows }
{}

/// A listing over ranges is put together from a listing of each, with the query moved on.
pub fn listings_add_up()
    ensures { ListingsAddUp }
{}
