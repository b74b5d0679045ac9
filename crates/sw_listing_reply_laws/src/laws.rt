//! The law of replies to listings. The function does nothing: its clause is the law.

ghost use Rattle.sw_listing_reply_laws.specs.Laws.{ListingRepliesAreExact};

use sw_peer::ContainerDoor;

/// After an honest, plain and rooted run that began with a machine which was sound with its account, a reply that shows a container of which no record waits
/// shows exactly its live objects.
pub fn listing_replies_are_exact<D: ContainerDoor>()
    ensures { ListingRepliesAreExact D.sight }
{}
