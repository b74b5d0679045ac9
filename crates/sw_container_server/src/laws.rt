//! Laws of what is asked for, of the replies, and of what becomes of a request. Each function does nothing: its clause is the law.

ghost use Rattle.sw_container_server.specs.Laws.{AsksAtKeepers, AsksForFew, AsksForOne, HasOneAnswer, HasOneReply};
ghost use Rattle.sw_container_server.specs.Laws.{LeavesHeld, LeavesObjects, RefusedChangesNothing};

use sw_peer::ContainerDoor;

/// A request for containers asks for one thing.
pub fn asks_for_one()
    ensures { AsksForOne }
{}

/// What a request for containers has one take is a creation, a deletion or one row.
pub fn asks_for_few()
    ensures { AsksForFew }
{}

/// What was told of a container and its entries has one reply.
pub fn has_one_reply()
    ensures { HasOneReply }
{}

/// A request, and a door that keeps its trail before and after it, have one answer.
pub fn has_one_answer<D: ContainerDoor>()
    ensures { HasOneAnswer D.sight }
{}

/// A request that is refused leaves the door as it was.
pub fn refused_changes_nothing<D: ContainerDoor>()
    ensures { RefusedChangesNothing D.sight }
{}

/// Steps whose reply found no memory left the devices what they held.
pub fn leaves_held()
    ensures { LeavesHeld }
{}

/// A request for containers leaves the objects what they were.
pub fn leaves_objects<D: ContainerDoor>()
    ensures { LeavesObjects D.sight }
{}

/// A request lists a container at a device that keeps it, and asks a replica of shards that there is.
pub fn asks_at_keepers()
    ensures { AsksAtKeepers }
{}
