//! Laws of what is asked for and of the replies. Each function does nothing: its clause is the law.

ghost use Rattle.sw_replica_server.specs.Laws.{AsksForOne, HasOneReply, HashesFromText, InByteOrder, LeavesHeld};

/// A request for replicas asks for one thing.
pub fn asks_for_one()
    ensures { AsksForOne }
{}

/// What was told has one reply.
pub fn has_one_reply()
    ensures { HasOneReply }
{}

/// The hashes of a reply stand in byte order, each once.
pub fn in_byte_order()
    ensures { InByteOrder }
{}

/// A request for replicas leaves the devices what they held.
pub fn leaves_held()
    ensures { LeavesHeld }
{}

/// Two lists of hashes that have one text are one list.
pub fn hashes_from_text()
    ensures { HashesFromText }
{}
