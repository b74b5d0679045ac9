//! Laws of what is asked for and of the replies. Each function does nothing: its clause is the law.

ghost use Rattle.sw_object_server.specs.Laws.{AsksForOne, HasOneDate, HasOneReply, LeavesHeld};

/// A request asks the nodes of a ring for one thing.
pub fn asks_for_one()
    ensures { AsksForOne }
{}

/// A time has one date.
pub fn has_one_date()
    ensures { HasOneDate }
{}

/// What was got has one reply.
pub fn has_one_reply()
    ensures { HasOneReply }
{}

/// A step whose reply found no memory left the devices what they held.
pub fn leaves_held()
    ensures { LeavesHeld }
{}
