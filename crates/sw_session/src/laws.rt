//! Laws of sessions. Each function does nothing: its clause is the law.

ghost use Rattle.sw_session.specs.Session.{IsWhole};

use crate::server::Server;

/// Where no request is a last one, a session that ended well answered all of its input, and read its source to the end.
pub fn whole_where_none_is_last<V: Server>()
    ensures { IsWhole V.serves V.halts }
{}
