ghost use Rattle.std.specs.Prelude.{◌≡◌};
ghost use Rattle.sw_session.specs.Closing.{asks_to_close_of};

use sw_message::{Request, says};

/// Whether a request asks that its connection be closed behind its reply: its last `Connection` field is the one word `close`, in any case.
/// (RFC 9112 section 9.6.)
pub fn asks_to_close(request: &Request) -> bool
    ensures { result ≡ asks_to_close_of request.now }
{
    says(b"connection", b"close", &request.fields)
}
