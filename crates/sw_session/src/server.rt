ghost use Rattle.std.specs.Prelude.{◌≡◌, ℕ, Bool, IfOk, IfErr, OnOk};
ghost use Rattle.sw_message.specs.declared.request.Request.{Request as RequestSeen};
ghost use Rattle.sw_message.specs.declared.response.Response.{Response as ResponseSeen};
ghost use Rattle.sw_session.specs.declared.server.ServerFault.{ServerFault as ServerFaultSeen};

use std::alloc::Global;
use sw_message::{Request, Response};

/// Why a server can't go on.
#[derive(Clone, Copy, Debug, PartialEq, Eq)]
pub enum ServerFault {
    /// Something that it needs failed.
    Failed,
    /// Memory ran out.
    NoMemory,
}

/// Who answers the requests of a session.
pub trait Server {
    /// Whether it can answer requests.
    ghost ready: { Self → Type 0 };

    /// Which reply may be given to a request at a moment, in whole seconds since 1970, and what the server is then.
    ghost serves: { Self → RequestSeen → ℕ → ResponseSeen → Self → Type 0 };
    /// How it may halt at a request at a moment, and what it is then.
    ghost halts: { Self → RequestSeen → ℕ → ServerFaultSeen → Self → Type 0 };
    /// Whether a request is the last one of its session: nothing behind it is answered.
    ghost last: { RequestSeen → Bool };

    /// Answers one request. Want of memory is a reply as well, where the server can go on. After a fault no further request is answered.
    fn answer(&mut self, alloc: Global, request: Request, now: u64) -> Result<Response, ServerFault>
        requires ready { ready self.old }
        ensures ready { OnOk result (ready self.new) }
        ensures served { IfOk result (λ response. serves self.old request now response self.new) }
        ensures halted { IfErr result (λ fault. halts self.old request now fault self.new) };

    /// Whether a request is the last one of its session.
    fn is_last(&self, request: &Request) -> bool
        ensures { result ≡ last request.now };
}
