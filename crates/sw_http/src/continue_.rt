//! A client that sends `Expect: 100-continue` waits to be told before it sends the body.
ghost use Rattle.std.specs.Prelude.{◌≡◌, ℕ, true, is_some, IsErr, OnOk, OnErr};
ghost use Rattle.std.specs.Io.KnownBytes.{Appends};
ghost use Rattle.sw_outside.specs.Faults.{HasCause};
ghost use Rattle.sw_outside.specs.Taken.{AppendsPart};
ghost use Rattle.sw_http.specs.Continue.{asks_continue, continue_text, puts_after};
ghost use Rattle.sw_message.specs.Framing.{framing_of};

use sw_message::{FieldList, is_framed, says};
use sw_outside::{Failed, Sink};

/// What tells a client to go on.
const CONTINUE: &[u8] = b"HTTP/1.1 100 Continue\r\n\r\n";

/// Whether the client waits to be told.
fn asks_continue(fields: &FieldList) -> bool
    requires { is_some (framing_of fields.now) ≡ true }
    ensures { result ≡ asks_continue fields.now }
{
    is_framed(fields) && says(b"expect", b"100-continue", fields)
}

/// Tells the client to go on, where it waits to be told, in one call of the sink.
#[tactic(auto, unfolding(crate::specs::Continue::continue_text))]
pub(crate) fn send_continue<W: Sink>(out: &mut W, fields: &FieldList) -> Result<(), Failed>
    requires { is_some (framing_of fields.now) ≡ true }
    ensures all { OnOk result (Appends (W.taken out.old) (W.taken out.new) (continue_text fields.now)) }
    ensures part { OnErr result (AppendsPart (W.taken out.old) (W.taken out.new) (continue_text fields.now)) }
    ensures cause { HasCause (W.faults out.old) (W.faults out.new) result }
    ensures puts { W.calls out.new ≡ puts_after fields.now (W.calls out.old) }
    ensures asked { IsErr result → asks_continue fields.now ≡ true }
    ensures sink_number { W.number out.new ≡ W.number out.old }
{
    if asks_continue(fields) {
        out.put(CONTINUE)
    } else {
        Ok(())
    }
}
