ghost use Rattle.std.specs.Prelude.{◌≡◌, ◌≢◌, ℕ, ◌≤◌, Err, OnOk, OnErr};
ghost use Rattle.std.specs.Io.KnownBytes.{Appends, Keeps};
ghost use Rattle.sw_outside.specs.Counts.{raised};
ghost use Rattle.sw_outside.specs.Faults.{HasRisen};
ghost use Rattle.sw_outside.specs.Taken.{AppendsPart};
ghost use Rattle.sw_message.specs.Reply.{reply_text};
ghost use Rattle.sw_message.specs.declared.writer.WriteFault.TheVariants as faults;

use crate::reply_text::text_of;
use crate::response::Response;
use std::alloc::Global;
use sw_outside::{Failed, NoMemory, Sink};
use thiserror::Error;

/// Why a reply wasn't written whole.
#[derive(Clone, Copy, Debug, PartialEq, Eq, Error)]
pub enum WriteFault {
    #[error("a write failed")]
    Failed,
    #[error("out of memory")]
    NoMemory,
}

impl From<NoMemory> for WriteFault {
    ghost from_gives = { λ _ e. e ≡ faults.NoMemory };

    fn from(_error: NoMemory) -> WriteFault {
        WriteFault::NoMemory
    }
}

/// Writes the text of a reply, in one call of the sink.
///
/// [`WriteFault::Failed`] comes only where that call failed: a front of the text was taken then. Without memory the sink isn't called.
pub fn write_response<W: Sink>(
    alloc: Global,
    out: &mut W,
    response: &Response,
) -> Result<(), WriteFault>
    ensures whole { OnOk result (Appends (W.taken out.old) (W.taken out.new) (reply_text response.now)) }
    ensures part { OnErr result (AppendsPart (W.taken out.old) (W.taken out.new) (reply_text response.now)) }
    ensures untouched { result ≡ Err WriteFault.NoMemory → Keeps (W.taken out.old) (W.taken out.new) }
    ensures later { W.faults out.old ≤ W.faults out.new }
    ensures failed { result ≡ Err WriteFault.Failed → HasRisen (W.faults out.old) (W.faults out.new) }
    ensures failed_once { result ≡ Err WriteFault.Failed → W.faults out.new ≡ raised (W.faults out.old) }
    ensures sound { result ≢ Err WriteFault.Failed → W.faults out.new ≡ W.faults out.old }
    ensures put_once { result ≢ Err WriteFault.NoMemory → W.calls out.new ≡ raised (W.calls out.old) }
    ensures no_put { result ≡ Err WriteFault.NoMemory → W.calls out.new ≡ W.calls out.old }
    ensures sink_number { W.number out.new ≡ W.number out.old }
{
    let text = text_of(alloc, response)?;
    match out.put(&text) {
        Ok(()) => Ok(()),
        Err(Failed) => Err(WriteFault::Failed),
    }
}
