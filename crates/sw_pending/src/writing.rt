ghost use Rattle.std.specs.Prelude.{◌≡◌, ◌++◌, ◌∷◌, [], decimal, IfOk, OnOk};
ghost use Rattle.std.specs.List.{All};
ghost use Rattle.sw_hashpath.specs.declared.secrets.Secrets.{Secrets};
ghost use Rattle.sw_metafile.specs.Files.{IsByte};
ghost use Rattle.sw_pending.specs.Outcomes.{IsName, IsRecord};
ghost use Rattle.sw_pending.specs.Texts.{devices_text, done_line, flag_text, queue_line, record_text};

use crate::filed::Filed;
use crate::reading::FIRST_LINE;
use itoa::Buffer;
use std::alloc::Global;
use sw_metafile::{push_line, push_path, push_time};
use sw_outside::{Bytes, NoMemory};

/// The file of a record, or [`NoMemory`]. `decode` reads it as that record, where the hash is that of the name's path.
#[tactic(auto, unfolding(crate::specs::Texts::record_text))]
pub fn encode(alloc: Global, filed: &Filed) -> Result<Bytes, NoMemory>
    ensures text { IfOk result (λ text. text ≡ record_text filed.now) }
    ensures record { OnOk result ((secrets : Secrets) → IsName secrets filed.now.name → IsRecord secrets filed.now) }
{
    let mut out = Vec::from_slice(alloc, FIRST_LINE)?;
    push_path(&mut out, &filed.name)?;
    push_time(&mut out, &filed.time)?;
    push_queue(&mut out, filed.queue)?;
    push_done(&mut out, filed.done.as_slice())?;
    out.push(b'\n')?;
    Ok(Bytes::from(out))
}

/// Appends the line that says whether it is for an entry of the queue.
fn push_queue(out: &mut Vec<u8>, queue: bool) -> Result<(), NoMemory>
    ensures { OnOk result (out.new.items ≡ out.old.items ++ queue_line queue) }
{
    push_line(out, b"queue ", flag_text(queue))
}

fn flag_text(queue: bool) -> &'static [u8]
    ensures { result.now ≡ flag_text queue }
{
    if queue { b"1" } else { b"0" }
}

/// Appends the line of the devices that are done.
fn push_done(out: &mut Vec<u8>, done: &[u8]) -> Result<(), NoMemory>
    ensures text { OnOk result (out.new.items ≡ out.old.items ++ done_line done.now) }
    ensures bytes { All IsByte done.now }
{
    out.extend_from_slice(b"done ")?;
    push_devices(out, done)?;
    out.push(b'\n')?;
    Ok(())
}

/// Appends the numbers of the devices, with a comma between each two, or a dash where there is none.
fn push_devices(out: &mut Vec<u8>, done: &[u8]) -> Result<(), NoMemory>
    ensures { OnOk result (out.new.items ≡ out.old.items ++ devices_text done.now) }
{
    let Some((first, rest)) = done.split_first() else {
        out.push(b'-')?;
        return Ok(());
    };
    push_number(out, *first)?;
    for device in rest {
        out.push(b',')?;
        push_number(out, *device)?;
    }
    Ok(())
}

fn push_number(out: &mut Vec<u8>, number: u8) -> Result<(), NoMemory>
    ensures { OnOk result (out.new.items ≡ out.old.items ++ decimal number) }
{
    let mut buffer = Buffer::new();
    out.extend_from_slice(buffer.format(number).as_bytes())?;
    Ok(())
}
