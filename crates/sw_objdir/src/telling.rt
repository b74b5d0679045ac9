ghost use Rattle.std.specs.Prelude.{◌≡◌, ◌<◌, ◌++◌, IfOk, IfSome, IsSome, OnErr, OnOk, vec_capacity, vec_len};
ghost use Rattle.std.specs.Option.{option_copied, option_map};
ghost use Rattle.sw_objdir.specs.Stepping.{told_of};
ghost use Rattle.sw_object_steps.specs.Briefs.{brief_of};

use std::alloc::Global;
use sw_object_steps::{Brief, ObjEntry};
use sw_outside::NoMemory;

/// What a trail shows of an entry that may come. There is room for it in `settled` then, so that telling it takes no memory.
pub(crate) fn brief_ready(
    alloc: Global,
    entry: &ObjEntry,
    settled: &mut Vec<Brief>,
) -> Result<Brief, NoMemory>
    ensures brief { IfOk result (λ brief. brief ≡ brief_of entry.now) }
    ensures room { OnOk result (vec_len settled.new < vec_capacity settled.new) }
    ensures kept { settled.new.items ≡ settled.old.items }
{
    let brief = entry.brief(alloc)?;
    settled.reserve(1)?;
    Ok(brief)
}

/// The same of a doubt, where there is one.
pub(crate) fn doubt_ready(
    alloc: Global,
    doubt: Option<&ObjEntry>,
    settled: &mut Vec<Brief>,
) -> Result<Option<Brief>, NoMemory>
    ensures brief { IfOk result (λ brief. brief ≡ option_map brief_of (option_copied doubt.entry)) }
    ensures room { IfOk result (λ brief. IfSome brief (λ one. vec_len settled.new < vec_capacity settled.new)) }
    ensures kept { settled.new.items ≡ settled.old.items }
    ensures doubted { OnErr result (IsSome (option_copied doubt.entry)) }
{
    match doubt {
        Some(entry) => match brief_ready(alloc, entry, settled) {
            Ok(brief) => Ok(Some(brief)),
            Err(NoMemory) => Err(NoMemory),
        },
        None => Ok(None),
    }
}

/// Tells a trail of a doubt that was settled, where its entry came.
pub(crate) fn tell(brief: Option<Brief>, came: bool, settled: &mut Vec<Brief>)
    requires { IfSome brief (λ one. vec_len settled.old < vec_capacity settled.old) }
    ensures { settled.new.items ≡ settled.old.items ++ told_of brief came }
{
    if let Some(brief) = brief {
        if came {
            settled.push_reserved(brief);
        }
    }
}
