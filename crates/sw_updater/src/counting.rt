ghost use Rattle.std.specs.Result.{is_ok};
ghost use Rattle.sw_pass.specs.Outcomes.{Hinders};

use sw_outside::NoMemory;
use sw_pass::{Hindrance, Outcome};

/// Counts a fault over which the records weren't read. Want of memory is none of these: it ends the pass.
pub(crate) fn hinder(hindrance: Option<Hindrance>, outcome: &mut Outcome) -> Result<(), NoMemory>
    ensures { Hinders hindrance outcome.old outcome.new (is_ok result) }
{
    match hindrance {
        Some(hindrance) => {
            outcome.hinder(hindrance);
            Ok(())
        }
        None => Err(NoMemory),
    }
}
