ghost use Rattle.std.specs.Prelude.{◌≡◌, true};
ghost use Rattle.std.specs.Result.{is_ok};
ghost use Rattle.sw_pass.specs.Outcomes.{Keeps};

use crate::hindrance::Hindrance;
use crate::outcome::Outcome;
use sw_outside::NoMemory;

/// Keeps an answer over which something was missed for the thing at hand. Want of memory is none of these: it ends the pass.
pub fn miss(
    hindrance: Option<Hindrance>,
    missed: &mut bool,
    outcome: &mut Outcome,
) -> Result<(), NoMemory>
    ensures missed { missed.new ≡ true }
    ensures keeps { Keeps hindrance outcome.old outcome.new (is_ok result) }
{
    *missed = true;
    match hindrance {
        Some(hindrance) => {
            outcome.keep(hindrance);
            Ok(())
        }
        None => Err(NoMemory),
    }
}
