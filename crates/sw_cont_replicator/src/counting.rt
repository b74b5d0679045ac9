ghost use Rattle.std.specs.Result.{is_ok};
ghost use Rattle.sw_cont_replicator.specs.Pushing.{PointCounts, point_told};
ghost use Rattle.sw_pass.specs.Outcomes.{Hinders};

use sw_container_steps::ContAnswer;
use sw_outside::NoMemory;
use sw_pass::{Hindrance, Outcome, is_acknowledged};

/// Counts an answer that gave nothing. Want of memory is none of these: it ends the push.
pub(crate) fn hinder(hindrance: Option<Hindrance>, outcome: &mut Outcome) -> Result<(), NoMemory>
    ensures { Hinders hindrance outcome.old outcome.new (is_ok result) }
{
    match hindrance {
        Some(hindrance) => {
            outcome.hinder(hindrance);
            Ok(())
        }
        None => Err(NoMemory),
    }
}

/// Counts the answer of the sender itself to the point that it is to keep, and answers whether it keeps it.
pub(crate) fn count_point(answer: &ContAnswer, outcome: &mut Outcome) -> Result<bool, NoMemory>
    ensures { PointCounts answer.now outcome.old outcome.new (point_told result) (is_ok result) }
{
    if is_acknowledged(answer) {
        return Ok(true);
    }
    match Hindrance::of_container_answer(answer) {
        Some(hindrance) => {
            outcome.keep(hindrance);
            Ok(false)
        }
        None => Err(NoMemory),
    }
}
