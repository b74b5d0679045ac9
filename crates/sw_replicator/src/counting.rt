ghost use Rattle.sw_pass.specs.Outcomes.{Hinders};
ghost use Rattle.std.specs.Prelude.{◌≡◌, Ok};
ghost use Rattle.std.specs.Result.{is_ok};
ghost use Rattle.sw_object_steps.specs.declared.change.Change.TheVariants.{Receive};
ghost use Rattle.sw_replicator.specs.Pushing.{CountsFor};
ghost use Rattle.sw_state.specs.declared.write.Write.{Write};

use sw_object_steps::Answer;
use sw_outside::NoMemory;
use sw_pass::{Hindrance, Outcome};

/// Counts an answer that gave nothing. Want of memory is none of these: it ends the push.
pub(crate) fn hinder(hindrance: Option<Hindrance>, outcome: &mut Outcome) -> Result<(), NoMemory>
    ensures counts { Hinders hindrance outcome.old outcome.new (is_ok result) }
    ensures asked { outcome.new.asked ≡ outcome.old.asked }
{
    match hindrance {
        Some(hindrance) => {
            outcome.hinder(hindrance);
            Ok(())
        }
        None => Err(NoMemory),
    }
}

/// Counts the answer of a transfer.
pub(crate) fn count_answer(answer: &Answer, outcome: &mut Outcome) -> Result<(), NoMemory>
    ensures counts { (write : Write) → CountsFor (Receive write) (Ok answer.now) outcome.old outcome.new (is_ok result) }
    ensures asked { outcome.new.asked ≡ outcome.old.asked }
{
    match answer {
        Answer::Done(_) | Answer::Buried(_) | Answer::Conflict(_) => Ok(()),
        _ => hinder(Hindrance::of_answer(answer), outcome),
    }
}
