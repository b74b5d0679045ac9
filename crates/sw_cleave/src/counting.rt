ghost use Rattle.std.specs.Prelude.{◌≡◌, ◌≤◌};
ghost use Rattle.std.specs.Result.{is_ok};
ghost use Rattle.sw_cleave.specs.Cleaving.{IsClosedBy, IsEmptiedBy, leaves};
ghost use Rattle.sw_cleave.specs.Counting.{ComesTo, Counts};
ghost use Rattle.sw_pass.specs.Outcomes.{Hinders, Keeps};

use sw_container_steps::ContAnswer;
use sw_outside::NoMemory;
use sw_pass::{Hindrance, Outcome, is_acknowledged};

/// Whether a pass came to what it is for, and how much is left behind it.
#[derive(Clone, Copy, Debug, Drop)]
pub(crate) struct Came {
    pub done: bool,
    pub left: u64,
}

impl Came {
    /// It isn't done, and this much is left.
    pub fn leaving(left: u64) -> Came
        ensures { result ≡ leaves left }
    {
        Came { done: false, left }
    }
}

/// Keeps an answer that hindered the pass. Want of memory is none of these: it ends the pass.
pub(crate) fn keep(hindrance: Option<Hindrance>, outcome: &mut Outcome) -> Result<(), NoMemory>
    ensures { Keeps hindrance outcome.old outcome.new (is_ok result) }
{
    match hindrance {
        Some(hindrance) => {
            outcome.keep(hindrance);
            Ok(())
        }
        None => Err(NoMemory),
    }
}

/// Counts an answer that hindered the pass, and left something that is counted. Want of memory is none of these: it ends the pass.
pub(crate) fn hinder(hindrance: Option<Hindrance>, outcome: &mut Outcome) -> Result<(), NoMemory>
    ensures { Hinders hindrance outcome.old outcome.new (is_ok result) }
{
    match hindrance {
        Some(hindrance) => {
            outcome.hinder(hindrance);
            Ok(())
        }
        None => Err(NoMemory),
    }
}

/// Counts the answer to a step of the container itself.
pub(crate) fn count(answer: &ContAnswer, outcome: &mut Outcome) -> Result<(), NoMemory>
    ensures { Counts answer.now outcome.old outcome.new (is_ok result) }
{
    if is_acknowledged(answer) {
        Ok(())
    } else {
        keep(Hindrance::of_container_answer(answer), outcome)
    }
}

/// Counts the answer to closing a range, where so many were open.
pub(crate) fn count_closing(
    answer: &ContAnswer,
    open_ranges: u64,
    outcome: &mut Outcome,
) -> Result<Came, NoMemory>
    requires { 1 ≤ open_ranges }
    ensures { ComesTo (λ came on. IsClosedBy open_ranges answer.now outcome.old outcome.new came on) result }
{
    if let ContAnswer::Later(rowid) = answer {
        outcome.put_off(*rowid);
        return Ok(Came::leaving(open_ranges));
    }
    if is_acknowledged(answer) {
        return Ok(Came {
            done: true,
            left: open_ranges - 1,
        });
    }
    keep(Hindrance::of_container_answer(answer), outcome)?;
    Ok(Came::leaving(open_ranges))
}

/// Counts the answer to taking the rows away.
pub(crate) fn count_emptying(answer: &ContAnswer, outcome: &mut Outcome) -> Result<Came, NoMemory>
    ensures { ComesTo (λ came on. IsEmptiedBy answer.now outcome.old outcome.new came on) result }
{
    if is_acknowledged(answer) {
        return Ok(Came {
            done: true,
            left: 0,
        });
    }
    keep(Hindrance::of_container_answer(answer), outcome)?;
    Ok(Came::leaving(1))
}
