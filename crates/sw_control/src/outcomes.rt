ghost use Rattle.std.specs.Prelude.{◌≡◌, ◌++◌, codes, decimal, IfOk, OnOk};
ghost use Rattle.sw_control.specs.OutcomeText.{done_text as done_text_of, kept_text, later_text, outcome_text as outcome_text_of};

use itoa::Buffer;
use std::alloc::Global;
use sw_outside::{Bytes, NoMemory};
use sw_pass::{Hindrance, Outcome};

/// The text of what a pass came to: one line of words with their values.
pub fn outcome_text(alloc: Global, outcome: &Outcome) -> Result<Bytes, NoMemory>
    ensures { IfOk result (λ text. text ≡ outcome_text_of outcome.now) }
{
    let mut text = Vec::from_slice(alloc, b"done=")?;
    text.extend_from_slice(done_text(outcome.done))?;
    add_number(&mut text, b" lost=", outcome.lost)?;
    add_kept(&mut text, outcome.kept)?;
    add_later(&mut text, outcome.later)?;
    add_number(&mut text, b" asked=", outcome.asked)?;
    add_number(&mut text, b" sent=", outcome.sent)?;
    add_number(&mut text, b" left=", outcome.left)?;
    text.extend_from_slice(b"\n")?;
    Ok(Bytes::from(text))
}

fn done_text(done: bool) -> &'static [u8]
    ensures { result.now ≡ done_text_of done }
{
    if done { b"1" } else { b"0" }
}

/// Adds the status of the answer that hindered the pass, or a hyphen.
fn add_kept(text: &mut Vec<u8>, kept: Option<Hindrance>) -> Result<(), NoMemory>
    ensures { OnOk result (text.new.items ≡ text.old.items ++ (codes " kept=" ++ kept_text kept)) }
{
    match kept {
        Some(hindrance) => add_number(text, b" kept=", u64::from(hindrance.status())),
        None => {
            text.extend_from_slice(b" kept=-")?;
            Ok(())
        }
    }
}

/// Adds the number of the row that came too late for the pass, or a hyphen.
fn add_later(text: &mut Vec<u8>, later: Option<u64>) -> Result<(), NoMemory>
    ensures { OnOk result (text.new.items ≡ text.old.items ++ (codes " later=" ++ later_text later)) }
{
    match later {
        Some(rowid) => add_number(text, b" later=", rowid),
        None => {
            text.extend_from_slice(b" later=-")?;
            Ok(())
        }
    }
}

/// Adds a word and a number behind it.
pub(crate) fn add_number(text: &mut Vec<u8>, word: &[u8], number: u64) -> Result<(), NoMemory>
    ensures { OnOk result (text.new.items ≡ text.old.items ++ (word.now ++ decimal number)) }
{
    text.extend_from_slice(word)?;
    text.extend_from_slice(Buffer::new().format(number).as_bytes())?;
    Ok(())
}
