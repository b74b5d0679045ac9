ghost use Rattle.std.specs.Prelude.{ℕ, Option, IfErr, IfNone, IfOk, IfSome};
ghost use Rattle.sw_control.specs.Passes.{AreActs, AreApart, IsMessage, IsNumber};
ghost use Rattle.sw_lossy.specs.declared.acts.Acts.{Acts};

use sw_fields::second_of;
use sw_lossy::Acts;
use sw_message::FieldList;
use sw_ring::Ring;

/// A number has at most so many digits.
const MAX_DIGITS: usize = 9;

/// A field that is to name a message has a value that names none.
#[derive(Clone, Copy, Debug, PartialEq, Eq)]
pub(crate) struct BadNumber;

/// The devices of these names, where they are two.
pub(crate) fn two_devices(ring: &Ring, from: &[u8], to: &[u8]) -> Option<(u8, u8)>
    ensures found { IfSome result (λ (i, j). AreApart ring.now from.now to.now i j) }
    ensures refused { IfNone result ((i : ℕ) → (j : ℕ) → ¬ AreApart ring.now from.now to.now i j) }
{
    let from = ring.device(from)?;
    let to = ring.device(to)?;
    if from == to { None } else { Some((from, to)) }
}

/// Which messages the fields name.
pub(crate) fn acts_of(fields: &FieldList) -> Result<Acts, BadNumber>
    ensures named { IfOk result (AreActs fields.now) }
    ensures refused { IfErr result (λ _. (acts : Acts) → ¬ AreActs fields.now acts) }
{
    Ok(Acts {
        lose: message_of(fields, b"x-swc-lose")?,
        lose_reply: message_of(fields, b"x-swc-lose-reply")?,
        repeat: message_of(fields, b"x-swc-repeat")?,
    })
}

/// The message that the field of this name names, where there is one.
fn message_of(fields: &FieldList, name: &[u8]) -> Result<Option<u64>, BadNumber>
    ensures named { IfOk result (IsMessage fields.now name.now) }
    ensures refused { IfErr result (λ _. (got : Option ℕ) → ¬ IsMessage fields.now name.now got) }
{
    let Some(text) = fields.value_of(name) else {
        return Ok(None);
    };
    match number_of(text) {
        Some(number) => Ok(Some(number)),
        None => Err(BadNumber),
    }
}

/// The number of a message, or of names, that a text is. Its digits are read as those of a second, which has one more of them at most.
pub(crate) fn number_of(text: &[u8]) -> Option<u64>
    ensures read { IfSome result (IsNumber text.now) }
    ensures refused { IfNone result ((number : ℕ) → ¬ IsNumber text.now number) }
{
    match second_of(text) {
        Some(number) if number != 0 && text.len() <= MAX_DIGITS => Some(number),
        _ => None,
    }
}
