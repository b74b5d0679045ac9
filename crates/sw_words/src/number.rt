ghost use Rattle.std.specs.Prelude.{◌≡◌, ◌≤◌, min, true, IfSome};
ghost use Rattle.std.specs.Char.{is_ascii_digit};
ghost use Rattle.std.specs.List.{list_all};
ghost use Rattle.std.specs.Str.Parse.{digits_value};
ghost use Rattle.sw_words.specs.Reading.{is_numeral, number_within};

/// The greatest number that any option takes.
const GREATEST: u32 = 65_536;

/// A number has at most so many digits.
const MOST_DIGITS: usize = 20;

/// The number that a text of 1 to 20 digits writes, where it is one of those from `least` to `greatest`.
#[tactic(auto, unfolding(crate::specs::Reading::number_within))]
pub(crate) fn number_within(text: &[u8], least: u32, greatest: u32) -> Option<u32>
    requires { greatest ≤ 65536 }
    ensures value { result ≡ number_within least greatest text.now }
    ensures bound { IfSome result (λ number. number ≤ greatest) }
{
    if !is_numeral(text) {
        return None;
    }
    let number = number_of(text);
    if least <= number && number <= greatest {
        Some(number)
    } else {
        None
    }
}

fn is_numeral(text: &[u8]) -> bool
    ensures { result ≡ is_numeral text.now }
{
    !text.is_empty() && text.len() <= MOST_DIGITS && are_digits(text)
}

fn are_digits(text: &[u8]) -> bool
    ensures { result ≡ list_all is_ascii_digit text.now }
{
    text.iter().all(|byte| byte.is_ascii_digit())
}

/// The number that these digits write, one over the greatest standing for all that are over it.
fn number_of(digits: &[u8]) -> u32
    requires { list_all is_ascii_digit digits.now ≡ true }
    ensures { result ≡ min (digits_value 10 digits.now) 65537 }
{
    let mut number = 0;
    for digit in digits {
        number = (number * 10 + u32::from(*digit - b'0')).min(GREATEST + 1);
    }
    number
}
