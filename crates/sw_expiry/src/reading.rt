ghost use Rattle.std.specs.Prelude.{◌≡◌, ◌≢◌, ◌==◌, ℕ, ◌≤◌, false, List, ◌∷◌, ◌++◌, MatchOption, position};
ghost use Rattle.sw_hashpath.specs.BadNames.{has_slash};
ghost use Rattle.sw_expiry.specs.Queue.{queue_entry};
ghost use Rattle.sw_expiry.specs.TenDigits.{ten_digits};

use crate::digits::read_ten_digits;

/// What stands in an entry: a time in seconds, and three texts of which the first two have no slash.
#[derive(Drop)]
pub(crate) struct Parts<'a> {
    pub delete_at: u64,
    pub account: &'a [u8],
    pub container: &'a [u8],
    pub object: &'a [u8],
}

/// The parts of an entry, or `None` where it hasn't them.
pub(crate) fn read_parts(entry: &[u8]) -> Option<Parts<'_>>
    ensures { MatchOption result
        ((t : ℕ) (a c o : List ℕ) → t ≤ 9999999999 → has_slash a ≡ false → has_slash c ≡ false → entry.now ≢ queue_entry t a c o)
        (λ p. (p.delete_at ≤ 9999999999) × (has_slash p.account.now ≡ false) × (has_slash p.container.now ≡ false)
        × (entry.now ≡ queue_entry p.delete_at p.account.now p.container.now p.object.now)) }
{
    let (delete_at, path) = after_time(entry)?;
    let (account, rest) = at_slash(path)?;
    let (container, object) = at_slash(rest)?;
    Some(Parts {
        delete_at,
        account,
        container,
        object,
    })
}

/// The time that a text begins with, and what stands after the dash behind it.
fn after_time(text: &[u8]) -> Option<(u64, &[u8])>
    ensures { MatchOption result
        ((n : ℕ) (rest : List ℕ) → n ≤ 9999999999 → text.now ≢ ten_digits n ++ 45 ∷ rest)
        (λ x. (x.0 ≤ 9999999999) × (text.now ≡ ten_digits x.0 ++ 45 ∷ x.1.now)) }
{
    let (digits, rest) = text.split_at_checked(10)?;
    let seconds = read_ten_digits(digits)?;
    let path = rest.strip_prefix(b"-")?;
    Some((seconds, path))
}

/// What stands before the first slash, and what stands after it.
fn at_slash(text: &[u8]) -> Option<(&[u8], &[u8])>
    ensures { MatchOption result (has_slash text.now ≡ false) (λ x. (has_slash x.0.now ≡ false) × (text.now ≡ x.0.now ++ 47 ∷ x.1.now)) }
{
    let at = first_slash(text)?;
    Some((&text[..at], &text[at + 1..]))
}

/// The index of the first slash.
fn first_slash(text: &[u8]) -> Option<usize>
    ensures { result ≡ position (λ b. b == 47) text.now }
{
    text.iter().position(|byte| *byte == b'/')
}
