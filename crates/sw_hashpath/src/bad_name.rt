ghost use Rattle.std.specs.Prelude.{◌≡◌, not};
ghost use Rattle.std.specs.List.{list_any};
ghost use Rattle.std.specs.Option.{option_copied};
ghost use Rattle.sw_hashpath.specs.BadNames.{bad_name, has_slash, is_empty, is_text, is_too_long, names, object_limit, place_names};

use sw_outside::is_utf8;
use thiserror::Error;

/// What is wrong with a name. The first that holds, in this order and over all given names, is reported.
#[derive(Clone, Copy, Debug, PartialEq, Eq, Error)]
pub enum BadName {
    /// A name has no byte.
    #[error("a name is empty")]
    Empty,
    /// A slash stands in the account or the container.
    #[error("a slash in an account or a container")]
    Slash,
    /// The account or the container has over 256 bytes, or the object over 1,024, or over 2,048 where the account begins
    /// with a dot.
    #[error("a name is too long")]
    TooLong,
    /// A name isn't UTF-8, or has a zero byte.
    #[error("a name is no text")]
    NotText,
}

/// An account's or a container's name has at most so many bytes.
const PLACE_LIMIT: usize = 256;

/// An object's name has at most so many bytes.
const OBJECT_LIMIT: usize = 1024;

/// An object's name in an account that begins with a dot has at most so many bytes, since it holds another object's
/// whole path.
const HIDDEN_OBJECT_LIMIT: usize = 2048;

/// The first thing that is wrong with these names. It takes no memory.
#[tactic(auto, unfolding(crate::specs::BadNames::bad_name))]
pub fn first_fault(
    account: &[u8],
    container: Option<&[u8]>,
    object: Option<&[u8]>,
) -> Option<BadName>
    ensures { result ≡ bad_name account.now (option_copied container.entry) (option_copied object.entry) }
{
    if is_any_empty(account, container, object) {
        return Some(BadName::Empty);
    }
    if is_any_with_slash(account, container) {
        return Some(BadName::Slash);
    }
    if is_any_too_long(account, container, object) {
        return Some(BadName::TooLong);
    }
    if is_any_no_text(account, container, object) {
        return Some(BadName::NotText);
    }
    None
}

fn is_any_empty(account: &[u8], container: Option<&[u8]>, object: Option<&[u8]>) -> bool
    ensures { result ≡ list_any is_empty (names account.now (option_copied container.entry) (option_copied object.entry)) }
{
    account.is_empty()
        || container.is_some_and(|name| name.is_empty())
        || object.is_some_and(|name| name.is_empty())
}

fn is_any_with_slash(account: &[u8], container: Option<&[u8]>) -> bool
    ensures { result ≡ list_any has_slash (place_names account.now (option_copied container.entry)) }
{
    account.contains(&b'/') || container.is_some_and(|name| name.contains(&b'/'))
}

fn is_any_too_long(account: &[u8], container: Option<&[u8]>, object: Option<&[u8]>) -> bool
    ensures { result ≡ is_too_long account.now (option_copied container.entry) (option_copied object.entry) }
{
    account.len() > PLACE_LIMIT
        || container.is_some_and(|name| name.len() > PLACE_LIMIT)
        || object.is_some_and(|name| name.len() > limit_of_object(account))
}

/// How many bytes an object's name in this account has at most.
fn limit_of_object(account: &[u8]) -> usize
    ensures { result ≡ object_limit account.now }
{
    match account {
        [b'.', ..] => HIDDEN_OBJECT_LIMIT,
        _ => OBJECT_LIMIT,
    }
}

fn is_any_no_text(account: &[u8], container: Option<&[u8]>, object: Option<&[u8]>) -> bool
    ensures { result ≡ list_any (λ name. not (is_text name)) (names account.now (option_copied container.entry) (option_copied object.entry)) }
{
    !is_name_text(account)
        || container.is_some_and(|name| !is_name_text(name))
        || object.is_some_and(|name| !is_name_text(name))
}

/// Whether a name is UTF-8 without a zero byte.
fn is_name_text(name: &[u8]) -> bool
    ensures { result ≡ is_text name.now }
{
    is_utf8(name) && !name.contains(&0)
}
