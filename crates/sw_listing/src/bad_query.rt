ghost use Rattle.std.specs.Prelude.{◌≡◌};
ghost use Rattle.sw_listing.specs.declared.bad_query.BadQuery.TheVariants as bad;

use std::alloc::{AllocError, AllocFailed};
use sw_outside::NoMemory;
use thiserror::Error;

/// Why a query wasn't read. Of several causes the first in the order `NotText`, `Limit`, `Delimiter`, `Format` is
/// reported.
#[derive(Clone, Copy, Debug, PartialEq, Eq, Error)]
pub enum BadQuery {
    /// The limit is over 10,000.
    #[error("the limit is over 10000")]
    Limit,
    /// The delimiter isn't one ASCII byte.
    #[error("the delimiter isn't one ASCII byte")]
    Delimiter,
    /// The marker, the end marker or the prefix isn't UTF-8.
    #[error("a text of the query isn't UTF-8")]
    NotText,
    /// The format is XML, which isn't written.
    #[error("no listings as XML")]
    Format,
    /// Memory ran out.
    #[error("out of memory")]
    NoMemory,
}

impl From<NoMemory> for BadQuery {
    ghost from_gives = { λ _ e. e ≡ bad.NoMemory };

    fn from(_error: NoMemory) -> BadQuery {
        BadQuery::NoMemory
    }
}

impl From<AllocError> for BadQuery {
    ghost from_gives = { λ _ e. e ≡ bad.NoMemory };

    fn from(_error: AllocError) -> BadQuery {
        BadQuery::NoMemory
    }
}

impl<T: Drop> From<AllocFailed<T>> for BadQuery {
    ghost from_gives = { λ _ e. e ≡ bad.NoMemory };

    fn from(_error: AllocFailed<T>) -> BadQuery {
        BadQuery::NoMemory
    }
}
