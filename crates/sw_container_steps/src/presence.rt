ghost use Rattle.std.specs.Prelude.{◌≡◌};
ghost use Rattle.sw_container_steps.specs.Presence.{deletion, is_dotted, is_present};

use sw_hashpath::Place;
use sw_keeper::Tables;
use sw_timestamp::Timestamp;

/// Whether the container is there: it was created, and its delete time isn't later than its put time.
pub fn is_present(tables: &Option<Tables>) -> bool
    ensures { result ≡ is_present tables.now }
{
    match tables {
        Some(_) => deletion(tables).is_none(),
        None => false,
    }
}

/// The delete time, where it is later than the put time.
pub(crate) fn deletion(tables: &Option<Tables>) -> Option<Timestamp>
    ensures { result ≡ deletion tables.now }
{
    match tables {
        Some(tables) => match tables.delete_time {
            Some(gone) if tables.put_time < gone => Some(gone),
            _ => None,
        },
        None => None,
    }
}

/// Whether the account of the place begins with `.`.
pub(crate) fn is_dotted(place: &Place) -> bool
    ensures { result ≡ is_dotted place.now }
{
    match place.account.as_slice() {
        [first, ..] => *first == 46,
        [] => false,
    }
}
