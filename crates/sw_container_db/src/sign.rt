ghost use Rattle.std.specs.Prelude.{◌≡◌, ◌≢◌, true, false};

use sw_container_steps::{ContEntry, Sign};
use sw_hashpath::Place;
use sw_timestamp::Timestamp;

/// The entries of a step that failed in its commit, and what they would be seen by in the tables before it.
#[derive(Debug, Drop)]
pub(crate) struct Doubt {
    pub(crate) place: Place,
    pub(crate) batch: Vec<ContEntry>,
    pub(crate) sign: Option<Sign>,
}

/// Whether a container is seen to be as it was.
pub(crate) fn is_same_sign(a: &Option<Sign>, b: &Option<Sign>) -> bool
    ensures same { result ≡ true → a.now ≡ b.now }
    ensures apart { result ≡ false → a.now ≢ b.now }
{
    match (a, b) {
        (Some(a), Some(b)) => is_same(*a, *b),
        (None, None) => true,
        _ => false,
    }
}

fn is_same(a: Sign, b: Sign) -> bool
    ensures same { result ≡ true → a ≡ b }
    ensures apart { result ≡ false → a ≢ b }
{
    a.put_time == b.put_time
        && is_same_time(a.delete_time, b.delete_time)
        && a.top == b.top
        && a.is_ranged == b.is_ranged
        && a.cursor == b.cursor
        && a.emptied == b.emptied
        && is_same_number(a.raised, b.raised)
}

fn is_same_number(a: Option<u64>, b: Option<u64>) -> bool
    ensures same { result ≡ true → a ≡ b }
    ensures apart { result ≡ false → a ≢ b }
{
    match (a, b) {
        (Some(number), Some(other)) => number == other,
        (None, None) => true,
        _ => false,
    }
}

fn is_same_time(a: Option<Timestamp>, b: Option<Timestamp>) -> bool
    ensures same { result ≡ true → a ≡ b }
    ensures apart { result ≡ false → a ≢ b }
{
    match (a, b) {
        (Some(time), Some(other)) => time == other,
        (None, None) => true,
        _ => false,
    }
}
