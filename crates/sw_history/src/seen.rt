ghost use Rattle.std.specs.Prelude.{◌≡◌};

use std::marker::Model;
use std::snapshot::Snapshot;

/// A value as contracts see it: it has no bytes and takes no memory, however large the value is.
#[derive(Drop)]
pub struct Seen<T> {
    snapshot: Snapshot<T>,
}

impl<T> Model for Seen<T> {
    ghost Value = { T };

    ghost view = { λ s. s.snapshot.value };
}

impl<T> Seen<T> {
    /// The value as it is now.
    pub fn of(value: &T) -> Seen<T>
        ensures { result ≡ value.now }
    {
        Seen {
            snapshot: Snapshot::of(value),
        }
    }
}
