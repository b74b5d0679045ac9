//! What a locked value tells of itself, and what a pass knows of it. No value of [`Book`], [`Known`], [`Part`] or [`View`] is made: contracts alone see them.
ghost use Rattle.std.specs.Prelude.{◌≡◌, length};

use std::collections::LinkedList;

/// A value that may lie under a lock: one that keeps a history of what was done to it.
pub trait Booked {
    /// What the history is a list of.
    type Entry;
    /// What the history begins from.
    type Opening;

    ghost use Rattle.sw_turn.specs.declared.booked.Book.{Book};

    // Its history.
    ghost book: { Self → Book Self.Entry Self.Opening };

    /// How many entries its history has.
    fn front(&self) -> u64
        ensures { result ≡ length (book self.now).entries };
}

/// The history of a value.
pub struct Book<E, O> {
    /// All entries, the oldest first.
    pub entries: LinkedList<E>,
    /// What they begin from.
    pub opening: O,
    /// A count of what failed, which never falls.
    pub faults: u64,
}

/// What is known of the lock's history: a beginning of it, with the maker of each entry.
pub struct Known<B, E, O> {
    /// The entries, the oldest first.
    pub entries: LinkedList<E>,
    /// The number that made each entry, as many as entries.
    pub makers: LinkedList<u64>,
    /// What the history begins from. There is one in what a pass knows that owns a number.
    pub opening: Option<O>,
    /// The count of faults then.
    pub faults: u64,
    /// How often the value had been given back to the lock by then, at the start too.
    pub stamp: u64,
    /// The value as it was then.
    pub last: Option<B>,
}

/// What a pass knew that was joined, and the numbers that it owned.
pub struct Part<B, E, O> {
    /// What it knew.
    pub known: Known<B, E, O>,
    /// Its numbers.
    pub numbers: LinkedList<u64>,
}

/// A pass as contracts see it: what it knows, which numbers it owns, and where it stands.
pub struct View<B, E, O> {
    /// What it knows.
    pub known: Known<B, E, O>,
    /// How many numbers its lock has: they are those below this.
    pub seats: u32,
    /// The numbers that it owns. No two passes of a lock own one number.
    pub numbers: LinkedList<u64>,
    /// The ticket that it drew, where it waits or has the value. It counts up without end.
    pub ticket: Option<u64>,
    /// Whether its turn has come.
    pub turn: bool,
    /// The passes of which it was just joined, until it has looked back at them.
    pub parts: LinkedList<Part<B, E, O>>,
}
