//! The table that the passes of a lock share, and the steps that they make on it. Its words are the length of the history, the next ticket, and the ticket
//! whose turn it is. Its one slot has the value while no pass has it.
ghost use Rattle.std.specs.Prelude.{◌≡◌};

use crate::booked::{Booked, View};
use atomic_table::{Join, Play, Seat, Split, Table, TableRule};
use std::alloc::Global;
use std::marker::PhantomData;
use std::snapshot::Snapshot;

/// What the table is told as it is made, for the rule that it keeps.
#[derive(Drop)]
pub struct About<B> {
    /// The value then: contracts alone see it.
    pub value: Snapshot<B>,
    /// How many numbers the lock has.
    pub seats: u32,
}

/// The rule of the table: `Kept`, in `specs/Rule.antt`.
pub struct Law;

impl<B: Booked> TableRule<Option<B>, View<B, B::Entry, B::Opening>, About<B>> for Law {
    ghost use Rattle.sw_turn.specs.Rule.{Kept, opened};

    ghost holds = { λ key. Kept B.book key.seats };

    ghost first = { λ key. opened key.seats key.value.value (B.book key.value.value) };
}

/// The table of one lock.
pub type Board<B> = Table<
    Option<B>,
    View<B, <B as Booked>::Entry, <B as Booked>::Opening>,
    About<B>,
    Law,
    Global,
>;

/// A pass of a lock, which a thread comes in by. It takes no bytes, and may cross threads. One that is dropped keeps its numbers, so its lock is never closed.
pub type Pass<B> = Seat<Option<B>, View<B, <B as Booked>::Entry, <B as Booked>::Opening>>;

// Draws the next ticket.
pub(crate) struct Draw;

impl<B: Booked> Play<Option<B>, View<B, B::Entry, B::Opening>> for Draw {
    ghost use Rattle.sw_turn.specs.Steps.{Drawn};

    ghost then = { Drawn };
}

// Looks whose turn it is, and takes the value out of the slot where it is its own.
pub(crate) struct Look;

impl<B: Booked> Play<Option<B>, View<B, B::Entry, B::Opening>> for Look {
    ghost use Rattle.sw_turn.specs.Steps.{Looked};

    ghost then = { Looked B.book };
}

// Counts the entries of the value that it gives back.
pub(crate) struct Count;

impl<B: Booked> Play<Option<B>, View<B, B::Entry, B::Opening>> for Count {
    ghost use Rattle.sw_turn.specs.Steps.{Counted};

    ghost then = { Counted B.book };
}

// Leaves the value in the slot, and gives the turn to the next ticket.
pub(crate) struct PassOn;

impl<B: Booked> Play<Option<B>, View<B, B::Entry, B::Opening>> for PassOn {
    ghost use Rattle.sw_turn.specs.Steps.{Passed};

    ghost then = { Passed };
}

// Gives its first number to a new pass.
pub(crate) struct Share;

impl<B, E, O> Split<View<B, E, O>> for Share {
    ghost use Rattle.sw_turn.specs.Rule.{giver, taker};

    ghost left = { giver };

    ghost right = { taker };
}

// Takes in another pass. This step tells its caller nothing.
pub(crate) struct Unite;

impl<B, E, O> Join<View<B, E, O>> for Unite {
    ghost use Rattle.sw_turn.specs.Rule.{united, spent};

    ghost both = { united };

    ghost spent = { spent };
}

// Looks back at the passes of which it was joined.
pub(crate) struct Recall;

impl<B: Booked> Play<Option<B>, View<B, B::Entry, B::Opening>> for Recall {
    ghost use Rattle.sw_turn.specs.Steps.{Recalled};

    ghost then = { Recalled };
}
