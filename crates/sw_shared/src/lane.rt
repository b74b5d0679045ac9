//! A lock with a pass of it that waits for nothing.
ghost use Rattle.std.proofs.Props.{props};
ghost use Rattle.std.specs.Prelude.{◌≡◌, ◌≢◌, ◌≤◌, ◌++◌, ◌∷◌, false, None, length, []};
ghost use Rattle.sw_turn.specs.Known.{AreApart, Grows, Tells, first_of, later, rest_of};
ghost use Rattle.sw_turn.specs.Rule.{OwnsAll, idle};

use sw_turn::{Booked, Pass, Turn};

/// A lock with a pass of it: the way of one thread to its value.
pub struct Lane<'a, B: Booked> {
    pub(crate) lock: &'a Turn<B>,
    pub(crate) pass: Pass<B>,
    ghost fits: { pass.table_id ≡ lock.now.board.shared.table_id },
    ghost ticket: { pass.me.0.ticket ≡ None } by { Prim.hlevel props },
    ghost turn: { pass.me.0.turn ≡ false },
    ghost parts: { pass.me.0.parts ≡ [] },
    ghost hand: { pass.me.1 ≡ [] },
    ghost live: { pass.me.0.numbers ≢ [] } by { Prim.hlevel props },
}

impl<'a, B: Booked> Lane<'a, B> {
    /// The lock with this pass.
    pub fn new(lock: &'a Turn<B>, pass: Pass<B>) -> Lane<'a, B>
        requires lock { pass.table_id ≡ lock.now.board.shared.table_id }
        requires idle { pass.me ≡ (idle pass.me.0.known pass.me.0.seats pass.me.0.numbers, []) }
        requires live { pass.me.0.numbers ≢ [] }
        ensures { result.pass ≡ pass }
    {
        Lane { lock, pass }
    }

    /// Gives the pass back.
    pub fn into_pass(self) -> Pass<B>
        ensures pass { result ≡ self.entry.pass }
        ensures lock { result.table_id ≡ self.entry.lock.now.board.shared.table_id }
        ensures idle { result.me ≡ (idle self.entry.pass.me.0.known self.entry.pass.me.0.seats self.entry.pass.me.0.numbers, []) }
        ensures live { result.me.0.numbers ≢ [] }
    {
        let Lane { lock: _, pass } = self;
        pass
    }

    /// Gives its first number to a lane of the same lock, which knows the same.
    pub fn split(&mut self) -> Lane<'a, B>
        requires two { 2 ≤ length self.old.pass.me.0.numbers }
        ensures lock { (self.new.pass.table_id ≡ self.old.pass.table_id) × (result.pass.table_id ≡ self.old.pass.table_id) }
        ensures mine { self.new.pass.me ≡ (idle self.old.pass.me.0.known self.old.pass.me.0.seats (rest_of self.old.pass.me.0.numbers), []) }
        ensures given { result.pass.me ≡ (idle self.old.pass.me.0.known self.old.pass.me.0.seats (first_of self.old.pass.me.0.numbers ∷ []), []) }
    {
        let pass = self.lock.split(&mut self.pass);
        Lane {
            lock: self.lock,
            pass,
        }
    }

    /// Takes in another lane of the same lock, with its numbers. It then knows what the later of the two knew.
    pub fn join(&mut self, other: Lane<'a, B>)
        requires lock { other.pass.table_id ≡ self.old.pass.table_id }
        ensures lock { self.new.pass.table_id ≡ self.old.pass.table_id }
        ensures both { self.new.pass.me ≡ (
          idle (later self.old.pass.me.0.known other.entry.pass.me.0.known) self.old.pass.me.0.seats
              (self.old.pass.me.0.numbers ++ other.entry.pass.me.0.numbers),
          [],
        ) }
        ensures mine { Grows self.old.pass.me.0.seats self.old.pass.me.0.numbers self.old.pass.me.0.known self.new.pass.me.0.known }
        ensures theirs { Grows self.old.pass.me.0.seats other.entry.pass.me.0.numbers other.entry.pass.me.0.known self.new.pass.me.0.known }
        ensures apart { AreApart self.old.pass.me.0.seats (self.old.pass.me.0.numbers ++ other.entry.pass.me.0.numbers) }
    {
        let Lane { lock: _, pass } = other;
        self.lock.join(&mut self.pass, pass);
    }
}
