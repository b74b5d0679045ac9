//! The lock. A thread draws a ticket, waits until its turn comes, takes the value out of the slot, and gives it back.
ghost use Rattle.std.specs.Prelude.{◌≡◌, ◌≢◌, ℕ, ◌%◌, ◌^◌, ◌<◌, ◌≤◌, [], ◌∷◌, ◌++◌, length, Some, None, IfOk, IfErr};
ghost use Rattle.sw_turn.specs.Known.{below, first_of, rest_of, AreApart, Grows, Tells, GoesOn, taken_in, nothing, later};
ghost use Rattle.sw_turn.specs.Rule.{idle, waiting, busy, IsIdle, IsBusy, OwnsAll, Holds};

use crate::board::{About, Board, Count, Draw, Look, Pass, PassOn, Recall, Share, Unite};
use crate::booked::Booked;
use atomic_table::{Refused, Table};
use std::alloc::Global;
use std::hint;
use std::snapshot::Snapshot;
use std::sync::Wait;

/// How often a thread looks whose turn it is before it sleeps.
const LOOKS: u32 = 64;

/// A value under a lock, with the history of what was done to it. Each call takes passes of this lock alone: their `table_id` is its table's.
pub struct Turn<B: Booked> {
    board: Board<B>,
    ghost words: { board.shared.table_id.words ≡ 3 },
    ghost slots: { board.shared.table_id.slots ≡ 1 },
}

/// The value while it is out. It can't be dropped: give it back by [`Turn::leave`].
pub struct Guard<B> {
    /// The value, which no other pass reaches until it is given back.
    pub value: B,
}

impl<B: Booked> Turn<B> {
    /// Puts a value under a lock. The pass owns all `seats` numbers, and knows the value with its whole history, whose entries are made by 0. The value
    /// comes back only for want of memory.
    pub fn new(alloc: Global, value: B, seats: u32) -> Result<(Turn<B>, Pass<B>), B>
        requires { 0 < seats }
        ensures lock { IfOk result (λ r. r.1.table_id ≡ r.0.board.shared.table_id) }
        ensures pass { IfOk result (λ r. r.1.me ≡ (idle (taken_in nothing 0 value (B.book value)) seats (below seats), [])) }
        ensures back { IfErr result (λ v. v ≡ value) }
    {
        let about = About {
            value: Snapshot::of(&value),
            seats,
        };
        let front = value.front();
        let mut slots = Vec::new(alloc);
        if slots.reserve(1).is_err() {
            slots.destroy_empty();
            return Err(value);
        }
        slots.push_reserved(Some(value));
        match Table::new(alloc, &[front, 0, 0], slots, &about) {
            Ok((board, pass)) => Ok((Turn { board }, pass)),
            Err(Refused { slots }) => Err(only(slots)),
        }
    }

    // Draws a ticket, and answers the word that it found.
    fn draw(&self, pass: &mut Pass<B>) -> u64
        requires lock { pass.old.table_id ≡ self.now.board.shared.table_id }
        requires idle { IsIdle pass.old.me }
        requires live { pass.old.me.0.numbers ≢ [] }
        ensures lock { pass.new.table_id ≡ pass.old.table_id }
        ensures drawn { (t : ℕ) × (t % 2 ^ 64 ≡ result) × (pass.new.me ≡ (waiting pass.old.me.0.known pass.old.me.0.seats pass.old.me.0.numbers t, [])) }
    {
        self.board.shared.fetch_add::<Draw>(pass, 1, 1)
    }

    // Looks whose turn it is, and takes the value where it is its own. Answers the word that it found.
    fn look(&self, pass: &mut Pass<B>, mine: u64) -> u64
        requires lock { pass.old.table_id ≡ self.now.board.shared.table_id }
        requires waits { (t : ℕ) × (t % 2 ^ 64 ≡ mine) × (pass.old.me ≡ (waiting pass.old.me.0.known pass.old.me.0.seats pass.old.me.0.numbers t, [])) }
        ensures lock { pass.new.table_id ≡ pass.old.table_id }
        ensures taken { result ≡ mine → Holds B.book pass.old.me.0 pass.new.me }
        ensures not_taken { result ≢ mine → pass.new.me ≡ pass.old.me }
    {
        self.board.shared.load::<Look>(pass, 2)
    }

    // Waits for its turn, and takes the value.
    fn wait<R: Wait>(&self, rt: &R, pass: &mut Pass<B>, mine: u64)
        requires lock { pass.old.table_id ≡ self.now.board.shared.table_id }
        requires waits { (t : ℕ) × (t % 2 ^ 64 ≡ mine) × (pass.old.me ≡ (waiting pass.old.me.0.known pass.old.me.0.seats pass.old.me.0.numbers t, [])) }
        ensures lock { pass.new.table_id ≡ pass.old.table_id }
        ensures taken { Holds B.book pass.old.me.0 pass.new.me }
    {
        let mut looks = 0;
        for _ in rt.forever() {
            let found = self.look(pass, mine);
            if found == mine {
                return;
            }
            if looks < LOOKS {
                looks += 1;
                hint::spin_loop();
            } else {
                let low = (found % (1 << 32)) as u32;
                self.board.shared.park(rt, 2, low);
            }
        }
        unreachable!()
    }

    /// Waits until the pass's turn comes, and takes the value. The pass then knows its whole history, which begins with all that it knew; what is new there
    /// was made by numbers of others. One that owns all numbers finds the value that it knew last, with nothing new.
    pub fn enter<R: Wait>(&self, rt: &R, pass: &mut Pass<B>) -> Guard<B>
        requires lock { pass.old.table_id ≡ self.now.board.shared.table_id }
        requires idle { IsIdle pass.old.me }
        requires live { pass.old.me.0.numbers ≢ [] }
        ensures lock { pass.new.table_id ≡ pass.old.table_id }
        ensures value { Tells (B.book result.value) pass.new.me.0.known }
        ensures last { pass.new.me.0.known.last ≡ Some result.value }
        ensures grows { Grows pass.old.me.0.seats pass.old.me.0.numbers pass.old.me.0.known pass.new.me.0.known }
        ensures alone { OwnsAll pass.old.me.0 → pass.new.me.0.known ≡ pass.old.me.0.known }
        ensures turn { (t : ℕ) × (pass.new.me ≡ (busy pass.new.me.0.known pass.old.me.0.seats pass.old.me.0.numbers t, (0, None) ∷ [])) }
    {
        let mine = self.draw(pass);
        self.wait(rt, pass, mine);
        let out = self.board.shared.exchange(pass, 0, None);
        let Some(value) = out else { unreachable!() };
        Guard { value }
    }

    /// Gives the value back, and wakes who waits. The value's history goes on from the one at [`Turn::enter`]. The pass then knows it whole, and its first
    /// number made what is new in it.
    pub fn leave(&self, guard: Guard<B>, pass: &mut Pass<B>)
        requires lock { pass.old.table_id ≡ self.now.board.shared.table_id }
        requires turn { IsBusy pass.old.me }
        requires history { GoesOn pass.old.me.0.known (B.book guard.value) }
        ensures lock { pass.new.table_id ≡ pass.old.table_id }
        ensures seen { pass.new.me
            ≡ (
              idle (taken_in pass.old.me.0.known (first_of pass.old.me.0.numbers) guard.value (B.book guard.value)) pass.old.me.0.seats
                  pass.old.me.0.numbers,
              [],
            ) }
    {
        let Guard { value } = guard;
        let front = value.front();
        let out = self.board.shared.exchange(pass, 0, Some(value));
        let None = out else { unreachable!() };
        self.board.shared.store::<Count>(pass, 0, front);
        let served = self.board.shared.fetch_add::<PassOn>(pass, 2, 1);
        if self.board.shared.peek(1) != served.wrapping_add(1) {
            self.board.shared.wake_all(2);
        }
    }

    /// A new pass with the first number of this one, which keeps the others. Both know what it knew. It takes no memory.
    pub fn split(&self, pass: &mut Pass<B>) -> Pass<B>
        requires lock { pass.old.table_id ≡ self.now.board.shared.table_id }
        requires idle { IsIdle pass.old.me }
        requires two { 2 ≤ length pass.old.me.0.numbers }
        ensures lock { (pass.new.table_id ≡ pass.old.table_id) × (result.table_id ≡ pass.old.table_id) }
        ensures mine { pass.new.me ≡ (idle pass.old.me.0.known pass.old.me.0.seats (rest_of pass.old.me.0.numbers), []) }
        ensures given { result.me ≡ (idle pass.old.me.0.known pass.old.me.0.seats (first_of pass.old.me.0.numbers ∷ []), []) }
    {
        self.board.shared.split_seat::<Share>(pass)
    }

    /// Takes in another pass, with its numbers. The pass then knows what the later of the two knew: each of them is a beginning of that, and what follows
    /// was made by numbers of others. No number was owned by both.
    pub fn join(&self, pass: &mut Pass<B>, other: Pass<B>)
        requires lock { (pass.old.table_id ≡ self.now.board.shared.table_id) × (other.table_id ≡ self.now.board.shared.table_id) }
        requires idle { IsIdle pass.old.me }
        requires other_idle { IsIdle other.me }
        requires live { (pass.old.me.0.numbers ≢ []) × (other.me.0.numbers ≢ []) }
        ensures lock { pass.new.table_id ≡ pass.old.table_id }
        ensures both { pass.new.me
            ≡ (idle (later pass.old.me.0.known other.me.0.known) pass.old.me.0.seats (pass.old.me.0.numbers ++ other.me.0.numbers), []) }
        ensures mine { Grows pass.old.me.0.seats pass.old.me.0.numbers pass.old.me.0.known pass.new.me.0.known }
        ensures theirs { Grows pass.old.me.0.seats other.me.0.numbers other.me.0.known pass.new.me.0.known }
        ensures apart { AreApart pass.old.me.0.seats (pass.old.me.0.numbers ++ other.me.0.numbers) }
    {
        self.board.shared.join_seat::<Unite>(pass, other);
        self.board.shared.load::<Recall>(pass, 0);
    }

    /// Gives back the value, as a pass knows it that owns all numbers of the lock.
    pub fn close(self, pass: Pass<B>) -> B
        requires lock { pass.table_id ≡ self.board.shared.table_id }
        requires idle { IsIdle pass.me }
        requires all { (pass.me.0.numbers ≢ []) × OwnsAll pass.me.0 }
        ensures value { Tells (B.book result) pass.me.0.known }
        ensures last { pass.me.0.known.last ≡ Some result }
    {
        let Turn { board } = self;
        let mut closed = board.close_with(pass);
        let slot = closed.take(0);
        closed.free();
        let Some(value) = slot else { unreachable!() };
        value
    }
}

// The value of the one slot.
fn only<B>(mut slots: Vec<Option<B>>) -> B
    requires { (b : B) × (slots.items ≡ Some b ∷ []) }
    ensures { slots.items ≡ Some result ∷ [] }
{
    let Some(last) = slots.pop() else {
        unreachable!()
    };
    let Some(value) = last else { unreachable!() };
    slots.destroy_empty();
    value
}
