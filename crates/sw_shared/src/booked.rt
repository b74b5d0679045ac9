//! An object directory as a value that may lie under a lock.
ghost use Rattle.std.specs.Prelude.{◌≡◌, ◌≢◌, ◌<◌, [], IfOk, IfErr, Some};
ghost use Rattle.sw_shared.specs.Books.{book_of};
ghost use Rattle.sw_shared.specs.Turning.{HasSeen, booked};
ghost use Rattle.sw_turn.specs.Known.{below, nothing, taken_in};
ghost use Rattle.sw_turn.specs.Rule.{IsIdle, OwnsAll, idle};

use std::alloc::Global;
use sw_hashpath::Secrets;
use sw_objdir::ObjDir;
use sw_object_steps::ObjEntry;
use sw_turn::{Booked, Pass, Turn};
use sw_volume::Volume;

/// What the journal of a directory begins from. No value of it is made: contracts alone see it.
pub struct Began<V> {
    /// The volume as it was then.
    pub volume: V,
    /// The secrets of the ring.
    pub secrets: Secrets,
    /// Its part power.
    pub power: u8,
    /// How many entries the journal has at most.
    pub max_entries: u64,
    /// How many bytes the bodies in them have at most, together.
    pub max_bytes: u64,
}

/// An object directory under a lock. Its history is its journal, the count of faults is its volume's, and the opening what it began from.
#[derive(Drop)]
pub struct BookedObjects<V: Volume + Drop> {
    /// The directory.
    pub dir: ObjDir<V>,
}

impl<V: Volume + Drop> Booked for BookedObjects<V> {
    type Entry = ObjEntry;

    type Opening = Began<V>;

    ghost use Rattle.sw_shared.specs.Books.{book_of};

    ghost book = { λ b. book_of V.faults b.dir };

    fn front(&self) -> u64 {
        self.dir.front()
    }
}

impl<V: Volume + Drop> BookedObjects<V> {
    /// Puts a directory under a lock with so many numbers. The pass owns all of them, and has seen the directory. Where memory runs out the directory
    /// comes back.
    pub fn lock(
        alloc: Global,
        dir: ObjDir<V>,
        seats: u32,
    ) -> Result<(Turn<BookedObjects<V>>, Pass<BookedObjects<V>>), ObjDir<V>>
        requires { 0 < seats }
        ensures lock { IfOk result (λ r. r.1.table_id ≡ r.0.board.shared.table_id) }
        ensures pass { IfOk result (λ r. r.1.me ≡ (idle (taken_in nothing 0 (booked dir) (book_of V.faults dir)) seats (below seats), [])) }
        ensures seen { IfOk result (λ r. HasSeen V.tells V.holds V.faults dir.secrets dir.power r.1.me.0) }
        ensures back { IfErr result (λ d. d ≡ dir) }
    {
        dir.may_stand();
        match Turn::new(alloc, BookedObjects { dir }, seats) {
            Ok(opened) => Ok(opened),
            Err(back) => Err(back.dir),
        }
    }

    /// Gives the directory back, as the pass knows it that owns all numbers of the lock.
    pub fn unlock(lock: Turn<BookedObjects<V>>, pass: Pass<BookedObjects<V>>) -> ObjDir<V>
        requires lock { pass.table_id ≡ lock.board.shared.table_id }
        requires idle { IsIdle pass.me }
        requires all { (pass.me.0.numbers ≢ []) × OwnsAll pass.me.0 }
        ensures { pass.me.0.known.last ≡ Some (booked result) }
    {
        lock.close(pass).dir
    }
}
