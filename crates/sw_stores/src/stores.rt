ghost use Rattle.std.specs.Prelude.{◌≡◌, ℕ, Bool, true, false, List, Option, Some, IfOk, OnOk, OnErr};
ghost use Rattle.sw_outside.specs.Counts.{raised};
ghost use Rattle.sw_stores.specs.Places.{is_pair, ComeHome, GoOut, IsAsItWas, IsSameBut};
ghost use Rattle.sw_stores.specs.Telling.{faults_after, IsKept, Telling};
ghost use Rattle.sw_stores.specs.Starting.{StartsFrom};

use std::alloc::Global;
use sw_keeper::Keeper;
use sw_outside::{Bytes, StoreError};
use sw_volume::Volume;

/// What a host keeps for the program: the texts of rings by name, and for each lock, which is a stripe of a device, a volume of objects and a keeper of
/// containers.
///
/// The two of a lock are out from their start until they are given back, together. Reading a ring and starting a lock's two each count as one call, and one
/// fault exactly where they answer [`StoreError::Failed`]; giving back counts as none. After an error nothing has changed but these counts.
pub trait Stores {
    /// The volume of one object lock.
    type V: Volume + Drop;

    /// The keeper of the container lock beside it.
    type K: Keeper + Drop;

    /// What the stores tell of the ring of a name: nothing, that there is none, or its text.
    ghost text: { Self → List ℕ → Telling };

    /// How many calls have failed, each counted once. The count stands still at 2^64 - 1.
    ghost faults: { Self → ℕ };

    /// How many calls there were, failed ones too. The count stands still at 2^64 - 1.
    ghost calls: { Self → ℕ };

    /// The volume and the keeper that rest at a device and a stripe, where that is known: they were given back, or were there before. It says nothing of
    /// those that are out.
    ghost rests: { Self → ℕ → ℕ → Option (Self.V × Self.K) };

    /// Whether those of a device and a stripe are out: started, and not given back.
    ghost out: { Self → ℕ → ℕ → Bool };

    /// What is known of those that are started where none are known to rest.
    ghost first: { Self.V × Self.K → Type 0 };

    /// The text of the ring of this name.
    fn ring(&mut self, alloc: Global, name: &str) -> Result<Bytes, StoreError>
        ensures text { IfOk result (λ bytes. IsKept (text self.old name.now) bytes) }
        ensures kept { (other : List ℕ) → text self.new other ≡ text self.old other }
        ensures rests { IsAsItWas (rests self.old) (rests self.new) }
        ensures out { IsAsItWas (out self.old) (out self.new) }
        ensures cause { faults self.new ≡ faults_after (faults self.old) result }
        ensures calls { calls self.new ≡ raised (calls self.old) };

    /// Starts the volume and the keeper of a stripe of a device: those that rest there, where that is known.
    fn start(
        &mut self,
        alloc: Global,
        device: u8,
        stripe: u8,
    ) -> Result<(Self::V, Self::K), StoreError>
        requires { out self.old device stripe ≡ false }
        ensures part { IfOk result (StartsFrom first (rests self.old device stripe)) }
        ensures out { OnOk result (GoOut (is_pair device stripe) (out self.old) (out self.new)) }
        ensures others { OnOk result (IsSameBut (is_pair device stripe) (rests self.old) (rests self.new)) }
        ensures not_out { OnErr result (IsAsItWas (out self.old) (out self.new)) }
        ensures rests { OnErr result (IsAsItWas (rests self.old) (rests self.new)) }
        ensures kept { (other : List ℕ) → text self.new other ≡ text self.old other }
        ensures cause { faults self.new ≡ faults_after (faults self.old) result }
        ensures calls { calls self.new ≡ raised (calls self.old) };

    /// Gives a volume and a keeper back. It takes no memory and can't fail.
    fn give_back(&mut self, device: u8, stripe: u8, volume: Self::V, keeper: Self::K)
        requires { out self.old device stripe ≡ true }
        ensures rests { rests self.new device stripe ≡ Some (volume, keeper) }
        ensures others { IsSameBut (is_pair device stripe) (rests self.old) (rests self.new) }
        ensures home { ComeHome (is_pair device stripe) (out self.old) (out self.new) }
        ensures kept { (other : List ℕ) → text self.new other ≡ text self.old other }
        ensures faults { faults self.new ≡ faults self.old }
        ensures calls { calls self.new ≡ calls self.old };
}
