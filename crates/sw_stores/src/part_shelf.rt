ghost use Rattle.std.specs.Prelude.{◌≡◌, [], None, Some, true, false, IfOk, OnOk, OnErr, position, is_some};
ghost use Rattle.sw_stores.specs.Places.{is_pair, ComeHome, GoOut, IsAsItWas, IsSameBut};
ghost use Rattle.sw_stores.specs.Shelf.{Fills, is_out, rests_in};

use std::alloc::Global;
use std::marker::Model;
use std::mem;
use sw_outside::NoMemory;

/// What a lock stands over, unless that is out.
#[derive(Debug, Drop)]
pub struct Slot<P> {
    pub device: u8,
    pub stripe: u8,
    pub part: Option<P>,
}

/// What locks stand over, by their locks. The time of a call grows with the number of locks that were started: at most a few hundred.
#[derive(Debug, Drop)]
pub struct PartShelf<P> {
    slots: Vec<Slot<P>>,
}

impl<P> Model for PartShelf<P> {
    ghost use Rattle.std.specs.Prelude.{List};
    ghost use Rattle.sw_stores.specs.declared.part_shelf.Slot.{Slot};

    ghost Value = { List (Slot P) };

    ghost view = { λ s. s.slots.items };
}

impl<P: Drop> PartShelf<P> {
    /// A shelf on which nothing rests, and nothing is out.
    pub fn new(alloc: Global) -> PartShelf<P>
        ensures { result ≡ [] }
    {
        PartShelf {
            slots: Vec::new(alloc),
        }
    }

    /// Puts this there before anything is started, in place of what rests there. After [`NoMemory`] nothing has changed.
    pub fn place(&mut self, device: u8, stripe: u8, part: P) -> Result<(), NoMemory>
        requires { is_out self.old device stripe ≡ false }
        ensures rests { OnOk result (rests_in self.new device stripe ≡ Some part) }
        ensures others { OnOk result (IsSameBut (is_pair device stripe) (rests_in self.old) (rests_in self.new)) }
        ensures out { OnOk result (IsAsItWas (is_out self.old) (is_out self.new)) }
        ensures err { OnErr result (self.new ≡ self.old) }
        ensures none { OnErr result (rests_in self.old device stripe ≡ None) }
    {
        fill(&mut self.slots, device, stripe, Some(part))?;
        Ok(())
    }

    /// Whether something rests there.
    pub fn rests(&self, device: u8, stripe: u8) -> bool
        ensures { result ≡ is_some (rests_in self.now device stripe) }
    {
        match find(&self.slots, device, stripe) {
            Some(place) => self.slots[place].part.is_some(),
            None => false,
        }
    }

    /// Takes what rests there out: it is out also where nothing does. Only for the first of a lock it takes memory: the room in which it
    /// comes back. After [`NoMemory`] nothing has changed.
    pub fn take(&mut self, device: u8, stripe: u8) -> Result<Option<P>, NoMemory>
        requires { is_out self.old device stripe ≡ false }
        ensures part { IfOk result (λ part. part ≡ rests_in self.old device stripe) }
        ensures out { OnOk result (GoOut (is_pair device stripe) (is_out self.old) (is_out self.new)) }
        ensures others { OnOk result (IsSameBut (is_pair device stripe) (rests_in self.old) (rests_in self.new)) }
        ensures err { OnErr result (self.new ≡ self.old) }
        ensures none { OnErr result (rests_in self.old device stripe ≡ None) }
    {
        fill(&mut self.slots, device, stripe, None)
    }

    /// Gives it back. It takes no memory.
    pub fn give_back(&mut self, device: u8, stripe: u8, part: P)
        requires { is_out self.old device stripe ≡ true }
        ensures rests { rests_in self.new device stripe ≡ Some part }
        ensures others { IsSameBut (is_pair device stripe) (rests_in self.old) (rests_in self.new) }
        ensures home { ComeHome (is_pair device stripe) (is_out self.old) (is_out self.new) }
    {
        match fill(&mut self.slots, device, stripe, Some(part)) {
            Ok(_) => {}
            Err(NoMemory) => unreachable!(),
        }
    }

    /// The slots of the locks of which anything was placed or started, in the order of their first. It takes no memory.
    pub fn into_slots(self) -> Vec<Slot<P>>
        ensures { result.items ≡ self }
    {
        self.slots
    }
}

/// Lets this stand in the slot of a lock, and answers what stood there. Only where the lock has no slot it takes memory for one.
fn fill<P: Drop>(
    slots: &mut Vec<Slot<P>>,
    device: u8,
    stripe: u8,
    part: Option<P>,
) -> Result<Option<P>, NoMemory>
    ensures was { IfOk result (λ was. was ≡ rests_in slots.old.items device stripe) }
    ensures fills { OnOk result (Fills slots.old.items slots.new.items device stripe part) }
    ensures err { OnErr result (slots.new.items ≡ slots.old.items) }
    ensures home { OnErr result (is_out slots.old.items device stripe ≡ false) }
    ensures none { OnErr result (rests_in slots.old.items device stripe ≡ None) }
{
    match find(slots, device, stripe) {
        Some(place) => Ok(mem::replace(&mut slots[place].part, part)),
        None => {
            slots.push(Slot {
                device,
                stripe,
                part,
            })?;
            Ok(None)
        }
    }
}

/// Where the slot of a lock stands.
fn find<P>(slots: &[Slot<P>], device: u8, stripe: u8) -> Option<usize>
    ensures { result ≡ position (λ slot. is_pair device stripe slot.device slot.stripe) slots.now }
{
    slots
        .iter()
        .position(|slot| slot.device == device && slot.stripe == stripe)
}
