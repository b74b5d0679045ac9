ghost use Rattle.std.specs.Prelude.{◌≡◌, ◌↔◌, true, IfOk};
ghost use Rattle.sw_pending.specs.Rules.{are_in_order, is_queue_account, is_queue_right};

use std::alloc::Global;
use sw_hashpath::Name;
use sw_outside::{NoMemory, Sequence, TryCopy};
use sw_timestamp::Timestamp;

/// A list of devices, each as its place in the ring's list of devices.
pub type DeviceList = Sequence<u8>;

/// The account that has the queue of objects that expire.
const QUEUE_ACCOUNT: &[u8] = b".expiring_objects";

/// A record: the container of this name has to be told of the write at this time, or of a later one.
#[derive(Debug, Drop)]
pub struct Filed {
    pub name: Name,
    pub time: Timestamp,
    /// Whether the record is for an entry of the expirer's queue, which only names of the account `.expiring_objects` are:
    /// [`Filed::is_queue_account`] tells.
    pub queue: bool,
    /// The devices of the container that have been told, in order, each once: [`Filed::are_in_order`] tells.
    pub done: DeviceList,
    pub ghost queue_right: { is_queue_right queue name.account ≡ true },
    pub ghost in_order: { are_in_order done ≡ true },
}

impl Filed {
    /// Whether this account has the expirer's queue.
    pub fn is_queue_account(account: &[u8]) -> bool
        ensures { result ≡ is_queue_account account.now }
    {
        account == QUEUE_ACCOUNT
    }

    /// Whether these devices are in order, each once.
    pub fn are_in_order(devices: &[u8]) -> bool
        ensures { result ≡ are_in_order devices.now }
    {
        devices.is_sorted_by(|one, next| *one < *next)
    }

    /// Whether it is the other record: it has its name, time, kind and devices.
    pub fn is_same(&self, other: &Filed) -> bool
        ensures { (result ≡ true) ↔ (self.now ≡ other.now) }
    {
        is_same_name(&self.name, &other.name)
            && self.time == other.time
            && self.queue == other.queue
            && self.done.as_slice() == other.done.as_slice()
    }

    /// A record that is equal to this one, or [`NoMemory`].
    pub fn copy(&self, alloc: Global) -> Result<Filed, NoMemory>
        ensures { IfOk result (λ copy. copy ≡ self.now) }
    {
        Ok(Filed {
            name: self.name.copy(alloc)?,
            time: self.time,
            queue: self.queue,
            done: self.done.copy(alloc)?,
        })
    }
}

fn is_same_name(one: &Name, other: &Name) -> bool
    ensures { (result ≡ true) ↔ (one.now ≡ other.now) }
{
    one.hash == other.hash
        && one.account.as_slice() == other.account.as_slice()
        && one.container.as_slice() == other.container.as_slice()
        && one.object.as_slice() == other.object.as_slice()
}

impl TryCopy for Filed {
    fn try_copy(&self, alloc: Global) -> Result<Filed, NoMemory> {
        self.copy(alloc)
    }
}
