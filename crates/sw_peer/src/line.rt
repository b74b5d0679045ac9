use crate::cont_event::ContEvent;
use crate::link::Link;
use crate::part_read::PartRead;
use sw_container_steps::ContEntryList;
use sw_hashpath::Name;
use sw_history::Seen;
use sw_object_steps::{Added, Answer, ChangeSeen, Got};

/// What a step asked for, and what it was answered. Bodies are seen by contracts alone, so that a line has no bytes of them.
#[derive(Drop)]
pub enum Event {
    /// A step that may change the object of this name.
    Changed(Name, ChangeSeen, Answer),
    /// A read of this name.
    Read(Seen<Name>, Seen<Got>),
    /// A read of several hashes, as replicas are compared by, or one that records ask for.
    ReadPart(PartRead),
    /// A listing of the files of all locks of the device, and whether a call of a volume failed in it.
    Listed(bool),
    /// A step at a container, and the entries that it added to the journal of the container's lock, those of settled doubts first.
    AtContainer(ContEvent, Seen<ContEntryList>),
    /// A restart of the device: the journal of each of its locks began anew.
    Restarted,
}

/// A step as it came to a device: a message that is lost leaves no line, and one that comes twice leaves two.
#[derive(Drop)]
pub struct Line {
    /// The device, as its place in the ring's list of devices.
    pub device: u8,
    /// How the step was said to it.
    pub link: Link,
    pub event: Event,
    /// The entries that the step added to the journal of its object lock, those of settled doubts first; none where it is at a container.
    pub added: Added,
}
