use sw_hashpath::Name;
use sw_object_steps::Change;

/// What a request asks the nodes for. A device is its place in the ring's list of devices.
#[derive(Debug, Drop)]
pub enum Asked {
    /// Nothing: it is refused with this status.
    Refused(u16),
    /// A step that may change the object of this name at this device.
    Change {
        device: u8,
        name: Name,
        change: Change,
    },
    /// A read of that object, for its head alone or with its body.
    Read {
        device: u8,
        name: Name,
        head_only: bool,
    },
}
