use sw_hashpath::Name;
use sw_lossy::Acts;
use sw_object_steps::Change;

/// A step that is to be made of a world.
#[derive(Debug, Drop)]
pub enum Step {
    /// A change of the object of this name at a device, said to the device itself.
    Change {
        /// The device, as its place in the ring's list of devices.
        device: u8,
        name: Name,
        change: Change,
    },
    /// A read of this name at a device.
    Read {
        device: u8,
        name: Name,
    },
    /// A listing of all files of a device.
    List {
        device: u8,
    },
    /// A restart of a device.
    Restart {
        device: u8,
    },
    /// A push of a partition from a device to another one.
    Push {
        from: u8,
        to: u8,
        part: u32,
        /// Which of its messages fail, by their numbers in this push.
        acts: Acts,
    },
}
