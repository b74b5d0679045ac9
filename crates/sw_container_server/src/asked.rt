use sw_container_steps::ContChange;
use sw_hashpath::Place;
use sw_listing::Query;

/// What a request for containers asks the nodes for. A device is its place in the ring's list of devices.
#[derive(Debug, Drop)]
pub enum ContAsked {
    /// Nothing: it is refused with this status.
    Refused(u16),
    /// A step that may change the container of this place at this device.
    Change {
        device: u8,
        place: Place,
        change: ContChange,
    },
    /// What is told of that container: of one that is split with the counts of its shards, each at the device of this number among those that keep it.
    Info {
        device: u8,
        place: Place,
        replica: u8,
    },
    /// The same, and then the entries that answer the query.
    List {
        device: u8,
        place: Place,
        query: Query,
        replica: u8,
    },
}
