use sw_hashpath::Name;
use sw_state::Content;
use sw_timestamp::Timestamp;

/// What is asked for: a request to the device that it comes to, or a pass of a device.
#[derive(Debug, Drop)]
pub enum Work {
    /// Puts an object.
    Put {
        device: u8,
        name: Name,
        time: Timestamp,
        content: Content,
    },
    /// Deletes an object.
    Delete {
        device: u8,
        name: Name,
        time: Timestamp,
    },
    /// Gets an object.
    Get {
        device: u8,
        name: Name,
    },
    /// Pushes each partition in whose row the device stands to the other devices of that row.
    Replicate {
        device: u8,
    },
    /// Tells the containers of what was put and deleted at the device.
    Update {
        device: u8,
    },
    /// Pushes the rows of each container of the load that the device holds to the container's other replicas.
    Rows {
        device: u8,
    },
}

/// One thing that is asked for, and the number that it is known by.
#[derive(Debug, Drop)]
pub struct Job {
    /// Each job of a list has another one.
    pub number: u64,
    pub work: Work,
}
