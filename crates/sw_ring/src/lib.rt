//! The ring: which devices a cluster has, and which of them keep the objects and the containers of each partition.
//!
//! [`read`] reads a ring from its JSON text, exactly or not at all, and reports the first thing that is wrong with it.
//! What it accepts is a rule of the type [`Ring`], so that [`Ring::row`] and [`Ring::device`] need no test.
//!
//! The next layers up are the servers, which find by a ring where a name belongs, and `sw_core`, whose nodes are those of a ring.
#![tactic(auto)]

mod bad_ring;
mod draft;
mod fields;
mod narrowing;
mod reading;
mod ring;
mod row_checks;

pub use bad_ring::{BadRing, RingError};
pub use reading::read;
pub use ring::{Ring, Which};
use sw_outside::Sequence;

/// A list of devices, each as its place in the ring's list of devices.
pub type DeviceList = Sequence<u8>;

/// A table of a ring: for each partition the devices that keep it.
pub type RowTable = Sequence<DeviceList>;

/// A row as its text has it, with numbers of devices that may be too large.
pub(crate) type NumberRow = Sequence<u64>;
