//! What the host keeps and carries for a node that outlives its process: its files and its connections.
//!
//! [`HostVolume`] is a volume over a folder of the host, and a [`HostKeeper`] keeps containers below that folder, each in a database. [`HostStores`] gives
//! one of each to a lock. [`TcpDoors`] are the doors at which clients come, each with an end that is read ([`TcpSource`]) and one that is written
//! ([`TcpSink`]). What a real file holds, and what comes over a socket, is under no contract: these are adapters, proved to be safe and to count calls and
//! faults as their traits say.
//!
//! Stores make their process the one owner of their folder, and look whether it was made for the ring that they read. [`Notes`] are told which call on the
//! host failed, and why: that is `sw_host`, the layer below.
#![tactic(auto)]

mod claim;
mod host_disk;
mod host_stores;
mod host_volume;
mod layout;
mod listing;
mod pace;
mod paths;
mod tcp_doors;
mod tcp_sink;
mod tcp_source;

pub use host_stores::{HostKeeper, HostStores};
pub use host_volume::HostVolume;
pub use pace::Patience;
pub use sw_host::{HostCall, LineNotes, NoNotes, Notes};
pub use tcp_doors::{TcpDoors, TcpFinished};
pub use tcp_sink::TcpSink;
pub use tcp_source::TcpSource;
