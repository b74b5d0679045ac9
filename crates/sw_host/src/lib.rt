//! The files of the host, and how an operator is told why a call on them failed.
//!
//! [`Host`] has the calls that a node makes on folders and files, and [`make_way`] makes folders so that a kill leaves none unsynced below which something
//! stands. [`Notes`] are told which call on the host failed, and why. What a real file holds is under no contract.
//!
//! The next layers up are `sw_store`, which keeps files and connections of a node, and `sw_container_store`, which keeps databases of containers.
#![tactic(auto)]

mod errors;
mod host;
mod notes;
mod paths;
mod way;

pub use errors::store_error;
pub use host::Host;
pub use notes::{HostCall, LineNotes, NoNotes, Notes, noted};
pub use paths::{HostPath, above, add, below, refused};
pub use way::make_way;
