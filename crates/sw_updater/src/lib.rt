//! The object updater: tells the containers of a device's objects what records of updates have for them, over any door.
//!
//! [`update`] reads the records of all stripes of its device, and goes over them in order of folder and name. For each it reads the row that tells what
//! now stands under the record's name, and sends it to every device of the container that isn't marked there, in a message of its own; a device is marked
//! once it acknowledged the row. Where a device has left the name of the row to a shard, the redirect is followed: `sw_redirect` sends the row on to each
//! replica of that shard, and the device is marked once all of them acknowledged it. Then the record is dropped, which its lock does where all devices are
//! marked, or where nothing stands any more that they would have to be told. So a lost message or an answer that refuses leaves the record, and a later
//! pass goes on with the devices that aren't marked.
//!
//! `specs/Updating` has the calls of a pass in their order and what each counts for, `specs/Reading` which records it goes over, `specs/Causes` why a pass
//! isn't done, and `specs/Laws` what became of the records where it is. Which devices keep the container that a record tells is in `sw_pass`.
//!
//! [`pending`] reads these records alone, for who wants to look at them. The next layer up is `sw_steps`, where messages of a pass are lost and repeated.
#![tactic(auto)]

mod counting;
pub mod laws;
mod ordering;
mod reading;
mod settling;
mod task;
mod telling;
mod updating;

pub use updating::{pending, update};
