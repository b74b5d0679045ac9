//! All nodes, as a door that keeps no trail.
//!
//! A `World` (`sw_core`) keeps a line of each step that came, until its trail is taken. A server that runs for days can't: what it keeps must
//! not grow with the requests that it served. A [`QuietWorld`] is the same nodes, as a door (`sw_peer`) whose sight has no trail. Each call is
//! one of the world within, whose line is let go before the call returns.
//!
//! What is promised: each call is still one of a door, and a device that is lifted and set down was restarted ([`laws`]). So a run of the machine
//! (`sw_machine`) goes on by each, with a line that its law gives, and that nobody keeps.
#![tactic(auto)]

pub mod laws;
mod quiet_world;

pub use quiet_world::QuietWorld;
