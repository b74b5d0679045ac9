//! Doors at work, with tests of them: messages that are sent over any door, and what their acknowledgements tell; doors that lose and repeat. Beside
//! them tests of object directories and of all nodes, over their public calls: what the contracts say is proved for every input, so these show what no
//! contract can: that the worked values are the ones that were meant, that a call succeeds while there is memory, and that generic code works over the
//! volume in memory.
#![tactic(auto)]

#[cfg(test)]
mod asked;
mod between;
#[cfg(test)]
mod filings;
#[cfg(test)]
mod losing;
#[cfg(test)]
mod obj_dirs;
#[cfg(test)]
mod peer;
#[cfg(test)]
mod recording;
mod refusing;
#[cfg(test)]
mod runs;
mod sending;
#[cfg(test)]
mod worlds;

pub use between::{Heard, send_between};
pub use refusing::Refusing;
pub use sending::send;
