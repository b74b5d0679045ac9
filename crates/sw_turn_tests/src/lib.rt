//! A diary under a lock: threads that write into it, with the theorem of what it has in the end, and tests.
//!
//! [`by_two`] is the proved caller: two threads take turns, and at the end the history has exactly as many entries as they counted. The tests show
//! what no clause says: that it ends, with ample memory, and that each value is given back as it was.
#![tactic(auto)]

mod diary;
#[cfg(test)]
mod turns;
mod writers;

pub use diary::Diary;
pub use writers::{Ended, by_one, by_parts, by_two};
