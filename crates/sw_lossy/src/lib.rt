//! A door around another that loses messages, loses answers and repeats messages, by their numbers.
//!
//! [`Lossy`] is itself a door, so that whatever runs over any door runs over one that fails in this way. A pass says by [`Acts`] which of its
//! messages are to be lost or repeated. `specs/Losses.antt` says what becomes of each message.
//!
//! It is a door to objects where the one inside is, a door to their records of updates where that one is, and a door to containers where that one is.
//! One count numbers the messages of all kinds, and what becomes of a message is told by its number alone.
//!
//! It counts by itself the messages that ask for hashes or files: one that is lost never comes to the door inside, which counts one that
//! comes twice as two. A read of records, or of the row to tell for one, is none of them.
#![tactic(auto)]

mod acts;
mod lossy;

pub use acts::Acts;
pub use lossy::Lossy;
