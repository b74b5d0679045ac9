//! The names of the expirer's queue: what is to be deleted, and when.
//!
//! An object that expires has an entry in a queue: a name in the account [`QUEUE_ACCOUNT`], in a container of the day of its deletion, which tells the time and
//! the object. [`queue_name`] gives the name of the entry, and [`read_entry`] reads of an entry which deletion is [`Due`].
//!
//! What is promised: the name is exactly the formula of `specs/`, or the first thing that is wrong with it; an entry is read exactly where it is the entry of a
//! good name and a time of ten digits, as these; memory is wanted only where a name is made. The [`laws`] say that what is written is read back, that an
//! entry tells of one deletion, that entries and containers are ordered as their times, and which day the entries of a container are of.
//!
//! Nothing in the program uses this yet: the next layers are the object directories, which will file records for the queue, and the expirer, which will read
//! it.
#![tactic(auto)]

mod digits;
mod due;
pub mod laws;
mod naming;
mod reading;

pub use due::{Due, read_entry};
pub use naming::{QUEUE_ACCOUNT, queue_name};
