//! A lock whose value keeps a history, and passes that know a beginning of it.
//!
//! [`Turn`] is a ticket lock over one value. A thread holds a [`Pass`] of it: it comes in by [`Turn::enter`], has the value in a [`Guard`] while no other
//! pass has it, and gives it back by [`Turn::leave`]. A pass takes no bytes. To contracts it tells what it knows of the history of the value, and which
//! numbers of the lock it owns; [`Turn::split`] and [`Turn::join`] hand numbers on, so that each thread has a pass of its own.
//!
//! What is promised, of each lock and every schedule of its threads:
//!
//! - What [`Turn::enter`] gives begins with all that the pass knew, and after [`Turn::leave`] the pass knows all of it. No entry is lost, none stands twice.
//! - Each entry has one maker, a number of the lock, and a pass knows every entry whose maker it owns. A pass that owns all numbers finds the very value
//!   that it knew last, and [`Turn::close`] gives that back.
//! - The opening, which the history begins from, stays, and the count of faults never falls.
//!
//! No clause says that a pass's turn ever comes, nor in which order passes come in.
//!
//! `specs/Known.antt` has the words of the contracts, `specs/Rule.antt` the states of a pass and the rule that the lock's table keeps, and
//! `specs/Steps.antt` what each atomic step tells. It stands on `atomic_table`, whose README says what a table, a seat and a play are. Nothing stands on it
//! yet but its tests: the next layer is doors that threads share, one lock for each directory.
#![tactic(auto)]

mod board;
mod booked;
mod turn;

pub use board::{About, Pass};
pub use booked::{Book, Booked, Known, Part, View};
pub use turn::{Guard, Turn};
