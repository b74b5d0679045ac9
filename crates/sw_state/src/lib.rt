//! The state of a name: what is left of the writes that reached it.
//!
//! A [`Write`] puts an object, deletes it or gives it other metadata, at its time. Of all writes of a name two count, and
//! they are its [`State`]: the base, which is the latest put or deletion (where two have one time, the deletion), and the
//! latest meta that is later than the base. [`State::join`] adds a write, [`State::adds`] and [`State::at_least`] say
//! beforehand what would change, and all three decide by times and tags alone.
//!
//! What is promised: `join` leaves exactly the state of the writes so far with the new one at the end, whatever came
//! before, and where two writes of one time and tag differ the first stays. Where there are no such two, the state is
//! that of the set of writes: their order, their grouping and repeats make no difference ([`laws`]).
//!
//! The rules of the types ([`HeadList`], [`Heads`], [`Content`]) hold of every value, so no caller tests them twice. The
//! next layer up is `sw_metafile`, which writes the parts of a state into files and reads them back.
#![tactic(auto)]

mod base;
mod content;
mod head;
mod head_list;
mod heads;
mod join;
pub mod laws;
mod object;
mod state;
mod write;

pub use base::Base;
pub use content::Content;
pub use head::Head;
pub use head_list::{HeadList, NotHeads};
pub use heads::{Heads, LATEST_DELETE_AT};
pub use state::State;
pub use write::{Kind, Write};
