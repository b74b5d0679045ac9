//! Steps at containers: what each makes of a container, what it is answered, and what the journal of its lock keeps of it.
//!
//! A step is one [`ContChange`]. [`decide`] says over the tables of a container what the step comes to: the answer that
//! refuses it, or exactly the entries ([`ContEntry`]) that it adds. [`batch_of`] makes those entries one batch of changes that
//! a keeper takes. [`info_of`], [`times_of`], [`list`], [`sync_rows`], [`sharding_of`] and [`rows_above`] are what is read of tables.
//!
//! `specs/Rules` has the rules by which the steps at one lock go, in the words of `sw_step`, and what a step that changes or reads a container is by
//! them; [`laws`] has that they are rules. No call of a keeper is made here; the next layer up makes them.
#![tactic(auto)]

mod batching;
mod cont_answer;
mod cont_change;
mod cont_entry;
mod counting;
mod deciding;
mod entering;
mod entries;
mod info;
pub mod laws;
mod merging;
mod presence;
mod reading;
mod refusing;
mod serving;
mod sharding;
mod sign;
mod syncing;

pub use batching::{Entered, batch_of};
pub use cont_answer::ContAnswer;
pub use cont_change::{ContChange, DeviceList, RowList};
pub use cont_entry::{ContEntry, ContEntryList};
pub use counting::has_numbers;
pub use deciding::{Decision, decide, made_answer};
pub use info::{Info, SplitState};
pub use presence::is_present;
pub use reading::{info_of, list, times_of};
pub use sharding::{Sharding, rows_above, sharding_of};
pub use sign::{Sign, sign_of};
pub use syncing::{Parcel, sync_rows};
