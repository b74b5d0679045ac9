//! What the replicas of a container list, after any run of the machine (`sw_machine`).
//!
//! In a run nodes are honest (`sw_machine`, `specs/Honest.antt`): a device marks in a record of an update whom it heard, and drops it when all are marked. And
//! nobody makes up a write or a row (`specs/Plain.antt`). Then, whatever calls failed, whatever was lost, came twice or was restarted, each replica of a
//! container of which no record is pending, and which has left no name to a shard, shows exactly the live objects ([`laws`], `specs/Laws.antt`). It follows
//! from the ledger of `sw_pending_laws`, to whose changes each line of a run comes.
#![tactic(auto)]

pub mod laws;
