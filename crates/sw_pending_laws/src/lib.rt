//! What records of updates are for: where none of a container is pending, each of its replicas shows exactly its live objects.
//!
//! A ledger has what reached every device, the records that stand there, the rows of every container, and the messages between them
//! (`specs/Ledger.antt`). Whatever single changes it goes on by, each put and deletion that a client asked for is told to every device of its
//! container, or a record says which were not (`specs/Sound.antt`); and where nobody makes up writes or rows, all rows come from such puts and deletions.
//! So [`laws`] says what is shown.
//!
//! Nothing here knows nodes, locks or files.
#![tactic(auto)]

pub mod laws;
