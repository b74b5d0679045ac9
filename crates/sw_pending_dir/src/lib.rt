//! The files of records of updates on any volume: where they are, what stands for each key, and the calls that read, put, unlink and list them.
//!
//! A record's file stands below `async_pending`, in the folder of its key's hash, under its key's name. [`read_record`] reads the one of a key,
//! [`put_record`] puts a record's in place of what stood for its key, and [`unlink_record`] takes a key's away. [`records`] reads them all, in
//! order of folder and name.
//!
//! What stands for a key is a function of a volume's files (`record_at` in `specs/Places`), and so is whether all of them are in order. The contracts
//! say what each call makes of it, for this key and for all others, under whatever secrets, and that no call changes any other file. A file below
//! `async_pending` whose name hasn't the form of a record's, or which is in another folder than that of its key, is passed over.
//!
//! There is no journal here and nothing is remembered between two calls. The next layer up is `sw_objdir`, which files a record for each put and
//! deletion of a client, and whose steps at records are made of these calls.
#![tactic(auto)]

mod fault;
pub mod laws;
mod names;
mod reading;
mod walking;
mod writing;

pub use fault::ReadFault;
pub use reading::read_record;
pub use walking::records;
pub use writing::{put_record, unlink_record};
