//! The object directory: what one object lock holds, over any volume.
//!
//! An [`ObjDir`] lists a name's hash directory at each write or read, answers from what it finds there, and puts at most one file of a write. It keeps
//! no copy of what it finds, only the journal: the changes that it made since it began, and those that failed and may have been made. A
//! doubt of a write of the name is settled by the listing of the step that comes next. A read of a partition settles such doubts of all hashes that it
//! reads, and answers from what it finds once none is left.
//!
//! Under a hash stand its state, which the files of its directory tell, and the records that are filed for names of it, each in a file of its own. A put or
//! deletion of a client puts its record before its own file, and both are one entry; where a change of that very record is in doubt it reads the record's
//! file first. Other writes and reads leave the records, and what is in doubt of them.
//!
//! Each step is one by the rules of objects, which `sw_object_steps` has and every door of object nodes speaks of too. `specs/Directories` says what
//! a hash stands for, `specs/Stepping` what a step is, and `specs/Calling` and `specs/Writing` which calls of the volume it makes, in their order, and
//! what each leaves of the files where it is the one that failed.
//! `specs/Comparing` has the calls of a read of a partition.
//!
//! A step at a record reads that record's file, which settles the doubt of that record, and lists the directory only where the record alone doesn't
//! tell whether it may go. It puts or unlinks that one file. `specs/Recording` has its calls.
//! What has to be told for a record is the row of what stands under its name, where that is as late: `specs/BaseRows` says which.
//!
//! A read of all records settles every doubt of a record first, by a read of its file, and then walks through all files of records. `specs/Filings` has
//! what it answers, and its calls.
//!
//! The next layer down is `sw_hashdir`, which has the calls of one directory; the next one up is `sw_core`, whose world is made
//! of object directories.
#![tactic(auto)]

mod base_row;
mod changing;
mod comparing;
mod filings;
mod getting;
mod obj_dir;
mod recording;
mod steps;
mod telling;
mod writing;

pub use obj_dir::ObjDir;
