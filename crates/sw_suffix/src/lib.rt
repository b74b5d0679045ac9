//! What two nodes compare before one sends files to the other.
//!
//! A suffix directory has the directories of many hashes. Its text has a line for each file that counts in them, and nodes whose texts have one
//! MD5 send nothing of it. [`suffix_hash`] gives that MD5 from the lines in order, and takes no memory. A text leaves no choice of the files: two
//! lists of lines that have one text are one list, where each is in order and has no line without files.
//!
//! A [`DirLine`] says what counts in the directory of a hash, and a [`SuffixHash`] what a node tells of a suffix. The next layers up are
//! `sw_object_steps`, by whose reads nodes tell them, and `sw_hashdir`, which makes them of files.
#![tactic(auto)]

mod dir_line;
mod hashing;
pub mod laws;
mod told;

pub use dir_line::DirLine;
pub use hashing::suffix_hash;
pub use told::SuffixHash;
