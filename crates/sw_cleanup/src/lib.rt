//! Taking away what a hash directory no longer needs.
//!
//! Each write of an object leaves a file, and most of them are superseded sooner or later. [`obsolete`] names those that
//! are, which are exactly those that `sw_diskfile` doesn't pick, and [`cleanup`] unlinks them. An obsolete file adds nothing to
//! the state that its directory stands for, so an unlink that fails, or that is never reached, changes no answer.
//!
//! What a directory stands for is said for every way in which the bytes of a file are read as a write; `sw_metafile` gives
//! the real one.
#![tactic(auto)]

mod cleaning;
pub mod laws;
mod names;
mod obsolete_files;
mod unlinks;

pub use cleaning::cleanup;
pub use names::names_of_writes;
pub use obsolete_files::obsolete;
pub use unlinks::unlink_each;
