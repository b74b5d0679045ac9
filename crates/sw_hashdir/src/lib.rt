//! One hash directory over any volume: where it is, what it stands for, and the calls that a step makes there. Beside it, a listing of
//! the files of all of them: [`paths_below`], or [`add_paths_below`] where those of several volumes are one list of [`Paths`].
//!
//! The files of an object's writes stand in the directory of its hash. [`dir_of`] gives its path, [`look`] lists it, [`read_write`] reads the
//! write of a file, and [`write_file`] puts the file of a new write and unlinks what it makes obsolete. What no name of a file tells is read
//! from the files that the listing picks: [`read_expiry`] gives the second at which the object expires, and [`show`] the object.
//!
//! What nodes compare of a partition is read from listings alone: [`hashes_of`] gives what is compared of each of its suffixes, and [`lines_of`]
//! the files that count of each hash of one. [`read_stored`] reads the file of a write with the name that it is of.
//!
//! What a hash stands for is the state of the writes in its directory: `specs/Places` has it as a function of a volume's files, and the
//! contracts say what each call makes of it, for this hash and for all others. What is read is said twice: by what stands in the files
//! (`specs/Readings`), and, where all is in order, by that state.
//!
//! There is no journal here and nothing is remembered between two calls. The next layer up is `sw_objdir`, whose steps are made of these.
#![tactic(auto)]

mod comparing;
mod expiry;
mod folder;
pub mod laws;
mod listing;
mod paths;
mod place;
mod reading;
mod showing;
mod walk;
mod writing;

pub use comparing::{hashes_of, lines_of};
pub use expiry::read_expiry;
pub use listing::{Seen, look};
pub use paths::Paths;
pub use place::dir_of;
pub use reading::{ReadFault, read_stored, read_write};
pub use showing::show;
pub use walk::{add_paths_below, paths_below};
pub use writing::write_file;
