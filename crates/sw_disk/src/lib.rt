//! A disk: what the volume of a node that serves asks of its host, as a trait whose contract says what is left after a crash; and that volume.
//!
//! A [`Disk`] has folders, and files at names of these. Contracts see what stands there at each moment, and what a crash may leave of it: a file, and a name
//! of a folder, is left for sure once it was synced. A [`DiskVolume`] is a volume over a disk. What it acknowledged is there after each crash, and what it was
//! at is there whole or not at all.
//!
//! What this comes to over any number of starts, calls, kills and crashes, one after the other, is said in [`laws`]: a crash leaves a disk on which a start may
//! follow, and what was acknowledged on it.
#![tactic(auto)]

mod change;
mod disk;
mod disk_log;
pub mod laws;
mod mem_disk;
mod names;
mod opening;
mod paths;
mod places;
mod volume;
mod writing;

pub use change::Change;
pub use disk::{Disk, Standing};
pub use mem_disk::MemDisk;
pub use places::{is_directory, is_place};
pub use volume::DiskVolume;
