//! Tests of the base and of the crates of files over their public calls: the outside, times, states, names and rings; where files are kept, also between
//! starts, how they and records of updates are named, written and kept, which of them are taken away, where they all are, and what nodes compare of them; and
//! values that no command uses yet, the names of the expirer's queue and the jobs of a load. What the contracts say is proved for every input, so these show
//! what no contract can: that the worked values are the ones that were meant, or those that another program makes, that a call succeeds while there is memory,
//! that the unlinks of a clean-up come in byte order, that what was acknowledged is read back from what a crash leaves of a disk, and that generic code works
//! at the readers, writers and clocks of std, at both volumes in memory and at a disk in memory.
#![tactic(auto)]

#[cfg(test)]
mod cleanup;
#[cfg(test)]
mod crashes;
#[cfg(test)]
mod disk;
#[cfg(test)]
mod diskfile;
#[cfg(test)]
mod expiry;
#[cfg(test)]
mod fixtures;
#[cfg(test)]
mod hashpath;
#[cfg(test)]
mod jobs;
#[cfg(test)]
mod mem_disk;
#[cfg(test)]
mod metafile;
#[cfg(test)]
mod outside;
#[cfg(test)]
mod pending;
#[cfg(test)]
mod pending_dir;
#[cfg(test)]
mod ring;
#[cfg(test)]
mod state;
#[cfg(test)]
mod stores;
#[cfg(test)]
mod suffix;
#[cfg(test)]
mod timestamp;
#[cfg(test)]
mod volume;
#[cfg(test)]
mod walk;
