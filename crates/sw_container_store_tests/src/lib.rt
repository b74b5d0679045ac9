//! Tests of containers' databases, over real ones below the host's own folder for such: where a container's stands, that what was put is found by a keeper
//! that is opened later, that a number isn't given out again, how many databases are open, that nothing is put into one that is gone, and what becomes of sync
//! points and of shard ranges, and of a database from before there were any.
#![tactic(auto)]

#[cfg(test)]
mod folders;
#[cfg(test)]
mod gone;
#[cfg(test)]
mod host;
#[cfg(test)]
mod kinds;
#[cfg(test)]
mod many;
#[cfg(test)]
mod ranges;
#[cfg(test)]
mod syncs;
