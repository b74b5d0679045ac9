//! Tests of containers' rows, keepers, listings, steps and locks over their public calls. What the contracts say is proved for every
//! input, so these show what no contract can: that the worked values are the ones that were meant, and that a call succeeds
//! while there is memory.
#![tactic(auto)]

#[cfg(test)]
mod all_locks;
#[cfg(test)]
mod doubts;
#[cfg(test)]
mod keeper;
#[cfg(test)]
mod listing;
#[cfg(test)]
mod loads;
#[cfg(test)]
mod locks;
#[cfg(test)]
mod making;
#[cfg(test)]
mod many;
#[cfg(test)]
mod ranges;
#[cfg(test)]
mod rows;
#[cfg(test)]
mod shard_ranges;
#[cfg(test)]
mod steps;
#[cfg(test)]
mod syncs;
