//! How much the journal of a container lock holds.

/// How many entries it has at most.
pub(crate) const JOURNAL_ENTRIES: u64 = 262_144;
