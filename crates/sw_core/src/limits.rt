//! How much the journal of an object lock holds.

/// How many entries it has at most.
pub(crate) const JOURNAL_ENTRIES: u64 = 262_144;
