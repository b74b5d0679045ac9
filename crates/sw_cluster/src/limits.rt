//! How many bytes the bodies in the journal of an object lock have at most, together, by the command. Journals keep no bodies: what is bounded is what a
//! session writes before its locks begin anew.

/// Where a journal lasts as long as the session.
pub(crate) const RUN_BYTES: u64 = 33_554_432;

/// Where it begins anew with each connection: as many as its entries can have, each the greatest size of an object.
pub(crate) const SERVE_BYTES: u64 = 262_144 * 5_242_880;
