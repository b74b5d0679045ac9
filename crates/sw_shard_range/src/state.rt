//! How far a shard range has come, as OpenStack Swift numbers it. Some of the states are those of a shard that is made, some those of one that is cut
//! or given up itself.

/// A range that was found among the rows; its shard isn't there yet.
pub const FOUND: u8 = 10;

/// The shard is there, and has no rows yet.
pub const CREATED: u8 = 20;

/// The shard has the rows of its range.
pub const CLEAVED: u8 = 30;

/// The shard takes part in listings and updates.
pub const ACTIVE: u8 = 40;

/// The shard's rows go to another shard, which takes its range.
pub const SHRINKING: u8 = 50;

/// The shard is cut into shards of its own.
pub const SHARDING: u8 = 60;

/// Shards of its own have all rows of the shard.
pub const SHARDED: u8 = 70;

/// Another shard has all rows of the shard.
pub const SHRUNK: u8 = 80;
