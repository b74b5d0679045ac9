//! What a listing across the shards of a container is of, over the machine (`sw_machine`).
//!
//! A container that is split is listed by its shards, and by what it has itself of the names that it hasn't left to these (`sw_sharded_listing`). Let each of
//! its replicas hold each put and deletion of it that reached any device, and nobody have made up a row of it or of its shards (`specs/Showable.antt`). Then,
//! however far its replicas are split, whichever of them is asked, and whichever replica of each shard, the rows that are read and aren't deleted are those of
//! its live objects. So a listing across is the listing of these, for every query and in both directions ([`laws`], `specs/Laws.antt`).
//!
//! What is asked for so holds after runs: rows that were acknowledged are held, and where points hold no shard is split itself (`sw_point_laws`); only rows of
//! writes come (`sw_listing_laws`). Names of objects have to be text without a byte 0, as those are that requests have. That listings over ranges add up is a
//! law of `sw_shard_listing`. The next layer up, `sw_exact_laws`, says so of what whole runs leave.
#![tactic(auto)]

pub mod laws;
