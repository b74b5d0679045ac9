//! What the replicas of a container hold, after any run of the machine (`sw_machine`): also where containers are split into shards.
//!
//! Where no record of a container waits, each of its replicas holds each put and deletion of the container that reached any device: it has its row, or one
//! of its name that counts at least as much, or it leaves the name to a shard, each replica of which has such a row ([`laws`], `specs/Laws.antt`). It rests
//! on two laws. By the ledger of `sw_pending_laws`, each device of a container was told of each write that a client asked for, or a record waits; its tables
//! here are the rows that count as acknowledged, and nothing else. And by `sw_point_laws` what counts as acknowledged is held from then on.
//!
//! So the laws of `sw_listing_laws` speak of replicas that keep all, and this one of all replicas. The next layer up, which says what is listed across shards,
//! is `sw_exact_laws`.
#![tactic(auto)]

pub mod laws;
