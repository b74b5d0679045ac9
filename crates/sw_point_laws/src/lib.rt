//! What points say, and what replicas hold, after any honest run of the machine (`sw_machine`).
//!
//! In an honest run a node keeps that another device has rows only where that one acknowledged each of them, sets shard ranges only once their shards are
//! made, and closes one only by all devices of its shard: that is `specs/Honest.antt` of `sw_machine`. Then each step at a container makes changes that the
//! ledger of `sw_shard_laws` allows, whatever calls failed, whatever was lost, came twice or was restarted. So points say truly what others have, and what a
//! replica holds it holds from then on ([`laws`], `specs/Laws.antt`).
#![tactic(auto)]

pub mod laws;
