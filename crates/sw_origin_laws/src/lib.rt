//! Where the rows of a container that is split come from, over runs of the machine (`sw_machine`).
//!
//! The rows of such a container stand at its own replicas and at those of its shards, which are hidden containers: of those the laws of `sw_listing_laws` ask
//! nothing. Here it is said of each place of which container it is a shard, its root (`specs/Roots.antt`), and asked that clients bring to it only rows of
//! writes of that container, that a list of ranges names shards of the container that it is set for, and that no update is for an object of a shard itself.
//! Then in an honest, plain run that began with nothing each row of a container, and of each of its shards, at any device, is that of a put or deletion of an
//! object of the container which reached some device ([`laws`], `specs/Laws.antt`), whatever calls failed, whatever was lost, came twice or was restarted.
//!
//! It rests on what is known of objects in such runs (`sw_listing_laws`), and on honesty: a row goes from a container only to itself, or to a shard that a
//! replica of it leaves the name to. The next layer up, which says what is listed across shards, is `sw_exact_laws`.
#![tactic(auto)]

pub mod laws;
