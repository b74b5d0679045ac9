//! Accounts of the machine (`sw_machine`): all writes that ever reached its devices, over any number of runs, and what holds of a machine with its account.
//!
//! A run needn't begin with nothing. Whatever stands at the nodes as it begins, there may be an account of it: which writes reached each device, and which of
//! them clients asked for. With that account the machine is sound ([`laws`], `specs/Sound.antt`) where each hash directory stands for its writes, each row of
//! a container, and of its shards, is that of one of them, each put and deletion is held by each replica of its container or has a record that waits, points
//! tell truly what other devices have, and ranges lead to shards of their own container. Where nothing stands, it is sound with the account of nothing. An
//! honest, plain and rooted run takes each account to one with the writes that its steps made known, also those that failed and were made, and the machine is
//! sound with that, whatever failed, was lost, came again or was restarted. So it goes on from session to session, over nodes that hold what was left.
//!
//! And after such a run a listing across shards (`sw_across_laws`) lists exactly the live objects, by the writes of the account and of the run, where no record
//! of the container waits. The next layer up, `sw_listing_reply_laws`, says so of what the container server replies.
#![tactic(auto)]

pub mod laws;
