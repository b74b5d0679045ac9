//! What a client is shown that lists a container, after any run of the machine (`sw_machine`), put together from the laws of listings and the container
//! server.
//!
//! After an honest, plain and rooted run that began with a machine which was sound with its account (`sw_account_laws`), a reply to a GET of a container that
//! tells of it shows exactly what is asked of the rows of its live objects, by all writes of the account and of the run, where no record of it waits
//! ([`laws`], `specs/Laws.antt`). A machine at which nothing stands is sound with the account of nothing. A container that isn't split is listed at the
//! device, by one step, and one that is by a listing across its shards (`sw_across_laws`). The next layer up, `sw_cluster`, says so of each reply of a session
//! and of each connection.
#![tactic(auto)]

pub mod laws;
