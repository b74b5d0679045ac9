//! Steps at containers are changes of a ledger.
//!
//! A ledger (`sw_shard_laws`) goes on by single changes, each with tests of its own, and loses no row while a container is split. Here each step at a
//! container (`sw_container_steps`) that isn't refused is such changes, one for each of its entries, and passes the ledger's tests
//! (`specs/Tables.antt`, [`laws`]). What its callers see to, of what other devices have, isn't shown here.
#![tactic(auto)]

pub mod laws;
