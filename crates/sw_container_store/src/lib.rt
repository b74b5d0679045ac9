//! Where a container node keeps the tables of its containers on the host: one SQLite database for each container.
//!
//! [`ContainerStore`] is a keeper (`sw_keeper::Keeper`) over databases: it reads tables out of them and makes each batch one transaction. What it asks of a
//! database is a [`Command`] or a [`Query`], each of which is one statement of SQL. [`HostDatabases`] opens them over the files of the host, at the paths
//! where OpenStack Swift keeps a container's; its databases are connections of `sqlite`. What SQLite promises of a database (that a transaction is made whole
//! or not at all, also over a crash) is trusted; which statements are asked of it, and how its rows are read, is proved.
//!
//! The next layer up is `sw_store`, whose stores start such a keeper beside the volume of each lock; `sw serve` is what asks it.
#![tactic(auto)]

mod container_store;
mod database;
mod host_databases;
mod open_list;
mod reading;
mod reading_ranges;
mod sql_database;
mod statements;
mod writing;

pub use container_store::ContainerStore;
pub use database::{Damage, Database, Databases};
pub use host_databases::HostDatabases;
pub use sql_database::SqlDatabase;
pub use statements::{Command, Query, SCHEMA, UPGRADE_1, UPGRADE_2};
