//! Control requests: what those whose path begins with `/.swc/` ask for, and the texts of their replies.
//!
//! [`is_control`] tells them from the requests of the nodes, and [`read_control`] says what one asks for: a method and words in a table,
//! which is `specs/Asking.antt`, and nothing else but a refusal. Of passes alone the fields are read as well (`specs/Passes.antt`): of a
//! [`Replication`], the push of a partition, of a [`RowPush`], that of the rows of a container, and of an [`Update`] of what records are for;
//! and of the passes that cut a container into shards (`specs/ShardRequests.antt`): of a [`ShardCreation`], and of a [`Cleaving`]. A
//! [`ShardsRead`] shows how far they have come.
//! The texts are functions of what the cluster tells: [`trail_text`] of the lines of its steps (`specs/TrailText.antt`), [`files_text`] of the
//! files of a device, [`pending_text`] of its records (`specs/PendingText.antt`), [`shards_text`] of the shard ranges of a container
//! (`specs/ShardsText.antt`), [`outcome_text`] of what a pass came to (`specs/OutcomeText.antt`); [`text_reply`] makes the reply of a text.
//!
//! Nothing here knows the nodes: the next layer up is `sw_nodes`, which does what is asked for.
#![tactic(auto)]

mod asking;
mod cleaving;
mod containers;
pub mod laws;
mod outcomes;
mod pending_lines;
mod pushing;
mod replication;
mod row_push;
mod shard_creation;
mod shard_lines;
mod shards_read;
mod texts;
mod trail_lines;
mod update;

pub use asking::{Control, is_control, read_control};
pub use cleaving::Cleaving;
pub use outcomes::outcome_text;
pub use pending_lines::pending_text;
pub use replication::Replication;
pub use row_push::RowPush;
pub use shard_creation::ShardCreation;
pub use shard_lines::shards_text;
pub use shards_read::ShardsRead;
pub use texts::{files_text, text_reply};
pub use trail_lines::trail_text;
pub use update::Update;
