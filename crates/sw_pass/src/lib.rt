//! What a pass of a daemon came to, and how it is counted.
//!
//! An [`Outcome`] tells whether a pass is done, how many answers were lost, the first answer that hindered it, a [`Hindrance`], and how much is left.
//! `specs/Outcomes` has what each event counts for. [`devices_of`] tells which devices keep a container.
//!
//! The next layers up are the passes themselves, `sw_replicator`, `sw_cont_replicator`, `sw_updater` and `sw_cleave`: each promises that a pass which isn't
//! done says why.
#![tactic(auto)]

mod hindrance;
mod missing;
mod outcome;
mod replicas;

pub use hindrance::{Hindrance, is_acknowledged};
pub use missing::miss;
pub use outcome::Outcome;
pub use replicas::{devices_of, is_place, replicas_of};
