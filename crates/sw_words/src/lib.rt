//! The words of the command line: what those of `serve` ask for.
//!
//! [`serve_options`] is exact in both directions: it takes the words of `serve`, as `specs/Serve` has them, and no others. Which of the options that
//! can be written are offered stands in one place, `is_offered`.
#![tactic(auto)]

pub mod laws;
mod number;
mod serve;

pub use serve::{ServeOptions, is_plain, serve_options};
