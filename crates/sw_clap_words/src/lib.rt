//! The words of the command line, read by `clap` beside `sw_words`.
//!
//! [`read_serve`] answers what `serve_options` says, and no less is promised of it. `clap` then reads the same words by a description of its own, so that
//! a misreading of the grammar would be seen from outside: where it reads something else, nothing is answered.
#![tactic(auto)]

mod reading;

pub use reading::read_serve;
