//! What a reply to a write says of what stands from then on.
//!
//! A client that was told 201, 202 or 204 knows that its write was made, and one that was told 409 that what stands is at least as late: that is
//! `specs/Objects.antt` and `specs/Containers.antt`. It holds of what the device stands for behind the step, and of what it stands for behind any run of the
//! machine (`sw_machine`) from there on, whatever calls fail, and whatever comes or is restarted ([`laws`]).
#![tactic(auto)]

pub mod laws;
