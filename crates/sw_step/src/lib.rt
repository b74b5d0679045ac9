//! One step at a lock, whatever the lock keeps.
//!
//! All that differs between the steps at objects and those at containers is a value, their rules: the key of an entry, what an entry leaves, which steps are
//! refused, what a step enters, by which single changes it is made, and how an answer ended. Over any rules `specs/` says once what stands under a key, how
//! doubts are settled, and what a step that changes something (`StepChanges`) or reads (`StepReads`) promises: which answer comes exactly when, what was
//! entered, and what is left in doubt. [`laws`] has what follows of any rules: a step keeps what the journal tells of its own key and of all others, also
//! where it failed, and a lock in order can end a step in each way.
//!
//! Histories themselves are those of `sw_history`. The next layers up have the rules: `sw_container_steps` those of containers, in which container locks
//! and the doors to containers promise their steps, and `sw_object_steps` those of objects, in which the locks of objects (`sw_objdir`) do.
#![tactic(auto)]

pub mod laws;
