//! Steps at objects: what each makes of what stands under a name, what it is answered, and what the journal of its lock keeps of it.
//!
//! A step is one [`Change`], and what it is answered an [`Answer`]; a read of a name [`Got`] something, and reads by which replicas are compared are
//! answered by what `specs/Parts` tells. All of it is told by an [`Outline`], which is what the names of a hash's files tell: [`refusal`] and
//! [`made_answer`] say which answer it gives. `specs/Steps` has what a step writes.
//!
//! Beside its state a hash has the records of updates that are filed there. A put or deletion of a client files one, and steps mark and drop them
//! (`specs/Recorded`).
//!
//! `specs/Values` says what stands under a hash, and `specs/Rules` by which rules the steps at it go, in the words of `sw_step`: what each enters, what
//! an entry leaves, what refuses a step, and how its answer ended. `specs/Histories` has what a step that changes or reads an object is by them. So what
//! follows of any rules follows here; [`laws`] has that these are rules.
//!
//! No call of a volume is made here. The next layers up are `sw_peer`, whose doors promise steps in these words, and `sw_objdir`, which makes them.
#![tactic(auto)]

mod answer;
mod change;
mod change_seen;
mod dir_fault;
mod entry;
mod got;
pub mod laws;
mod outline;
mod refusing;
mod stored;

pub use answer::Answer;
pub use change::{Change, StepKind};
pub use change_seen::ChangeSeen;
pub use dir_fault::DirFault;
pub use entry::{Added, Brief, BriefKind, FiledList, ObjEntry};
pub use got::Got;
pub use outline::{Mark, Outline, standing_expiry};
pub use refusing::{made_answer, refusal};
pub use stored::Stored;
