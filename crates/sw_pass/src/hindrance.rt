ghost use Rattle.std.specs.Prelude.{◌≡◌};
ghost use Rattle.sw_pass.specs.Outcomes.{answer_hindrance, cont_hindrance, fault_hindrance, is_acknowledged as is_acknowledged_by, status_of};

use sw_container_steps::ContAnswer;
use sw_object_steps::{Answer, DirFault};

/// An answer that hindered a pass.
#[derive(Clone, Copy, Debug, PartialEq, Eq)]
pub enum Hindrance {
    /// What the pass asked for isn't there any more.
    Missing,
    /// What stands refuses it.
    Conflict,
    /// A journal has no room.
    JournalFull,
    /// A call of a volume or a keeper failed, or a file is damaged.
    Failed,
}

impl Hindrance {
    /// The status of HTTP by which an outcome tells it.
    pub fn status(&self) -> u16
        ensures { result ≡ status_of self.now }
    {
        match self {
            Hindrance::Missing => 404,
            Hindrance::Conflict => 409,
            Hindrance::JournalFull => 503,
            Hindrance::Failed => 507,
        }
    }

    /// How a read of a partition that gave nothing hinders. `None` for want of memory, which ends a pass.
    pub fn of_fault(fault: &DirFault) -> Option<Hindrance>
        ensures { result ≡ fault_hindrance fault.now }
    {
        match fault {
            DirFault::Damaged(_) => Some(Hindrance::Failed),
            DirFault::Failed => Some(Hindrance::Failed),
            DirFault::NoMemory => None,
        }
    }

    /// How the answer of a transfer hinders. `None` for want of memory, and for the answers that acknowledge it.
    pub fn of_answer(answer: &Answer) -> Option<Hindrance>
        ensures { result ≡ answer_hindrance answer.now }
    {
        match answer {
            Answer::JournalFull => Some(Hindrance::JournalFull),
            Answer::Damaged(_) => Some(Hindrance::Failed),
            Answer::Failed => Some(Hindrance::Failed),
            Answer::NotFound(_) => Some(Hindrance::Missing),
            Answer::Mismatch(_) => Some(Hindrance::Missing),
            Answer::Exists => Some(Hindrance::Missing),
            Answer::Done(_) => None,
            Answer::Buried(_) => None,
            Answer::Took(_) => None,
            Answer::Conflict(_) => None,
            Answer::NoMemory => None,
        }
    }

    /// How the answer of a step at a container hinders, or of a read that gave nothing. `None` for want of memory, which ends a pass, and for the
    /// answers that acknowledge the step.
    pub fn of_container_answer(answer: &ContAnswer) -> Option<Hindrance>
        ensures { result ≡ cont_hindrance answer.now }
    {
        match answer {
            ContAnswer::New(_) => None,
            ContAnswer::There(_) => None,
            ContAnswer::Done(_) => None,
            ContAnswer::Absent => Some(Hindrance::Missing),
            ContAnswer::Stale(_) => Some(Hindrance::Conflict),
            ContAnswer::NotEmpty(_) => Some(Hindrance::Conflict),
            ContAnswer::HasRanges => Some(Hindrance::Conflict),
            ContAnswer::NoRanges => Some(Hindrance::Missing),
            ContAnswer::Redirect(_) => Some(Hindrance::Conflict),
            ContAnswer::StillOpen(_) => Some(Hindrance::Conflict),
            ContAnswer::Later(_) => Some(Hindrance::Conflict),
            ContAnswer::NotAcked(_) => Some(Hindrance::Conflict),
            ContAnswer::JournalFull => Some(Hindrance::JournalFull),
            ContAnswer::Failed => Some(Hindrance::Failed),
            ContAnswer::NoMemory => None,
        }
    }
}

/// Whether a step at a container was made, or had nothing to change.
pub fn is_acknowledged(answer: &ContAnswer) -> bool
    ensures { result ≡ is_acknowledged_by answer.now }
{
    matches!(
        answer,
        ContAnswer::New(_) | ContAnswer::There(_) | ContAnswer::Done(_)
    )
}
