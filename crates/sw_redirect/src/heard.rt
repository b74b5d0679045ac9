ghost use Rattle.std.specs.Prelude.{◌≡◌};
ghost use Rattle.sw_redirect.specs.Hearing.{heard_of};

use sw_container_steps::ContAnswer;
use sw_hashpath::Place;
use sw_pass::Hindrance;
use sw_shard_range::is_hidden;

/// What the answer to a row comes to.
#[derive(Debug, Drop)]
pub enum Heard {
    /// The device has the row, or one of its name that counts at least as much.
    Acknowledged,
    /// The device has left the name of the row to this shard.
    Redirected(Place),
    /// It has done neither. How that hinders; `None` for want of memory, which ends a pass.
    Refused(Option<Hindrance>),
}

impl Heard {
    /// What this answer of the container of a place comes to. A hidden container, as each shard is, leaves no name to another one: that is a conflict.
    pub fn of(place: &Place, answer: ContAnswer) -> Heard
        ensures { result ≡ heard_of place.now answer }
    {
        match answer {
            ContAnswer::New(_) => Heard::Acknowledged,
            ContAnswer::There(_) => Heard::Acknowledged,
            ContAnswer::Done(_) => Heard::Acknowledged,
            ContAnswer::Redirect(shard) => {
                if is_hidden(place) {
                    Heard::Refused(Some(Hindrance::Conflict))
                } else {
                    Heard::Redirected(shard)
                }
            }
            ContAnswer::Absent => Heard::Refused(Some(Hindrance::Missing)),
            ContAnswer::NoRanges => Heard::Refused(Some(Hindrance::Missing)),
            ContAnswer::Stale(_) => Heard::Refused(Some(Hindrance::Conflict)),
            ContAnswer::NotEmpty(_) => Heard::Refused(Some(Hindrance::Conflict)),
            ContAnswer::HasRanges => Heard::Refused(Some(Hindrance::Conflict)),
            ContAnswer::StillOpen(_) => Heard::Refused(Some(Hindrance::Conflict)),
            ContAnswer::Later(_) => Heard::Refused(Some(Hindrance::Conflict)),
            ContAnswer::NotAcked(_) => Heard::Refused(Some(Hindrance::Conflict)),
            ContAnswer::JournalFull => Heard::Refused(Some(Hindrance::JournalFull)),
            ContAnswer::Failed => Heard::Refused(Some(Hindrance::Failed)),
            ContAnswer::NoMemory => Heard::Refused(None),
        }
    }
}
