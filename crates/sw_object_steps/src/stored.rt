use sw_hashpath::Name;
use sw_state::Write;

/// A write as a device keeps it: with the name that it is of.
#[derive(Debug, Drop)]
pub struct Stored {
    pub name: Name,
    pub write: Write,
}
