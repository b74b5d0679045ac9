use sw_object_steps::Change;

/// What a request asks for at its name.
#[derive(Debug, Drop)]
pub(crate) enum Verdict {
    /// Nothing: it is refused with this status.
    Refused(u16),
    /// The object is to be changed so.
    Change(Change),
    /// The object is to be read, for its head alone or with its body.
    Read { head_only: bool },
}
