/// The kind of a write: an object's data, its deletion, or a later change of its metadata.
#[derive(Clone, Copy, Debug, PartialEq, Eq)]
pub enum Tag {
    Put,
    Del,
    Meta,
}
