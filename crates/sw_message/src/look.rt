/// What one look at bytes finds in front of them.
pub enum Look<T> {
    /// What was looked for.
    Whole(T),
    /// Nothing so far.
    NotYet,
    /// Nothing, whatever follows.
    Never,
}
