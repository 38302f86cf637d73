/// A kind of change of a path, by whether something was there before and whether something is there afterwards.
#[derive(Clone, Copy, Debug, PartialEq, Eq)]
pub enum Verb {
    /// Nothing was there.
    Create,
    /// Something was there and is there, with other contents.
    Update,
    /// Nothing is left.
    Delete,
}
