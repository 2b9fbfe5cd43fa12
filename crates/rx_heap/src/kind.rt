// Kinds of objects.

/// What an object holds besides its variables.
#[derive(Clone, Copy, Debug, PartialEq, Eq)]
pub enum Kind {
    /// Nothing.
    Plain,
    /// It is a class.
    ClassObject,
    Array,
    Queue,
    Directory,
    Message,
}
