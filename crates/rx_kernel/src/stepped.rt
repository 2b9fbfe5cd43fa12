// What a step comes to.

/// What a step comes to.
#[derive(Clone, Copy, Debug, PartialEq, Eq)]
pub enum Stepped {
    Done,
    /// It wants a line of input that isn't there, and has changed nothing.
    WantsLine,
}

/// Where a step stands that does something of a clause.
#[derive(Clone, Copy, Debug, PartialEq, Eq)]
pub struct Here {
    /// The line on which the clause begins.
    pub line: u32,
    /// Its place in the code of its body.
    pub at: u32,
    /// The place behind it.
    pub next: u32,
}

/// The clause that a frame does next.
#[derive(Clone, Copy, Debug, PartialEq, Eq)]
pub struct Next {
    pub here: Here,
    /// Its number among the clauses of its body that are kept.
    pub number: u32,
}
