// What is found at a place of code.

/// A clause that is next. The places are those where the code goes on.
#[derive(Clone, Copy)]
pub struct Found {
    /// The place where it stands.
    pub at: u32,
    /// Its number among the clauses that are kept.
    pub number: u32,
    /// Behind a clause that holds no other; at the clauses of a group or of OTHERWISE; where a test holds; at the turn of a
    /// loop that is begun.
    pub next: u32,
    /// Where a test fails.
    pub otherwise: u32,
}

/// The turn of a loop.
#[derive(Clone, Copy)]
pub struct Turn {
    /// The number of the loop among the clauses that are kept.
    pub number: u32,
    /// The place of its clauses.
    pub body: u32,
    /// The place behind the loop.
    pub end: u32,
}

/// A loop that LEAVE or ITERATE means.
#[derive(Clone, Copy)]
pub struct FoundLoop {
    /// How many loops are around it.
    pub around: usize,
    /// The place of its turn.
    pub turn: u32,
    /// The place behind it.
    pub end: u32,
}
