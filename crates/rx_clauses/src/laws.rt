//! What holds of bodies and their tokens, as contracts.

ghost use Rattle.rx_clauses.specs.Laws.{ReaderLaw, AtMostOneFits};

/// A body fits exactly where the reader reads it; and at most one does.
pub fn clause_laws()
    ensures reader { ReaderLaw }
    ensures one { AtMostOneFits }
{}
