//! What holds of expressions and their tokens, as contracts.

ghost use Rattle.rx_exprs.specs.Laws.{ReaderLaw, AtMostOneFits, StandsInFront};

/// An expression fits exactly where the reader reads it; at most one does; and it takes tokens in front of the rest.
pub fn expression_laws()
    ensures reader { ReaderLaw }
    ensures one { AtMostOneFits }
    ensures front { StandsInFront }
{}
