//! What holds of directives and their tokens, as contracts.

ghost use Rattle.rx_directives.specs.Laws.{ReaderLaw, AtMostOneFits};

/// Directives fit exactly where the reader reads them; and at most one list of them does.
pub fn directive_laws()
    ensures reader { ReaderLaw }
    ensures one { AtMostOneFits }
{}
