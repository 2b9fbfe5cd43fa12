//! What holds of evaluation, as contracts.

ghost use Rattle.rx_eval.specs.Filling.{FillsRest};
ghost use Rattle.rx_eval.specs.Laws.{ReadsSuffice};
ghost use Rattle.rx_eval.specs.Noting.{NamesSuffice};

/// What the trees of a place come to follows from the values of the variables that they read. What is left at a call, with the
/// answer in its hole, is what is left behind it. The values of the names that code lists suffice.
pub fn evaluation_laws()
    ensures suffice { ReadsSuffice }
    ensures fills { FillsRest }
    ensures names { NamesSuffice }
{}
