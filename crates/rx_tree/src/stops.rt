// Where expressions end.

/// The words that end an expression of a clause, outside its brackets.
#[derive(Clone, Copy, Debug, PartialEq, Eq)]
pub enum Stops {
    /// None.
    Nothing,
    /// `THEN`, in IF and WHEN.
    Then,
    /// `TO`, `BY`, `FOR`, `WHILE` and `UNTIL`, in DO and LOOP.
    Loop,
    /// `WITH`, in PARSE VALUE.
    With,
    /// `DESCRIPTION` and `RETURN`, in RAISE.
    Raise,
}
