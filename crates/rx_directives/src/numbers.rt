// The numbers of the errors that directives are refused by, as the Rexx reference has them.

/// A string or a symbol is missing.
pub const NO_NAME: u8 = 19;
/// What isn't said of such a directive, or was said before.
pub const NO_OPTION: u8 = 25;
/// A directive that is none of the language, or a clause where none may stand.
pub const NO_DIRECTIVE: u8 = 99;
