// The numbers of the errors that clauses are refused by, as the Rexx reference has them.

/// A SELECT without WHEN, or something else in place of WHEN, OTHERWISE or END.
pub const NO_WHEN: u8 = 7;
/// THEN or ELSE where none belongs.
pub const STRAY_THEN: u8 = 8;
/// WHEN or OTHERWISE where none belongs.
pub const STRAY_WHEN: u8 = 9;
/// END where none belongs, or of another variable.
pub const STRAY_END: u8 = 10;
/// More blocks inside one another than may be.
pub const TOO_DEEP: u8 = 11;
/// A block, or an IF, that the body ends in.
pub const INCOMPLETE: u8 = 14;
/// PROCEDURE that isn't directly behind a label.
pub const STRAY_PROCEDURE: u8 = 17;
/// THEN is missing.
pub const NO_THEN: u8 = 18;
/// A string or a symbol is missing.
pub const NO_NAME: u8 = 19;
/// A symbol is missing.
pub const NO_SYMBOL: u8 = 20;
/// Something stands behind what should end the clause.
pub const NO_END: u8 = 21;
/// TRACE with another setting.
pub const NO_SETTING: u8 = 24;
/// A word is missing, or one stands twice.
pub const NO_WORD: u8 = 25;
/// A number is missing.
pub const NO_NUMBER: u8 = 26;
/// What DO or LOOP begins with.
pub const BAD_HEADER: u8 = 27;
/// LEAVE or ITERATE outside the loop that it means.
pub const NO_LOOP: u8 = 28;
/// A variable that begins with a digit or a period.
pub const NO_VARIABLE: u8 = 31;
/// An operand is missing, or the clause is none of the language.
pub const NO_OPERAND: u8 = 35;
/// A bracket isn't closed.
pub const UNCLOSED: u8 = 36;
/// A template that is none.
pub const BAD_TEMPLATE: u8 = 38;
/// A label inside a block.
pub const STRAY_LABEL: u8 = 47;
/// EXPOSE that isn't first in its body.
pub const STRAY_EXPOSE: u8 = 99;
