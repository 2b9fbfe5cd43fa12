// The operators on logical values.
ghost use Rattle.std.specs.Prelude.{◌≡◌, not, Result, ℕ, Bool};
ghost use Rattle.rx_operators.specs.Operators as spec;

use crate::family::Connective;

/// The error of a logical value that is neither 0 nor 1.
pub const NOT_LOGICAL: u8 = 34;

/// The logical value that a text is.
///
/// # Errors
///
/// 34 where it is neither `0` nor `1`.
pub fn logical(text: &[u8]) -> Result<bool, u8>
    ensures value { result ≡ spec.logical text.now }
{
    if text == b"1".as_slice() {
        Ok(true)
    } else if text == b"0".as_slice() {
        Ok(false)
    } else {
        Err(NOT_LOGICAL)
    }
}

// What an operator gives for two logical values.
fn connect(connective: Connective, a: bool, b: bool) -> bool
    ensures { result ≡ spec.connected connective a b }
{
    match connective {
        Connective::And => a && b,
        Connective::Or => a || b,
        Connective::ExclusiveOr => a != b,
    }
}

/// What an operator gives for two texts, which have to be logical values.
pub(crate) fn connected(connective: Connective, a: &[u8], b: &[u8]) -> Result<bool, u8>
    ensures { result ≡ spec.logic connective (spec.logical a.now) (spec.logical b.now) }
{
    let a = logical(a)?;
    let b = logical(b)?;
    Ok(connect(connective, a, b))
}

/// The other logical value.
pub(crate) fn negated(a: &[u8]) -> Result<bool, u8>
    ensures { result ≡ spec.negated (spec.logical a.now) }
{
    match logical(a) {
        Ok(a) => Ok(!a),
        Err(error) => Err(error),
    }
}
