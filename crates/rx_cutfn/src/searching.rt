// The functions that look for a place, and those that compare two texts.
ghost use Rattle.std.specs.Prelude.{◌≡◌};
ghost use Rattle.rx_answers.specs.Answers.{number_answer};
ghost use Rattle.rx_cutfn.specs.Searching.{TellsMembers, compare, is_abbreviation, lastpos, pos, seeks_members, verify};

use crate::answer::before;
use crate::cutting::{byte_behind, rest};
use memchr::memmem;
use rx_answers::{Number, OUT_OF_RANGE};

/// POS: the first place of the needle in the text, at or behind place `from`, which is 1 where it isn't given; 0 where there
/// is none, or where the needle is empty.
///
/// The time is in proportion to the lengths of needle and text, whatever they hold: a needle of at most 32 bytes is compared
/// whole at a place, and a longer one is looked for with the Two-Way search.
///
/// # Errors
///
/// 40 where `from` is 0.
#[tactic(auto, unfolding(crate::specs::Searching::pos))]
pub fn pos(needle: &[u8], text: &[u8], from: Option<u64>) -> Number
    ensures answer { result ≡ number_answer (pos needle.now text.now from) }
{
    let passed = before(from.unwrap_or(1))?;
    if needle.is_empty() {
        return Ok(0);
    }
    match memmem::find(rest(text, passed), needle) {
        Some(at) => Ok(passed + at as u64 + 1),
        None => Ok(0),
    }
}

/// LASTPOS: the last place of the needle in the text, or 0 where there is none, or where the needle is empty. The time is
/// that of POS.
#[tactic(auto, unfolding(crate::specs::Searching::lastpos))]
pub fn lastpos(needle: &[u8], text: &[u8]) -> u64
    ensures place { result ≡ lastpos needle.now text.now }
{
    if needle.is_empty() {
        return 0;
    }
    match memmem::rfind(text, needle) {
        Some(at) => at as u64 + 1,
        None => 0,
    }
}

// Which bytes are among some bytes.
fn members(reference: &[u8]) -> [bool; 256]
    ensures { TellsMembers result reference.now }
{
    let mut members = [false; 256];
    for byte in reference {
        members[*byte as usize] = true;
    }
    members
}

// Whether VERIFY looks for bytes that are in the reference, by its option.
#[tactic(auto, unfolding(crate::specs::Searching::seeks_members))]
fn seeks_members(option: Option<u8>) -> Option<bool>
    ensures { result ≡ seeks_members option }
{
    match option.unwrap_or(b'N').to_ascii_uppercase() {
        b'N' => Some(false),
        b'M' => Some(true),
        _ => None,
    }
}

/// VERIFY: the first place, from place `from` on, of a byte that isn't in the reference, or with the option M of one that is;
/// 0 where there is none. The option is N or M in either case, N where it isn't given, and `from` is 1 where it isn't given.
///
/// # Errors
///
/// 40 where `from` is 0 or the option is another byte.
#[tactic(auto, unfolding(crate::specs::Searching::verify))]
pub fn verify(text: &[u8], reference: &[u8], option: Option<u8>, from: Option<u64>) -> Number
    ensures answer { result ≡ number_answer (verify text.now reference.now option from) }
{
    let Some(wanted) = seeks_members(option) else {
        return Err(OUT_OF_RANGE);
    };
    let passed = before(from.unwrap_or(1))?;
    let members = members(reference);
    for (at, byte) in rest(text, passed).iter().enumerate() {
        if members[*byte as usize] == wanted {
            return Ok(passed + at as u64 + 1);
        }
    }
    Ok(0)
}

/// COMPARE: the first place where the texts differ, the shorter one padded, or 0 where they don't.
#[tactic(auto, unfolding(crate::specs::Searching::compare))]
pub fn compare(a: &[u8], b: &[u8], pad: u8) -> u64
    ensures place { result ≡ compare a.now b.now pad }
{
    for passed in 0..a.len().max(b.len()) {
        if byte_behind(a, passed, pad) != byte_behind(b, passed, pad) {
            return passed as u64 + 1;
        }
    }
    0
}

/// ABBREV: 1 where the text begins with `short`, and `short` has at least `length` bytes, if a length is given; else 0.
#[tactic(auto, unfolding(crate::specs::Searching::is_abbreviation))]
pub fn abbrev(text: &[u8], short: &[u8], length: Option<u64>) -> u64
    ensures abbreviation { result ≡ is_abbreviation text.now short.now length }
{
    let short_length = short.len() as u64;
    u64::from(text.starts_with(short) && length.unwrap_or(short_length) <= short_length)
}
