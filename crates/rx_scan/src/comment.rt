// Blanks, comments and dropped carriage returns.
ghost use Rattle.std.specs.Prelude.{◌≡◌, ◌≤◌, ◌∷◌, ℕ, [], length, MatchOption, option_map};
ghost use Rattle.rx_tree.specs.Letters.{is_feed, begins};
ghost use Rattle.rx_tree.specs.Comments.{is_opening, is_closing};
ghost use Rattle.rx_scan.specs.Reader.{close_from, line_rest, comment_at, space_at};
ghost use Rattle.rx_scan.specs.Read.{SpaceRead, rest_of};

use crate::piece::Piece;
use memchr::{memchr, memchr2};
use rx_text::is_blank;

fn is_opening(first: u8, second: u8) -> bool
    ensures { result ≡ is_opening first second }
{
    first == b'/' && second == b'*'
}

fn is_closing(first: u8, second: u8) -> bool
    ensures { result ≡ is_closing first second }
{
    first == b'*' && second == b'/'
}

// The first of some bytes, and the others.
fn split_first(bytes: &[u8]) -> Option<(u8, &[u8])>
    ensures { MatchOption result (bytes.now ≡ []) (λ split. bytes.now ≡ split.0 ∷ split.1.now) }
{
    match bytes {
        [first, others @ ..] => Some((*first, others)),
        [] => None,
    }
}

// The bytes from the first on that may begin a mark of a comment.
fn from_mark(bytes: &[u8]) -> &[u8]
    ensures same { (n : ℕ) → close_from n result.now ≡ close_from n bytes.now }
    ensures within { length result.now ≤ length bytes.now }
{
    match memchr2(b'*', b'/', bytes) {
        Some(at) => &bytes[at..],
        None => &[],
    }
}

// What stands behind the comment whose opening mark was read.
fn close(bytes: &[u8]) -> Option<&[u8]>
    ensures { rest_of result ≡ close_from 0 bytes.now }
{
    let mut depth = 0usize;
    let mut rest = bytes;
    while let Some((first, more)) = split_first(from_mark(rest)) {
        let Some((second, behind)) = split_first(more) else {
            return None;
        };
        if is_closing(first, second) {
            if depth == 0 {
                return Some(behind);
            }
            depth -= 1;
            rest = behind;
        } else if is_opening(first, second) {
            depth += 1;
            rest = behind;
        } else {
            rest = more;
        }
    }
    None
}

// The bytes from the end of the line on.
fn line_rest(bytes: &[u8]) -> &[u8]
    ensures { result.now ≡ line_rest bytes.now }
{
    match memchr(b'\n', bytes) {
        Some(at) => &bytes[at..],
        None => &[],
    }
}

// A comment at the front, or none.
fn comment_at(bytes: &[u8]) -> Option<&[u8]>
    ensures { rest_of result ≡ comment_at bytes.now }
{
    match bytes {
        [b'/', b'*', behind @ ..] => close(behind),
        [b'-', b'-', behind @ ..] => Some(line_rest(behind)),
        _ => None,
    }
}

/// A blank, or what counts as nothing, at the front of the bytes, and the bytes behind it.
pub fn space_at(bytes: &[u8]) -> Option<(Piece, &[u8])>
    ensures space { SpaceRead result (space_at bytes.now) }
{
    match bytes {
        [first, behind @ ..] if is_blank(*first) => Some((Piece::Blank, behind)),
        [b'\r', behind @ ..] if matches!(behind, [b'\n', ..]) => Some((Piece::Nothing, behind)),
        _ => comment_at(bytes).map(|rest| (Piece::Nothing, rest)),
    }
}

/// The bytes behind a blank, or what counts as nothing, at the front.
pub fn behind_space(bytes: &[u8]) -> Option<&[u8]>
    ensures rest { rest_of result ≡ option_map (λ read. read.1) (space_at bytes.now) }
{
    match space_at(bytes) {
        Some((_, rest)) => Some(rest),
        None => None,
    }
}
