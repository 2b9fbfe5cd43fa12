// Operators, brackets, commas and colons.
ghost use Rattle.std.specs.Prelude.{◌≡◌, [], ◌∷◌, option_map, codes};
ghost use Rattle.rx_tree.specs.Marks.{mark_of, opens_comment};
ghost use Rattle.rx_scan.specs.Reader.{short_mark, longest_mark, mark_at};
ghost use Rattle.rx_scan.specs.Read.{MarkRead};

use rx_tree::{Oper, TokenKind};

// The mark of one byte.
#[tactic(auto, unfolding(rx_tree::specs::Marks::mark_of))]
fn mark_of_one(first: u8) -> Option<TokenKind>
    ensures { result ≡ mark_of (first ∷ []) }
{
    match first {
        b'+' => Some(TokenKind::Operator(Oper::Plus)),
        b'-' => Some(TokenKind::Operator(Oper::Minus)),
        b'*' => Some(TokenKind::Operator(Oper::Times)),
        b'/' => Some(TokenKind::Operator(Oper::Divide)),
        b'%' => Some(TokenKind::Operator(Oper::Quotient)),
        b'=' => Some(TokenKind::Operator(Oper::Equal)),
        b'>' => Some(TokenKind::Operator(Oper::Greater)),
        b'<' => Some(TokenKind::Operator(Oper::Less)),
        b'&' => Some(TokenKind::Operator(Oper::And)),
        b'|' => Some(TokenKind::Operator(Oper::Or)),
        b'\\' => Some(TokenKind::Operator(Oper::Not)),
        b'~' => Some(TokenKind::Operator(Oper::Send)),
        b'(' => Some(TokenKind::LeftParen),
        b')' => Some(TokenKind::RightParen),
        b'[' => Some(TokenKind::LeftBracket),
        b']' => Some(TokenKind::RightBracket),
        b',' => Some(TokenKind::Comma),
        b':' => Some(TokenKind::Colon),
        _ => None,
    }
}

// The mark of two bytes.
#[tactic(auto, unfolding(rx_tree::specs::Marks::mark_of))]
fn mark_of_two(first: u8, second: u8) -> Option<TokenKind>
    ensures { result ≡ mark_of (first ∷ (second ∷ [])) }
{
    match (first, second) {
        (b'/', b'/') => Some(TokenKind::Operator(Oper::Remainder)),
        (b'*', b'*') => Some(TokenKind::Operator(Oper::Power)),
        (b'|', b'|') => Some(TokenKind::Operator(Oper::Concat)),
        (b'\\', b'=') => Some(TokenKind::Operator(Oper::NotEqual)),
        (b'<', b'>') => Some(TokenKind::Operator(Oper::NotEqual)),
        (b'>', b'<') => Some(TokenKind::Operator(Oper::NotEqual)),
        (b'>', b'=') => Some(TokenKind::Operator(Oper::GreaterOrEqual)),
        (b'\\', b'<') => Some(TokenKind::Operator(Oper::GreaterOrEqual)),
        (b'<', b'=') => Some(TokenKind::Operator(Oper::LessOrEqual)),
        (b'\\', b'>') => Some(TokenKind::Operator(Oper::LessOrEqual)),
        (b'=', b'=') => Some(TokenKind::Operator(Oper::StrictEqual)),
        (b'>', b'>') => Some(TokenKind::Operator(Oper::StrictGreater)),
        (b'<', b'<') => Some(TokenKind::Operator(Oper::StrictLess)),
        (b'&', b'&') => Some(TokenKind::Operator(Oper::ExclusiveOr)),
        (b'~', b'~') => Some(TokenKind::Operator(Oper::SendBack)),
        (b':', b':') => Some(TokenKind::TwoColons),
        _ => None,
    }
}

// The mark of three bytes.
#[tactic(auto, unfolding(rx_tree::specs::Marks::mark_of))]
fn mark_of_three(first: u8, second: u8, third: u8) -> Option<TokenKind>
    ensures { result ≡ mark_of (first ∷ (second ∷ (third ∷ []))) }
{
    match (first, second, third) {
        (b'\\', b'=', b'=') => Some(TokenKind::Operator(Oper::StrictNotEqual)),
        (b'>', b'>', b'=') => Some(TokenKind::Operator(Oper::StrictGreaterOrEqual)),
        (b'<', b'<', b'=') => Some(TokenKind::Operator(Oper::StrictLessOrEqual)),
        _ => None,
    }
}

/// Whether two bytes begin a comment.
pub fn opens_comment(first: u8, second: u8) -> bool
    ensures { result ≡ opens_comment (first ∷ (second ∷ [])) }
{
    first == b'-' && second == b'-' || first == b'/' && second == b'*'
}

// The longest mark of at most two bytes at the front.
fn mark_of_at_most_two(first: u8, behind: &[u8]) -> Option<(TokenKind, &[u8])>
    ensures { MarkRead result (short_mark first behind.now) }
{
    if let [second, rest @ ..] = behind {
        if let Some(kind) = mark_of_two(first, *second) {
            return Some((kind, rest));
        }
    }
    mark_of_one(first).map(|kind| (kind, behind))
}

// The longest mark at the front.
fn longest_mark(bytes: &[u8]) -> Option<(TokenKind, &[u8])>
    ensures { MarkRead result (longest_mark bytes.now) }
{
    if let [first, second, third, rest @ ..] = bytes {
        if let Some(kind) = mark_of_three(*first, *second, *third) {
            return Some((kind, rest));
        }
    }
    match bytes {
        [first, behind @ ..] => mark_of_at_most_two(*first, behind),
        [] => None,
    }
}

/// The mark at the front of the bytes, and the bytes behind it.
pub fn mark_at(bytes: &[u8]) -> Option<(TokenKind, &[u8])>
    ensures mark { MarkRead result (mark_at bytes.now) }
{
    match bytes {
        [first, second, ..] if opens_comment(*first, *second) => None,
        _ => longest_mark(bytes),
    }
}
