// How deep brackets stand in one another.
ghost use Rattle.std.specs.Prelude.{◌≡◌, ◌<◌, ◌^◌, length};
ghost use Rattle.rx_scan.specs.Depth.{depth_behind, bracket_depth};

use rx_tree::{Token, TokenKind};

// The brackets that are open behind a token.
fn depth_behind(depth: u32, kind: &TokenKind) -> u32
    requires { depth < 4294967295 }
    ensures { result ≡ depth_behind depth kind.now }
{
    match kind {
        TokenKind::LeftParen | TokenKind::LeftBracket => depth + 1,
        TokenKind::RightParen | TokenKind::RightBracket => depth.saturating_sub(1),
        _ => depth,
    }
}

/// The greatest number of `(` and `[` that stand open at once, whatever closes them. A closing one where none is open
/// changes nothing.
pub fn bracket_depth(tokens: &[Token]) -> u32
    requires few { length tokens.now < 2 ^ 32 }
    ensures depth { result ≡ bracket_depth tokens.now }
{
    let mut depth = 0u32;
    let mut greatest = 0u32;
    for token in tokens {
        depth = depth_behind(depth, &token.kind);
        greatest = greatest.max(depth);
    }
    greatest
}
