// The parser of directives.
ghost use Rattle.std.specs.Prelude.{◌^◌, ◌<◌, ◌≤◌, length, drop, IfOk, IfErr};
ghost use Rattle.rx_directives.specs.Directives.{AreDirectives};
ghost use Rattle.rx_directives.specs.Parsed.{IsRefused};

use crate::directive::Directive;
use crate::reading::directives;
use rx_exprs::{Cursor, ParseRefused};
use rx_tree::Token;
use sqlite_items::Items;
use std::alloc::Global;

/// The directives that the tokens from a place on are, to their end; or why they are none. Places count tokens from 0.
pub fn parse_directives(
    alloc: Global,
    tokens: &[Token],
    from: u32,
) -> Result<Items<Directive>, ParseRefused>
    requires within { from ≤ length tokens.now }
    requires few { length tokens.now < 2 ^ 32 }
    ensures fits { IfOk result (λ found. AreDirectives found (drop from tokens.now)) }
    ensures refused { IfErr result (IsRefused tokens.now from) }
{
    let mut cursor = Cursor::new(&tokens[from as usize..]);
    match directives(alloc, &mut cursor) {
        Ok(found) => Ok(found),
        Err(refused) => Err(refused.among(tokens.len())),
    }
}
