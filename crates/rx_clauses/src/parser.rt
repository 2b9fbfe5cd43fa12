// The parser of bodies.
ghost use Rattle.std.specs.Prelude.{◌^◌, ◌<◌, ◌≤◌, length, drop, IfOk, IfErr};
ghost use Rattle.rx_scan.specs.Depth.{bracket_depth};
ghost use Rattle.rx_clause_tree.specs.Bodies.{IsBody};
ghost use Rattle.rx_exprs.specs.Reads.{Reads};
ghost use Rattle.rx_clauses.specs.Parsed.{IsRefused};
ghost use Rattle.rx_clauses.specs.Reader.{body};

use crate::bodies::body_clauses;
use rx_clause_tree::Body;
use rx_exprs::{Cursor, DEEPEST, ParseRefused, Refused};
use rx_tree::Token;
use std::alloc::Global;

/// The body at the front of the tokens, up to the next directive or their end.
#[tactic(auto, unfolding(crate::specs::Reader::body, crate::specs::Forms::body_form))]
pub fn read_body(alloc: Global, tokens: &mut Cursor<'_>) -> Result<Body, Refused>
    ensures { Reads (body tokens.old) result tokens.new }
{
    let clauses = body_clauses(alloc, tokens)?;
    Ok(Body { clauses })
}

/// The body that fits the tokens from a place on, up to the next directive or to their end, and the place behind it; or why
/// there is none. Places count tokens from 0.
pub fn parse_clauses(
    alloc: Global,
    tokens: &[Token],
    from: u32,
) -> Result<(Body, u32), ParseRefused>
    requires within { from ≤ length tokens.now }
    requires few { length tokens.now < 2 ^ 32 }
    requires shallow { bracket_depth tokens.now ≤ DEEPEST }
    ensures fits { IfOk result (λ found. IsBody found.0 (drop from tokens.now) (drop found.1 tokens.now)) }
    ensures behind { IfOk result (λ found. from ≤ found.1) }
    ensures end { IfOk result (λ found. found.1 ≤ length tokens.now) }
    ensures refused { IfErr result (IsRefused tokens.now from) }
{
    let mut cursor = Cursor::new(&tokens[from as usize..]);
    match body_clauses(alloc, &mut cursor) {
        Ok(clauses) => {
            let behind = (tokens.len() - cursor.left()) as u32;
            Ok((Body { clauses }, behind))
        }
        Err(refused) => Err(refused.among(tokens.len())),
    }
}
