// Which of the loops that a frame is in LEAVE and ITERATE mean.
ghost use Rattle.std.specs.Prelude.{◌≡◌, ◌<◌, ◌^◌, length, slice_get, IfNone, IfSome};
ghost use Rattle.rx_flow.specs.Stands.{Stands};
ghost use Rattle.rx_flow.specs.Finds.{IsMeant, IsNotMeant};
ghost use Rattle.rx_flow.specs.Looks.{is_meant_entry};

use crate::code::Code;
use crate::finding::turn_at;
use crate::found::FoundLoop;
use crate::names::is_meant;
use rx_clause_tree::{Body, ClauseKind};
use rx_frames::Loop;
use rx_tree::Name;

// Whether the clause of a number is a loop that is meant.
fn is_meant_at(code: &Code, number: u32, wanted: &Option<Name>) -> bool
    ensures { result ≡ is_meant_entry wanted.now (slice_get code.now.clauses number) }
{
    let Some(clause) = code.clauses.get(number as usize) else {
        return false;
    };
    match &clause.kind {
        ClauseKind::Loop(header, _, _) => is_meant(wanted, header),
        _ => false,
    }
}

/// The innermost of these loops, or the innermost one that runs by this variable. The body is passed for the contracts alone.
pub fn find_loop(
    code: &Code,
    body: &Body,
    loops: &[Loop],
    wanted: &Option<Name>,
) -> Option<FoundLoop>
    requires stands { Stands code.now body.now.clauses }
    requires few { length code.now.ops < 2 ^ 32 }
    ensures meant { IfSome result (IsMeant body.now.clauses loops.now wanted.now) }
    ensures none { IfNone result (IsNotMeant body.now.clauses loops.now wanted.now) }
{
    let mut around = loops.len();
    while around > 0 {
        around -= 1;
        let turn = loops[around].turn;
        let there = turn_at(code, body, turn)?;
        if is_meant_at(code, there.number, wanted) {
            return Some(FoundLoop {
                around,
                turn,
                end: there.end,
            });
        }
    }
    None
}
