// The clause that a frame does next.
ghost use Rattle.std.specs.Prelude.{IfNone, IfOk, IfSome};
ghost use Rattle.rx_kernel.specs.Stepping.{IsDone, IsNext};

use crate::stepped::{Here, Next};
use rx_clause_tree::Simple;
use rx_codes::{Program, simple_of};
use rx_frames::Frame;
use rx_tree::OutOfMemory;

/// The clause that a frame does next, past labels, and what it does; none where the frame has nothing left to do.
pub(crate) fn next_clause<'p>(
    program: &'p Program,
    frame: &Frame,
) -> Result<Option<(Next, &'p Simple)>, OutOfMemory>
    ensures next { IfOk result (λ found. IfSome found (λ one. IsNext program.now frame.now one.0 one.1.now)) }
    ensures none { IfOk result (λ found. IfNone found (IsDone program.now frame.now)) }
{
    let Some(flat) = program.flat(frame.body()) else {
        // It never comes: the body of a frame is one of the program's.
        return Err(OutOfMemory);
    };
    let Some(found) = flat.find(frame.place()) else {
        // No clause that runs begins a loop.
        return if frame.loops().is_empty() {
            Ok(None)
        } else {
            Err(OutOfMemory)
        };
    };
    let Some(clause) = flat.clause(found.number) else {
        // It never comes: each number that flat code tells has a clause.
        return Err(OutOfMemory);
    };
    let Some(simple) = simple_of(clause) else {
        // A program with a clause that holds others doesn't run.
        return Err(OutOfMemory);
    };
    let here = Here {
        line: clause.line,
        at: found.at,
        next: found.next,
    };
    let next = Next {
        here,
        number: found.number,
    };
    Ok(Some((next, simple)))
}
