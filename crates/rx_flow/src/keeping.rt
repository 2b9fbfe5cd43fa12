// The clauses that code keeps, without those that stand in them.
ghost use Rattle.std.specs.Prelude.{◌≡◌, [], IfOk};
ghost use Rattle.rx_clause_tree.specs.declared.clause.ClauseKind.TheVariants as kind;
ghost use Rattle.rx_clause_tree.specs.declared.simple.Simple.TheVariants as simple;
ghost use Rattle.rx_flow.specs.Rules.{made};
ghost use Rattle.rx_flow.specs.Kept as kept;

use rx_clause_tree::{Clause, ClauseKind, Header, Simple, Test};
use rx_tree::{Expr, OutOfMemory};
use sqlite_items::{Boxed, Items};
use std::alloc::Global;

/// What is kept of a clause that holds no other: all of it.
pub(crate) fn kept_simple(alloc: Global, line: u32, simple: &Simple) -> Result<Clause, OutOfMemory>
    ensures { IfOk result (λ clause. clause ≡ made line (kind.Simple simple.now)) }
{
    let kind = ClauseKind::Simple(simple.share(alloc)?);
    Ok(Clause { line, kind })
}

// NOP, where a clause has to stand.
fn nop(alloc: Global, line: u32) -> Result<Boxed<Clause>, OutOfMemory>
    ensures { IfOk result (λ clause. clause ≡ made line (kind.Simple simple.Nop)) }
{
    let kind = ClauseKind::Simple(Simple::Nop);
    Ok(Boxed::new(alloc, Clause { line, kind })?)
}

/// What is kept of a clause that tests an expression.
pub(crate) fn kept_test(alloc: Global, line: u32, test: &Expr) -> Result<Clause, OutOfMemory>
    ensures { IfOk result (λ clause. clause ≡ kept.kept_test line test.now) }
{
    let test = test.share(alloc)?;
    let chosen = nop(alloc, line)?;
    let kind = ClauseKind::If(test, chosen, None);
    Ok(Clause { line, kind })
}

/// What is kept of a SELECT, with OTHERWISE or without it.
pub(crate) fn kept_select(alloc: Global, line: u32, otherwise: bool) -> Clause
    ensures { result ≡ kept.select_of line otherwise }
{
    let others = if otherwise {
        Some(Items::new(alloc))
    } else {
        None
    };
    Clause {
        line,
        kind: ClauseKind::Select(Items::new(alloc), others),
    }
}

/// What is kept of a group.
pub(crate) fn kept_group(alloc: Global, line: u32) -> Clause
    ensures { result ≡ made line (kind.Group []) }
{
    Clause {
        line,
        kind: ClauseKind::Group(Items::new(alloc)),
    }
}

/// What is kept of a loop.
pub(crate) fn kept_loop(
    alloc: Global,
    line: u32,
    header: &Header,
    test: &Test,
) -> Result<Clause, OutOfMemory>
    ensures { IfOk result (λ clause. clause ≡ made line (kind.Loop header.now test.now [])) }
{
    let header = header.share(alloc)?;
    let test = test.share(alloc)?;
    Ok(Clause {
        line,
        kind: ClauseKind::Loop(header, test, Items::new(alloc)),
    })
}
