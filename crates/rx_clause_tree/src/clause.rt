// Clauses and bodies.
ghost use Rattle.std.specs.Prelude.{◌≡◌, IfOk};

use crate::loops::{Header, Test};
use crate::simple::Simple;
use rx_tree::{Expr, OutOfMemory};
use sqlite_items::{Boxed, Items};
use std::alloc::Global;

/// What a clause is.
#[cycle(clause)]
#[derive(Drop)]
pub enum ClauseKind {
    /// It holds no other clause.
    Simple(Simple),
    /// `IF e THEN clause [ELSE clause]`
    If(Expr, Boxed<Clause>, Option<Boxed<Clause>>),
    /// `SELECT`, with its WHENs and the clauses of OTHERWISE, where it has that.
    Select(Items<When>, Option<Items<Clause>>),
    /// `DO`, whose clauses are done once.
    Group(Items<Clause>),
    /// `DO` and `LOOP` that repeat their clauses.
    Loop(Header, Test, Items<Clause>),
}

/// A clause, with the line of the source that it begins on, from 1.
#[cycle(clause)]
#[derive(Drop)]
pub struct Clause {
    pub line: u32,
    pub kind: ClauseKind,
}

/// `WHEN e THEN clause` of a SELECT.
#[cycle(clause)]
#[derive(Drop)]
pub struct When {
    pub test: Expr,
    pub chosen: Clause,
}

/// What stands before a clause of a body: nothing, labels alone, or other clauses.
#[derive(Clone, Copy, Debug, PartialEq, Eq)]
pub enum Before {
    Nothing,
    Labels,
    Clauses,
}

/// The clauses of the main program, of a method or of a routine, in order.
pub struct Body {
    pub clauses: Items<Clause>,
}

impl Drop for Body {
    fn drop(self) {
        let Body { clauses: _ } = self;
    }
}

#[cycle(share_clause)]
fn share_boxed(alloc: Global, clause: &Boxed<Clause>) -> Result<Boxed<Clause>, OutOfMemory>
    ensures { IfOk result (λ shared. shared ≡ clause.now) }
{
    let shared = clause.get().share(alloc)?;
    Ok(Boxed::new(alloc, shared)?)
}

#[cycle(share_clause)]
fn share_clauses(alloc: Global, clauses: &[Clause]) -> Result<Items<Clause>, OutOfMemory>
    ensures { IfOk result (λ shared. shared ≡ clauses.now) }
{
    let mut shared = Items::new(alloc);
    for clause in clauses {
        let clause = clause.share(alloc)?;
        shared.push(clause)?;
    }
    Ok(shared)
}

#[cycle(share_clause)]
fn share_whens(alloc: Global, whens: &[When]) -> Result<Items<When>, OutOfMemory>
    ensures { IfOk result (λ shared. shared ≡ whens.now) }
{
    let mut shared = Items::new(alloc);
    for when in whens {
        let test = when.test.share(alloc)?;
        let chosen = when.chosen.share(alloc)?;
        shared.push(When { test, chosen })?;
    }
    Ok(shared)
}

impl Clause {
    /// An equal clause, or want of memory.
    #[cycle(share_clause)]
    pub fn share(&self, alloc: Global) -> Result<Clause, OutOfMemory>
        ensures same { IfOk result (λ clause. clause ≡ self.now) }
    {
        let kind = self.kind.share(alloc)?;
        Ok(Clause {
            line: self.line,
            kind,
        })
    }
}

impl ClauseKind {
    /// An equal clause but for its line, or want of memory.
    #[cycle(share_clause)]
    pub fn share(&self, alloc: Global) -> Result<ClauseKind, OutOfMemory>
        ensures same { IfOk result (λ kind. kind ≡ self.now) }
    {
        match self {
            ClauseKind::Simple(simple) => Ok(ClauseKind::Simple(simple.share(alloc)?)),
            ClauseKind::If(test, chosen, None) => {
                let test = test.share(alloc)?;
                Ok(ClauseKind::If(test, share_boxed(alloc, chosen)?, None))
            }
            ClauseKind::If(test, chosen, Some(other)) => {
                let test = test.share(alloc)?;
                let chosen = share_boxed(alloc, chosen)?;
                let other = share_boxed(alloc, other)?;
                Ok(ClauseKind::If(test, chosen, Some(other)))
            }
            ClauseKind::Select(whens, None) => {
                let whens = share_whens(alloc, whens.as_slice())?;
                Ok(ClauseKind::Select(whens, None))
            }
            ClauseKind::Select(whens, Some(clauses)) => {
                let whens = share_whens(alloc, whens.as_slice())?;
                let clauses = share_clauses(alloc, clauses.as_slice())?;
                Ok(ClauseKind::Select(whens, Some(clauses)))
            }
            ClauseKind::Group(clauses) => {
                Ok(ClauseKind::Group(share_clauses(alloc, clauses.as_slice())?))
            }
            ClauseKind::Loop(header, test, clauses) => {
                let header = header.share(alloc)?;
                let test = test.share(alloc)?;
                let clauses = share_clauses(alloc, clauses.as_slice())?;
                Ok(ClauseKind::Loop(header, test, clauses))
            }
        }
    }
}
