// Flat code.
ghost use Rattle.std.specs.Prelude.{◌≡◌, ◌<◌, length, IfOk, OnOk};
ghost use Rattle.rx_flow.specs.Laid.{with_entry, with_op, with_set};

use rx_clause_tree::Clause;
use rx_tree::OutOfMemory;
use sqlite_items::Items;

/// What stands at a place of code. The first number is that of a clause, other numbers are places.
#[derive(Clone, Copy)]
pub enum Op {
    /// A clause that holds no other, or one after which its clauses come.
    Clause(u32),
    /// A test: where it fails, the code goes on at the place.
    Test(u32, u32),
    /// The code goes on at the place.
    Jump(u32),
    /// The header of a loop.
    Header(u32),
    /// A loop before a turn: when it ends, the code goes on at the place.
    Turn(u32, u32),
    /// A SELECT of which no WHEN was true, and which has no OTHERWISE.
    NoWhen(u32),
}

/// Code, and the clauses that it names, without those that stand in them.
pub struct Code {
    pub ops: Items<Op>,
    pub clauses: Items<Clause>,
}

impl Drop for Code {
    fn drop(self) {
        let Code { ops: _, clauses: _ } = self;
    }
}

// A count as a number, or want of memory.
fn numbered(count: usize) -> Result<u32, OutOfMemory>
    ensures { IfOk result (λ n. n ≡ count) }
{
    if count > u32::MAX as usize {
        return Err(OutOfMemory);
    }
    Ok(count as u32)
}

/// The place behind the last op.
pub(crate) fn here(code: &Code) -> Result<u32, OutOfMemory>
    ensures { IfOk result (λ place. place ≡ length code.now.ops) }
{
    numbered(code.ops.len())
}

/// Appends an op.
pub(crate) fn put(code: &mut Code, op: Op) -> Result<(), OutOfMemory>
    ensures { OnOk result (code.new ≡ with_op code.old op) }
{
    code.ops.push(op)?;
    Ok(())
}

/// The number of the clause that is kept next.
pub(crate) fn next_number(code: &Code) -> Result<u32, OutOfMemory>
    ensures { IfOk result (λ number. number ≡ length code.now.clauses) }
{
    numbered(code.clauses.len())
}

/// Appends a clause.
pub(crate) fn keep(code: &mut Code, clause: Clause) -> Result<(), OutOfMemory>
    ensures { OnOk result (code.new ≡ with_entry code.old clause) }
{
    code.clauses.push(clause)?;
    Ok(())
}

/// Puts an op at a place that has one.
pub(crate) fn patch(code: &mut Code, place: u32, op: Op)
    requires { place < length code.old.ops }
    ensures { code.new ≡ with_set code.old place op }
{
    code.ops.set(place as usize, op);
}
