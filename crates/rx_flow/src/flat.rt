// A body with its code.
ghost use Rattle.std.specs.Prelude.{◌≡◌, ◌<◌, ◌^◌, [], length, slice_get, IfNone, IfOk, IfSome};
ghost use Rattle.std.specs.Option.{option_copied, option_map};
ghost use Rattle.rx_flow.specs.Todo.{after_label, wholes};
ghost use Rattle.rx_flow.specs.Kept.{all_kept};
ghost use Rattle.rx_flow.specs.Places.{left_at, todo_at};
ghost use Rattle.rx_flow.specs.Stands.{Stands};
ghost use Rattle.rx_flow.specs.Flats.{IsFlat};
ghost use Rattle.rx_flow.specs.Finds.{IsEnd, IsMeant, IsNext, IsNoTurn, IsNotMeant, IsTurn};

use crate::code::{Code, here};
use crate::flatten::flatten_clause;
use crate::found::{Found, FoundLoop, Turn};
use crate::labels::note_label;
use crate::{finding, loops};
use rx_clause_tree::{Body, Clause};
use rx_frames::Loop;
use rx_tree::{Name, OutOfMemory};
use rx_vars::Table;
use sqlite_items::Items;
use std::alloc::Global;
use std::marker::Model;

/// A body with the code that stands for it, and a table of its labels. Contracts see the body: what the code tells is said
/// of that.
pub struct Flat {
    body: Body,
    code: Code,
    labels: Table<u32>,
}

impl Drop for Flat {
    fn drop(self) {
        let Flat {
            body: _,
            code: _,
            labels: _,
        } = self;
    }
}

impl Model for Flat {
    ghost use Rattle.rx_clause_tree.specs.declared.clause.Body.{Body as Written};
    ghost use Rattle.rx_clause_tree.specs.contracts.clause.Body.{the_row as body_row};
    ghost use Rattle.rx_flow.specs.Flats.{IsFlat};

    ghost Value = { Written };

    ghost coded = { body_row.coded };

    ghost view = { λ f. f.body };

    ghost invariant = { λ f. IsFlat f.body.clauses f.code f.labels };
}

// The code of a body, and the table of its labels.
fn code_of(alloc: Global, body: &Body) -> Result<(Code, Table<u32>), OutOfMemory>
    ensures { IfOk result (λ made. IsFlat body.now.clauses made.0 made.1) }
{
    let mut code = Code {
        ops: Items::new(alloc),
        clauses: Items::new(alloc),
    };
    let mut labels = Table::new(alloc);
    let clauses = body.clauses.as_slice();
    for clause in clauses {
        flatten_clause(alloc, &mut code, clause)?;
        note_label(&code, &mut labels, clause)?;
    }
    let _end = here(&code)?;
    Ok((code, labels))
}

/// A body with its flat code, or want of memory.
pub fn flatten_body(alloc: Global, body: Body) -> Result<Flat, OutOfMemory>
    ensures { IfOk result (λ flat. flat ≡ body) }
{
    let (code, labels) = code_of(alloc, &body)?;
    Ok(Flat { body, code, labels })
}

impl Flat {
    /// The code: each place of it stands for what it has to, and its jumps stay inside. At its first place the whole body is
    /// to be done.
    pub fn code(&self) -> &Code
        ensures stands { Stands result.now self.now.clauses }
        ensures begins { todo_at self.now.clauses 0 [] ≡ wholes self.now.clauses }
    {
        &self.code
    }

    /// The clause of a number, without those that stand in it.
    pub fn clause(&self, number: u32) -> Option<&Clause>
        ensures { option_copied result ≡ slice_get (all_kept self.now.clauses) number }
    {
        self.code.clauses.get(number as usize)
    }

    /// The clause that is next from a place on, past labels and jumps; none where the innermost list ends.
    pub fn find(&self, place: u32) -> Option<Found>
        ensures next { IfSome result (λ found. IsNext self.now.clauses place found) }
        ensures end { IfNone result (IsEnd self.now.clauses place) }
    {
        finding::find(&self.code, &self.body, place)
    }

    /// The turn of a loop, if one stands at this place.
    pub fn turn_at(&self, place: u32) -> Option<Turn>
        ensures turn { IfSome result (λ turn. IsTurn self.now.clauses place turn) }
        ensures none { IfNone result (IsNoTurn self.now.clauses place) }
    {
        finding::turn_at(&self.code, &self.body, place)
    }

    /// The place behind the first label of a name.
    pub fn label_place(&self, name: &[u8]) -> Option<u32>
        ensures { after_label name.now self.now.clauses
            ≡ option_map (left_at self.now.clauses) result }
    {
        self.labels.get(name).copied()
    }

    /// Of the loops that a frame is in, the innermost last, the one that LEAVE or ITERATE means: the innermost, or the innermost
    /// one that runs by this variable.
    pub fn find_loop(&self, loops: &[Loop], wanted: &Option<Name>) -> Option<FoundLoop>
        ensures meant { IfSome result (IsMeant self.now.clauses loops.now wanted.now) }
        ensures none { IfNone result (IsNotMeant self.now.clauses loops.now wanted.now) }
    {
        loops::find_loop(&self.code, &self.body, loops, wanted)
    }
}
