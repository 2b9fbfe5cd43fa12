// Code in postfix order.
ghost use Rattle.std.specs.Prelude.{◌≡◌, [], ◌∷◌, ◌++◌, true, IfOk, OnErr, OnOk};
ghost use Rattle.std.specs.Arc.{arc_value};
ghost use Rattle.rx_eval.specs.Code.{no_code};
ghost use Rattle.rx_eval.specs.Names.{AreRead, Lists};
ghost use Rattle.rx_eval.specs.Places.{fits, trees_of};
ghost use Rattle.rx_eval.specs.Whole.{is_whole};

use crate::appending::append_tree;
use crate::code::Instr;
use crate::facts::Body;
use crate::listing::Listing;
use rx_tree::{Expr, Name, OutOfMemory};
use sqlite_items::Items;
use std::alloc::Global;
use std::marker::Model;
use std::mem;
use std::sync::Arc;

/// Code in postfix order of expressions of one body: each instruction finds what it needs before it. Contracts see what is
/// fixed for the body, and the instructions.
pub struct Postfix {
    alloc: Global,
    body: Arc<Body>,
    code: Listing,
}

impl Drop for Postfix {
    fn drop(self) {
        let Postfix {
            alloc: _,
            body: _,
            code: _,
        } = self;
    }
}

impl Model for Postfix {
    ghost use Rattle.std.specs.Prelude.{[], ◌≡◌, true};
    ghost use Rattle.std.specs.Arc.{arc_value};
    ghost use Rattle.rx_eval.specs.Code.{Code};
    ghost use Rattle.rx_eval.specs.Places.{fits};

    ghost Value = { Code };

    ghost view = { λ c. record { body = arc_value c.body; instrs = c.code } };

    ghost invariant = { λ c. fits (arc_value c.body) c.code [] ≡ true };
}

impl Postfix {
    /// Code without a tree, of a body.
    pub fn new(alloc: Global, body: Arc<Body>) -> Postfix
        ensures { result ≡ no_code (arc_value body) }
    {
        Postfix {
            alloc,
            body,
            code: Listing::new(alloc),
        }
    }

    /// Appends the code of one expression, of which a string may be wanted. No hole stands in it. After want of memory no
    /// code is left.
    pub fn postfix(&mut self, expr: &Expr, string: bool) -> Result<(), OutOfMemory>
        requires { is_whole expr.now ≡ true }
        ensures trees { OnOk result (trees_of self.new.instrs ≡ trees_of self.old.instrs ++ (expr.now, string) ∷ []) }
        ensures body { self.new.body ≡ self.old.body }
        ensures err { OnErr result (self.new.instrs ≡ []) }
    {
        let mut code = mem::replace(&mut self.code, Listing::new(self.alloc));
        append_tree(self.alloc, &self.body, &mut code, expr, string)?;
        self.code = code;
        Ok(())
    }

    /// The instructions.
    pub fn as_slice(&self) -> &[Instr]
        ensures value { result.now ≡ self.now.instrs }
        ensures whole { fits self.now.body result.now [] ≡ true }
    {
        self.code.as_slice()
    }
    /// The names that the code reads. The number of one is its place here.
    pub fn names(&self) -> &[Name]
        ensures listed { Lists result.now self.now.instrs }
        ensures whole { fits self.now.body self.now.instrs [] ≡ true }
    {
        self.code.names()
    }

    /// The numbers of the names that the instruction at a place reads.
    pub(crate) fn numbers(&self, place: usize) -> &[usize] {
        self.code.numbers(place)
    }

    /// The names that are read from a place on. They are those of the trees for which it stands where values stand there.
    pub fn names_from(&self, place: usize) -> Result<Items<Name>, OutOfMemory>
        ensures { IfOk result (AreRead self.now.instrs place) }
    {
        let names = self.code.names_from(place)?;
        Ok(names)
    }
}
