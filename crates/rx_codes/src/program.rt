// A program.
ghost use Rattle.std.specs.Prelude.{◌≡◌, [], length, slice_get, IfNone, IfOk, IfSome, Some};
ghost use Rattle.std.specs.Arc.{arc_value};
ghost use Rattle.rx_clause_tree.specs.declared.clause.Clause.{Clause};
ghost use Rattle.rx_clause_tree.specs.declared.simple.Simple.{Simple};
ghost use Rattle.rx_flow.specs.Kept.{all_kept};
ghost use Rattle.rx_flow.specs.Rules.{Does, rule};
ghost use Rattle.rx_eval.specs.Places.{trees_of};
ghost use Rattle.rx_machine.specs.Clauses as clauses;
ghost use Rattle.rx_machine.specs.Scenes.{body_of};
ghost use Rattle.rx_machine.specs.Todo.{clauses_in};

use crate::package::CodedPackage;
use rx_clause_tree::Package;
use rx_eval::Postfix;
use rx_flow::Flat;
use rx_tree::{ClassDef, OutOfMemory, Shared, Text, Value};
use std::alloc::Global;
use std::marker::Model;
use std::sync::Arc;

/// A program with all its code, which several owners share and none changes. Contracts see its package.
pub struct Program {
    coded: Arc<CodedPackage>,
}

impl Drop for Program {
    fn drop(self) {
        let Program { coded: _ } = self;
    }
}

impl Model for Program {
    ghost use Rattle.std.specs.Arc.{arc_value};
    ghost use Rattle.rx_clause_tree.specs.declared.package.Package.{Package as Written};
    ghost use Rattle.rx_clause_tree.specs.contracts.package.Package.{the_row as package_row};

    ghost Value = { Written };

    ghost coded = { package_row.coded };

    ghost view = { λ p. arc_value p.coded };
}

impl Program {
    /// The program of a package, or want of memory.
    pub fn new(alloc: Global, written: Package) -> Result<Program, OutOfMemory>
        ensures same { IfOk result (λ program. program ≡ written) }
    {
        let coded = CodedPackage::new(alloc, written)?;
        let coded = Arc::new(alloc, coded)?;
        Ok(Program { coded })
    }

    /// A further owner of the same program, or want of memory.
    pub fn share(&self) -> Result<Program, OutOfMemory>
        ensures { IfOk result (λ shared. shared ≡ self.now) }
    {
        let coded = Arc::try_clone(&self.coded)?;
        Ok(Program { coded })
    }

    /// The number of the main body, which comes behind the others.
    pub fn main_number(&self) -> u32
        ensures { result ≡ length self.now.bodies }
    {
        self.coded.main_number()
    }

    /// The flat code of a body, by its number.
    pub fn flat(&self, body: u32) -> Option<&Flat>
        ensures some { IfSome result (λ flat. flat.now.clauses ≡ clauses_in self.now body) }
        ensures none { IfNone result (clauses_in self.now body ≡ []) }
    {
        match self.coded.coded(body) {
            Some(coded) => Some(coded.flat()),
            None => None,
        }
    }

    /// The code of the expressions of a body's clause, by the number under which the flat code keeps it, where the frame has these
    /// arguments; or want of memory. A clause that holds others has code without trees. Each body that runs and each number that its
    /// flat code tells is there: without it the answer is as for want of memory.
    pub fn code(
        &self,
        alloc: Global,
        body: u32,
        number: u32,
        args: &[Option<Value>],
    ) -> Result<Arc<Postfix>, OutOfMemory>
        ensures body { IfOk result (λ code. (arc_value code).body ≡ body_of self.now body) }
        ensures trees { (clause : Clause) (simple : Simple) → slice_get (all_kept (clauses_in self.now body)) number ≡ Some clause
            → rule clause ≡ Does simple → IfOk result (λ code. trees_of (arc_value code).instrs ≡ clauses.trees_of args.now simple) }
    {
        match self.coded.coded(body) {
            Some(coded) => coded.code(alloc, number, args),
            None => Err(OutOfMemory),
        }
    }

    /// The classes, in the order in which they are installed.
    pub fn classes(&self) -> &[ClassDef]
        ensures { result.now ≡ self.now.classes }
    {
        self.coded.classes()
    }

    /// The routines, each a name and the number of its body.
    pub fn routines(&self) -> &[(Text, u32)]
        ensures { result.now ≡ self.now.routines }
    {
        self.coded.routines()
    }

    /// The lines of the source, or want of memory.
    pub fn lines(&self) -> Result<Shared<Text>, OutOfMemory>
        ensures { IfOk result (λ lines. lines ≡ self.now.lines) }
    {
        self.coded.lines()
    }
}
