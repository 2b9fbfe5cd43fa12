// A body with all its code.
ghost use Rattle.std.specs.Prelude.{◌≡◌, [], map, slice_get, Some, IfOk};
ghost use Rattle.std.specs.Arc.{arc_value};
ghost use Rattle.rx_clause_tree.specs.declared.clause.Clause.{Clause as Written};
ghost use Rattle.rx_flow.specs.Kept.{all_kept};
ghost use Rattle.rx_eval.specs.Places.{trees_of};
ghost use Rattle.rx_codes.specs.Codes.{AreCodes, fixed_for, trees_in, with_objects};

use crate::compiling::{clause_code, needs_arguments};
use crate::fixing::labels_of;
use rx_clause_tree::{Body, Clause};
use rx_eval::Postfix;
use rx_flow::{Flat, flatten_body};
use rx_tree::{OutOfMemory, Value};
use rx_vars::Table;
use sqlite_items::Items;
use std::alloc::Global;
use std::marker::Model;
use std::sync::Arc;

/// A body with its flat code, what is fixed for its expressions, and the code of each clause that the flat code keeps. Contracts see
/// the body, and the objects that environment symbols name in it.
pub struct Coded {
    flat: Flat,
    fixed: Arc<rx_eval::Body>,
    compiled: Items<Arc<Postfix>>,
}

impl Drop for Coded {
    fn drop(self) {
        let Coded {
            flat: _,
            fixed: _,
            compiled: _,
        } = self;
    }
}

impl Model for Coded {
    ghost use Rattle.std.specs.Arc.{arc_value};
    ghost use Rattle.std.specs.Coded.{codes};
    ghost use Rattle.rx_clause_tree.specs.contracts.clause.Body.{the_row as body_row};
    ghost use Rattle.rx_codes.specs.Codes.{Coded as Kept, IsCoded};

    ghost Value = { Kept };

    ghost coded = { Prim.hlevel (codes, body_row.coded) };

    ghost view = { λ c. record { body = c.flat; objects = (arc_value c.fixed).objects } };

    ghost invariant = { λ c. IsCoded c.flat.clauses (arc_value c.fixed) c.compiled };
}

// The code of each clause, where the frame has no argument.
fn codes_of(
    alloc: Global,
    fixed: &Arc<rx_eval::Body>,
    clauses: &[Clause],
) -> Result<Items<Arc<Postfix>>, OutOfMemory>
    ensures { IfOk result (AreCodes (arc_value fixed.now) clauses.now) }
{
    let mut codes = Items::new(alloc);
    for clause in clauses {
        let code = clause_code(alloc, fixed, clause, &[])?;
        codes.push(code)?;
    }
    Ok(codes)
}

impl Coded {
    /// The code of a body in which environment symbols name these objects, or want of memory.
    pub fn new(alloc: Global, objects: &Arc<Table<u32>>, body: Body) -> Result<Coded, OutOfMemory>
        ensures { IfOk result (λ coded. coded ≡ with_objects (arc_value objects.now) body) }
    {
        let labels = labels_of(alloc, body.clauses.as_slice())?;
        let objects = Arc::try_clone(objects)?;
        let fixed = Arc::new(alloc, rx_eval::Body::new(labels, objects))?;
        let flat = flatten_body(alloc, body)?;
        let compiled = codes_of(alloc, &fixed, flat.code().clauses.as_slice())?;
        Ok(Coded {
            flat,
            fixed,
            compiled,
        })
    }

    /// The same of several bodies, in their order.
    pub fn all(
        alloc: Global,
        objects: &Arc<Table<u32>>,
        mut bodies: Items<Body>,
    ) -> Result<Items<Coded>, OutOfMemory>
        ensures { IfOk result (λ coded. coded ≡ map (with_objects (arc_value objects.now)) bodies) }
    {
        let mut coded = Vec::with_capacity(alloc, bodies.len())?;
        while let Some(body) = bodies.pop() {
            coded.push(Coded::new(alloc, objects, body)?)?;
        }
        coded.reverse();
        Ok(Items::from_vec(coded))
    }

    /// The flat code.
    pub fn flat(&self) -> &Flat
        ensures { result.now ≡ self.now.body }
    {
        &self.flat
    }

    /// The code of the clause that is kept under a number, where the frame has these arguments. Each number that flat code tells has a
    /// clause: without one the answer is as for want of memory.
    pub fn code(
        &self,
        alloc: Global,
        number: u32,
        args: &[Option<Value>],
    ) -> Result<Arc<Postfix>, OutOfMemory>
        ensures body { IfOk result (λ code. (arc_value code).body ≡ fixed_for self.now) }
        ensures trees { (clause : Written) → slice_get (all_kept self.now.body.clauses) number ≡ Some clause
            → IfOk result (λ code. trees_of (arc_value code).instrs ≡ trees_in args.now clause) }
    {
        let Some(clause) = self.flat.clause(number) else {
            return Err(OutOfMemory);
        };
        if needs_arguments(clause, args) {
            return clause_code(alloc, &self.fixed, clause, args);
        }
        match self.compiled.get(number as usize) {
            Some(code) => Ok(Arc::try_clone(code)?),
            None => Err(OutOfMemory),
        }
    }
}
