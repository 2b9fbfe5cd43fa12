// Evaluations that stand at a call.
ghost use Rattle.std.specs.Prelude.{◌≡◌, false, IfOk};
ghost use Rattle.std.specs.Arc.{arc_value};
ghost use Rattle.rx_eval.specs.Filling.{filled_all};
ghost use Rattle.rx_eval.specs.Pauses.{GoesOn, ends_wanted, is_bare, left_of, trees_of};

use crate::code::Instr;
use crate::job::share_all;
use crate::postfix::Postfix;
use crate::ready::Ready;
use rx_tree::{OutOfMemory, Value};
use sqlite_items::Items;
use std::alloc::Global;
use std::marker::Model;
use std::sync::Arc;

/// An evaluation that stands at a call, and goes on once its answer has come.
pub struct Paused {
    code: Arc<Postfix>,
    place: usize,
    values: Items<Value>,
    kept: bool,
}

impl Drop for Paused {
    fn drop(self) {
        let Paused {
            code: _,
            place: _,
            values: _,
            kept: _,
        } = self;
    }
}

impl Model for Paused {
    ghost use Rattle.std.specs.Arc.{arc_value};
    ghost use Rattle.rx_eval.specs.Pauses.{GoesOn, Pause};

    ghost Value = { Pause };

    ghost view = { λ p. record { code = arc_value p.code; place = p.place; values = p.values; kept = p.kept } };

    ghost invariant = { λ p. GoesOn (record { code = arc_value p.code; place = p.place; values = p.values; kept = p.kept }) };
}

// Whether a string is wanted by the last instruction.
fn ends_wanted(code: &[Instr]) -> bool
    ensures { result ≡ ends_wanted code.now }
{
    matches!(code.last(), Some(Instr::Wanted))
}

impl Paused {
    // Stands at a call.
    pub(crate) fn new(code: Arc<Postfix>, place: usize, values: Items<Value>, kept: bool) -> Paused
        requires goes_on { GoesOn (record { code = arc_value code; place = place; values = values; kept = kept }) }
        ensures code { result.code ≡ arc_value code }
        ensures place { result.place ≡ place }
        ensures values { result.values ≡ values }
        ensures kept { result.kept ≡ kept }
    {
        Paused {
            code,
            place,
            values,
            kept,
        }
    }

    /// An equal evaluation, or want of memory.
    pub fn share(&self, alloc: Global) -> Result<Paused, OutOfMemory>
        ensures same { IfOk result (λ shared. shared ≡ self.now) }
    {
        let values = share_all(alloc, self.values.as_slice())?;
        let code = Arc::try_clone(&self.code)?;
        Ok(Paused {
            code,
            place: self.place,
            values: Items::from_vec(values),
            kept: self.kept,
        })
    }

    /// Whether the answer becomes a value.
    pub fn is_kept(&self) -> bool
        ensures { result ≡ self.now.kept }
    {
        self.kept
    }

    /// Whether nothing but the answer is left, and no string is wanted of it.
    pub fn is_bare(&self) -> bool
        ensures { result ≡ is_bare (left_of self.now) }
    {
        let code = self.code.as_slice();
        self.kept && self.values.is_empty() && self.place >= code.len() && !ends_wanted(code)
    }

    /// It goes on with its answer, or without it where that doesn't become a value; or wants memory.
    pub fn with_answer(self, answer: Value) -> Result<Ready, OutOfMemory>
        ensures trees { IfOk result (λ ready. trees_of ready ≡ filled_all answer (left_of self)) }
        ensures code { IfOk result (λ ready. ready.code ≡ self.code) }
    {
        let Paused {
            code,
            place,
            mut values,
            kept,
        } = self;
        if kept {
            values.push(answer)?;
        }
        Ok(Ready::at(code, place, values))
    }

    /// It goes on where its answer doesn't become a value.
    pub fn without_answer(self) -> Ready
        requires { self.kept ≡ false }
        ensures trees { trees_of result ≡ left_of self }
        ensures code { result.code ≡ self.code }
    {
        let Paused {
            code,
            place,
            values,
            kept: _,
        } = self;
        Ready::at(code, place, values)
    }
}
