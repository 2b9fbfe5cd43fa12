// Evaluations that go on.
ghost use Rattle.std.specs.Prelude.{◌≡◌, ◌≤◌, IfOk};
ghost use Rattle.std.specs.Arc.{arc_value};
ghost use Rattle.rx_eval.specs.Computed.{IsComputed};
ghost use Rattle.rx_eval.specs.Places as places;
ghost use Rattle.rx_eval.specs.Pauses.{IsPlaced, trees_of};
ghost use Rattle.rx_eval.specs.Reaching.{IsReached, Suffice, comes_to};

use crate::call::Pending;
use crate::computing::{Computed, compute_from};
use crate::facts::Facts;
use crate::job::share_all;
use crate::paused::Paused;
use crate::postfix::Postfix;
use rx_tree::{Awaited, Name, OutOfMemory, Text, Value};
use sqlite_items::Items;
use std::alloc::Global;
use std::marker::Model;
use std::sync::Arc;

/// An evaluation that goes on at a place of its code.
pub struct Ready {
    code: Arc<Postfix>,
    place: usize,
    values: Items<Value>,
}

impl Drop for Ready {
    fn drop(self) {
        let Ready {
            code: _,
            place: _,
            values: _,
        } = self;
    }
}

impl Model for Ready {
    ghost use Rattle.std.specs.Arc.{arc_value};
    ghost use Rattle.rx_eval.specs.Pauses.{Going, IsPlaced};

    ghost Value = { Going };

    ghost view = { λ r. record { code = arc_value r.code; place = r.place; values = r.values } };

    ghost invariant = { λ r. IsPlaced (record { code = arc_value r.code; place = r.place; values = r.values }) };
}

/// What an evaluation has come to.
#[derive(Drop)]
pub enum Reached {
    /// The values of all its expressions.
    Done(Items<Value>),
    /// A call, and the evaluation that stands at it.
    Call(Pending, Paused),
    /// The error of this number is raised.
    Raise(u8),
    /// This variable has no value, and NOVALUE is trapped.
    NoValue(Text),
}

impl Ready {
    // At a place where these values stand.
    pub(crate) fn at(code: Arc<Postfix>, place: usize, values: Items<Value>) -> Ready
        requires placed { IsPlaced (record { code = arc_value code; place = place; values = values }) }
        ensures code { result.code ≡ arc_value code }
        ensures place { result.place ≡ place }
        ensures values { result.values ≡ values }
    {
        Ready {
            code,
            place,
            values,
        }
    }

    /// At the beginning of code.
    pub fn new(alloc: Global, code: Arc<Postfix>) -> Ready
        ensures code { result.code ≡ arc_value code }
        ensures trees { trees_of result ≡ places.trees_of (arc_value code).instrs }
    {
        Ready {
            code,
            place: 0,
            values: Items::new(alloc),
        }
    }

    /// Its code.
    pub fn code(&self) -> &Postfix
        ensures { result.now ≡ self.now.code }
    {
        &self.code
    }

    /// The names that its code reads. The values of these variables suffice.
    pub fn names(&self) -> &[Name]
        ensures { Suffice self.now result.now }
    {
        self.code.names()
    }

    // What its code comes to, or want of memory.
    fn compute(&self, alloc: Global, facts: &Facts) -> Result<Computed, OutOfMemory>
        requires at_least_1 { 1 ≤ facts.now.frame.digits }
        requires at_most_18 { facts.now.frame.digits ≤ 18 }
        ensures { IfOk result (IsComputed self.now.code.instrs (comes_to self.now facts.now)) }
    {
        let values = share_all(alloc, self.values.as_slice())?;
        compute_from(alloc, facts, &self.code, self.place, values)
    }

    /// What it comes to over these facts, or want of memory.
    pub fn resume(self, alloc: Global, facts: &Facts) -> Result<Reached, OutOfMemory>
        requires at_least_1 { 1 ≤ facts.now.frame.digits }
        requires at_most_18 { facts.now.frame.digits ≤ 18 }
        ensures { IfOk result (IsReached self.code (comes_to self facts.now)) }
    {
        let computed = self.compute(alloc, facts)?;
        let Ready {
            code,
            place: _,
            values: _,
        } = self;
        match computed {
            Computed::Done(values) => Ok(Reached::Done(values)),
            Computed::Raise(number) => Ok(Reached::Raise(number)),
            Computed::NoValue(name) => Ok(Reached::NoValue(name)),
            Computed::NoMemory => Err(OutOfMemory),
            Computed::Call(sent, place, values) => {
                let kept = sent.awaited != Awaited::Dropped;
                Ok(Reached::Call(sent, Paused::new(code, place, values, kept)))
            }
        }
    }
}
