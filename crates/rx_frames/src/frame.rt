// Frames.
ghost use Rattle.std.specs.Prelude.{◌≡◌, ◌≤◌, true, false, IsTrue, OnErr, OnOk};
ghost use Rattle.std.specs.Bool.{OnFalse};
ghost use Rattle.std.specs.Option.{option_copied};
ghost use Rattle.std.specs.Borrow.{sem};
ghost use Rattle.rx_frames.specs.Frames.{IsShared, asked_by, beginning, frame_with, with_answer, with_value};

use crate::parts::{Due, Own, Trap};
use crate::position::{Loop, Marks, Operands, Position};
use rx_tree::{Caught, Derived, FrameKind, OutOfMemory, Shared, TraceSetting, Value};
use rx_vars::Vars;
use sqlite_items::Items;
use std::alloc::Global;
use std::marker::Model;

/// What an activity is in the middle of: a main program, a method, a routine, or a label's clauses that were called.
/// Contracts see it as a record.
///
/// Each part has a reader and a setter. Whether it asks for its pool is told by `Stacks::look`, and by `reserve`, after which it
/// doesn't any more.
///
/// Beside its parts stands whether it is known to share all variables of its caller: it is so for an internal routine until its
/// variables are replaced, or lent to be changed.
pub struct Frame {
    body: u32,
    kind: FrameKind,
    position: Position,
    variables: Vars,
    shares: bool,
    own: Option<Own>,
    arguments: Shared<Option<Value>>,
    digits: u8,
    trace: TraceSetting,
    traps: Items<Trap>,
    caught: Option<Caught>,
    reserves: bool,
    asks: bool,
    replied: bool,
    completes: Option<u32>,
    due: Items<Due>,
    made: bool,
    fresh: bool,
}

impl Drop for Frame {
    fn drop(self) {
        let Frame {
            body: _,
            kind: _,
            position: _,
            variables: _,
            shares: _,
            own: _,
            arguments: _,
            digits: _,
            trace: _,
            traps: _,
            caught: _,
            reserves: _,
            asks: _,
            replied: _,
            completes: _,
            due: _,
            made: _,
            fresh: _,
        } = self;
    }
}

impl Model for Frame {
    ghost use Rattle.std.specs.Prelude.{◌≡◌, ◌≤◌, true};
    ghost use Rattle.rx_frames.specs.declared.position.Position.{Position};
    ghost use Rattle.rx_frames.specs.Frames.{Frame as Recorded, IsShared};

    ghost Value = { Recorded Position };

    ghost view = { λ f. record {
      body = f.body;
      kind = f.kind;
      todo = f.position;
      variables = f.variables;
      own = f.own;
      arguments = f.arguments;
      digits = f.digits;
      trace = f.trace;
      traps = f.traps;
      caught = f.caught;
      reserves = f.reserves;
      asks = f.asks;
      replied = f.replied;
      completes = f.completes;
      due = f.due;
      made = f.made;
      fresh = f.fresh;
    } };

    ghost invariant = { λ f. (1 ≤ f.digits) × (f.digits ≤ 18) × (f.shares ≡ true → IsShared f.variables) };
}

impl Frame {
    ghost use Rattle.rx_frames.specs.FrameLends.{lends_variables};

    /// A frame at the beginning of a body. Its digits are 9, its trace is off, and its other parts are empty or false. A
    /// method's frame is given its object, its scope and their pool. An internal routine's shares its caller's variables.
    pub fn new(
        alloc: Global,
        kind: FrameKind,
        body: u32,
        own: Option<Own>,
        arguments: Shared<Option<Value>>,
    ) -> Frame
        ensures { result ≡ frame_with beginning kind body own arguments }
    {
        let shares = matches!(kind, FrameKind::Internal);
        Frame {
            body,
            kind,
            position: Position::beginning(alloc),
            variables: Vars::new(alloc, !shares),
            shares,
            own,
            arguments,
            digits: 9,
            trace: TraceSetting::Off,
            traps: Items::new(alloc),
            caught: None,
            reserves: false,
            asks: false,
            replied: false,
            completes: None,
            due: Items::new(alloc),
            made: false,
            fresh: false,
        }
    }

    /// The number of its body. The main body has the number after the last one of the package.
    pub fn body(&self) -> u32
        ensures { result ≡ self.now.body }
    {
        self.body
    }

    /// It is a frame of this body.
    pub fn set_body(&mut self, body: u32)
        ensures { self.new ≡ record self.old { body = body } }
    {
        self.body = body;
    }

    /// What it runs.
    pub fn kind(&self) -> FrameKind
        ensures { result ≡ self.now.kind }
    {
        self.kind
    }

    /// It runs this.
    pub fn set_kind(&mut self, kind: FrameKind)
        ensures { self.new ≡ record self.old { kind = kind } }
    {
        self.kind = kind;
    }

    /// The place in the code of its body where it stands.
    pub fn place(&self) -> u32
        ensures { result ≡ self.now.todo.place }
    {
        self.position.place
    }

    /// It stands at this place in the code of its body.
    pub fn set_place(&mut self, place: u32)
        ensures { self.new ≡ record self.old { todo = record self.old.todo { place = place } } }
    {
        self.position.place = place;
    }

    /// How far the expressions of the clause are evaluated at which it stands.
    pub fn operands(&self) -> &Operands
        ensures { result.now ≡ self.now.todo.operands }
    {
        &self.position.operands
    }

    /// The expressions of the clause at which it stands are evaluated so far.
    pub fn set_operands(&mut self, operands: Operands)
        ensures { self.new ≡ record self.old { todo = record self.old.todo { operands = operands } } }
    {
        self.position.operands = operands;
    }

    /// The loops that it is in, the innermost last.
    pub fn loops(&self) -> &[Loop]
        ensures { result.now ≡ self.now.todo.loops }
    {
        self.position.loops.as_slice()
    }

    /// It is in these loops, the innermost last.
    pub fn set_loops(&mut self, loops: Items<Loop>)
        ensures { self.new ≡ record self.old { todo = record self.old.todo { loops = loops } } }
    {
        self.position.loops = loops;
    }

    /// The marks of the guard at which it is.
    pub fn marks(&self) -> &Marks
        ensures { result.now ≡ self.now.todo.marks }
    {
        &self.position.marks
    }

    /// It is at a guard with these marks, or at none.
    pub fn set_marks(&mut self, marks: Marks)
        ensures { self.new ≡ record self.old { todo = record self.old.todo { marks = marks } } }
    {
        self.position.marks = marks;
    }

    /// Its variables, and the names that it exposes.
    pub fn variables(&self) -> &Vars
        ensures { result.now ≡ self.now.variables }
    {
        &self.variables
    }

    /// These are its variables.
    pub fn set_variables(&mut self, variables: Vars)
        ensures { self.new ≡ record self.old { variables = variables } }
    {
        self.shares = false;
        self.variables = variables;
    }

    /// Its variables, to be changed.
    pub fn variables_mut(&mut self) -> &mut Vars
        ensures* writes_back { sem 𝓛 (lends_variables self.entry result) }
        ensures variables { result.now ≡ self.old.variables }
    {
        self.shares = false;
        &mut self.variables
    }

    /// The object, the scope and the pool of a method's frame.
    pub fn own(&self) -> Option<Own>
        ensures { result ≡ self.now.own }
    {
        self.own
    }

    /// It runs on this object, in this scope and pool.
    pub fn set_own(&mut self, own: Option<Own>)
        ensures { self.new ≡ record self.old { own = own } }
    {
        self.own = own;
    }

    /// Its arguments. One that is omitted has no value.
    pub fn arguments(&self) -> &Shared<Option<Value>>
        ensures { result.now ≡ self.now.arguments }
    {
        &self.arguments
    }

    /// These are its arguments.
    pub fn set_arguments(&mut self, arguments: Shared<Option<Value>>)
        ensures { self.new ≡ record self.old { arguments = arguments } }
    {
        self.arguments = arguments;
    }

    /// NUMERIC DIGITS: how many digits numbers have at most, 1 to 18.
    pub fn digits(&self) -> u8
        ensures digits { result ≡ self.now.digits }
        ensures least { 1 ≤ result }
        ensures most { result ≤ 18 }
    {
        self.digits
    }

    /// Numbers have at most so many digits.
    pub fn set_digits(&mut self, digits: u8)
        requires least { 1 ≤ digits }
        requires most { digits ≤ 18 }
        ensures { self.new ≡ record self.old { digits = digits } }
    {
        self.digits = digits;
    }

    /// What TRACE is set to.
    pub fn trace(&self) -> TraceSetting
        ensures { result ≡ self.now.trace }
    {
        self.trace
    }

    /// TRACE is set to this.
    pub fn set_trace(&mut self, trace: TraceSetting)
        ensures { self.new ≡ record self.old { trace = trace } }
    {
        self.trace = trace;
    }

    /// Its traps.
    pub fn traps(&self) -> &[Trap]
        ensures { result.now ≡ self.now.traps }
    {
        self.traps.as_slice()
    }

    /// These are its traps.
    pub fn set_traps(&mut self, traps: Items<Trap>)
        ensures { self.new ≡ record self.old { traps = traps } }
    {
        self.traps = traps;
    }

    /// The condition that it trapped last.
    pub fn caught(&self) -> Option<&Caught>
        ensures { option_copied result ≡ self.now.caught }
    {
        self.caught.as_ref()
    }

    /// This is the condition that it trapped last.
    pub fn set_caught(&mut self, caught: Option<Caught>)
        ensures { self.new ≡ record self.old { caught = caught } }
    {
        self.caught = caught;
    }

    /// Whether it reserves its pool.
    pub fn reserves(&self) -> bool
        ensures { result ≡ self.now.reserves }
    {
        self.reserves
    }

    /// It reserves its pool, or doesn't.
    pub fn set_reserves(&mut self, reserves: bool)
        ensures { self.new ≡ record self.old { reserves = reserves } }
    {
        self.reserves = reserves;
    }

    /// It asks for its pool, or doesn't. `Stacks::look` tells.
    pub fn set_asks(&mut self, asks: bool)
        ensures { self.new ≡ record self.old { asks = asks } }
    {
        self.asks = asks;
    }

    /// Where it asks for its pool, it reserves it. Whether it asked.
    pub fn reserve(&mut self) -> bool
        ensures asked { result ≡ self.old.asks }
        ensures reserved { IsTrue result → self.new ≡ record self.old { asks = false; reserves = true } }
        ensures same { OnFalse result (self.new ≡ self.old) }
    {
        if !self.asks {
            return false;
        }
        self.asks = false;
        self.reserves = true;
        true
    }

    /// Whether it has replied.
    pub fn replied(&self) -> bool
        ensures { result ≡ self.now.replied }
    {
        self.replied
    }

    /// It has replied, or hasn't.
    pub fn set_replied(&mut self, replied: bool)
        ensures { self.new ≡ record self.old { replied = replied } }
    {
        self.replied = replied;
    }

    /// The Message that it completes, by its object number.
    pub fn completes(&self) -> Option<u32>
        ensures { result ≡ self.now.completes }
    {
        self.completes
    }

    /// It completes this Message, or none.
    pub fn set_completes(&mut self, completes: Option<u32>)
        ensures { self.new ≡ record self.old { completes = completes } }
    {
        self.completes = completes;
    }

    /// The trap calls that it has still to make, the oldest first.
    pub fn due(&self) -> &[Due]
        ensures { result.now ≡ self.now.due }
    {
        self.due.as_slice()
    }

    /// It has still to make these trap calls, the oldest first.
    pub fn set_due(&mut self, due: Items<Due>)
        ensures { self.new ≡ record self.old { due = due } }
    {
        self.due = due;
    }

    /// Whether NEW began it as INIT: then it gives its object in place of a value.
    pub fn made(&self) -> bool
        ensures { result ≡ self.now.made }
    {
        self.made
    }

    /// NEW began it as INIT, or didn't.
    pub fn set_made(&mut self, made: bool)
        ensures { self.new ≡ record self.old { made = made } }
    {
        self.made = made;
    }

    /// Whether a call of a label pushed it, and no clause of it was begun.
    pub fn fresh(&self) -> bool
        ensures { result ≡ self.now.fresh }
    {
        self.fresh
    }

    /// It was pushed by a call of a label and no clause of it was begun, or that isn't so.
    pub fn set_fresh(&mut self, fresh: bool)
        ensures { self.new ≡ record self.old { fresh = fresh } }
    {
        self.fresh = fresh;
    }

    // Whether it is known to share all variables of its caller.
    pub(crate) fn shares(&self) -> bool
        ensures { IsTrue result → IsShared self.now.variables }
    {
        self.shares
    }

    // Gives a name a value or none in its own variables, wherever the name lives, or wants memory.
    pub(crate) fn set_value(
        &mut self,
        name: &Derived,
        value: Option<Value>,
    ) -> Result<(), OutOfMemory>
        ensures ok { OnOk result (self.new ≡ with_value name.now value self.old) }
        ensures err { OnErr result (self.new ≡ self.old) }
    {
        match value {
            Some(value) => self.variables.set(name, value),
            None => self.variables.drop_name(name),
        }
    }

    // The answer of the call that it awaits, a value or none, has come.
    pub(crate) fn answer(&mut self, answer: Option<Value>)
        ensures { self.new ≡ with_answer answer self.old }
    {
        self.position.operands.call.answer(answer);
    }

    // The pool that it asks for, with its object and scope.
    pub(crate) fn asked(&self) -> Option<Own>
        ensures { result ≡ asked_by self.now }
    {
        if self.asks { self.own } else { None }
    }
}
