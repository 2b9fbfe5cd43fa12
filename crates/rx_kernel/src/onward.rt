// How clauses go on.
ghost use Rattle.std.specs.Prelude.{◌≡◌, option_map, IfOk, Some};
ghost use Rattle.rx_clause_tree.specs.declared.package.Package.{Package};
ghost use Rattle.rx_eval.specs.Bodies.{Body};
ghost use Rattle.rx_eval.specs.Filling.{filled_all};
ghost use Rattle.rx_eval.specs.Pauses.{left_of};
ghost use Rattle.rx_machine.specs.Answers.{Left, if_string, or_raises, or_without, resumed};
ghost use Rattle.rx_machine.specs.Clauses as clauses;
ghost use Rattle.rx_machine.specs.Scenes.{body_of};
ghost use Rattle.rx_kernel.specs.Readings.{fixed_for, reading, trees_left};
ghost use Rattle.rx_kernel.specs.Stepping.{IsKept, IsOf, begun_with, onward_of, resumed_of};
ghost use Rattle.rx_kernel.specs.Views.{frame_view};

use crate::using::refusal;
use rx_clause_tree::Simple;
use rx_codes::Program;
use rx_eval::{Paused, Ready};
use rx_frames::{CallState, Frame};
use rx_tree::{Awaited, OutOfMemory, Value};
use std::alloc::Global;

/// The error of a message that gave no value where one is wanted.
const NO_VALUE_RETURNED: u8 = 91;

/// The error of a function that gave none.
const NO_DATA_RETURNED: u8 = 44;

/// The error of a STRING that gave no string.
const INCORRECT_METHOD_CALL: u8 = 93;

/// How a clause goes on.
#[derive(Drop)]
pub(crate) enum Onward {
    /// With these expressions.
    With(Ready),
    /// Its last message gave no value, and none is needed.
    Without,
    /// The error of this number is raised.
    Raises(u8),
}

// ---- at its beginning

// The error that a clause raises before it evaluates anything.
fn refused(frame: &Frame, simple: &Simple) -> Option<u8>
    ensures { (program : Package) → result ≡ clauses.refused (frame_view (reading program) frame.now) simple.now }
{
    match simple {
        Simple::UseArg(strict, parameters) => refusal(
            *strict,
            frame.kind(),
            parameters.as_slice(),
            frame.arguments().as_slice(),
        ),
        _ => None,
    }
}

// A clause is begun.
fn begin(
    alloc: Global,
    program: &Program,
    frame: &Frame,
    number: u32,
    simple: &Simple,
) -> Result<Onward, OutOfMemory>
    requires kept { IsKept program.now frame.now.body number simple.now }
    ensures resumed { (read : Package) → IfOk result (λ onward. resumed_of onward
        ≡ begun_with (clauses.trees_of frame.now.arguments simple.now) (clauses.refused (frame_view (reading read) frame.now) simple.now)) }
    ensures code { IfOk result (λ onward. IsOf (body_of program.now frame.now.body) (Some onward)) }
{
    if let Some(error) = refused(frame, simple) {
        return Ok(Onward::Raises(error));
    }
    let arguments = frame.arguments().as_slice();
    let code = program.code(alloc, frame.body(), number, arguments)?;
    Ok(Onward::With(Ready::new(alloc, code)))
}

// ---- behind a call

// The answer is let go.
fn let_go(paused: Paused) -> Result<Onward, OutOfMemory>
    ensures resumed { IfOk result (λ onward. resumed_of onward ≡ Left (left_of paused)) }
    ensures code { IfOk result (λ onward. IsOf paused.code.body (Some onward)) }
{
    // It never comes: what is let go becomes no value.
    if paused.is_kept() {
        return Err(OutOfMemory);
    }
    Ok(Onward::With(paused.without_answer()))
}

// The answer takes its place.
fn put(alloc: Global, paused: &Paused, answer: &Value) -> Result<Onward, OutOfMemory>
    ensures resumed { IfOk result (λ onward. resumed_of onward ≡ Left (filled_all answer.now (left_of paused.now))) }
    ensures code { IfOk result (λ onward. IsOf paused.now.code.body (Some onward)) }
{
    let paused = paused.share(alloc)?;
    let answer = answer.share()?;
    Ok(Onward::With(paused.with_answer(answer)?))
}

// The answer takes its place, or this error is raised where there is none.
fn put_or_raise(
    alloc: Global,
    paused: &Paused,
    answer: &Option<Value>,
    error: u8,
) -> Result<Onward, OutOfMemory>
    ensures resumed { IfOk result (λ onward. resumed_of onward ≡ or_raises error answer.now (left_of paused.now)) }
    ensures code { IfOk result (λ onward. IsOf paused.now.code.body (Some onward)) }
{
    match answer {
        Some(answer) => put(alloc, paused, answer),
        None => Ok(Onward::Raises(error)),
    }
}

// The answer takes its place, or none is needed.
fn put_or_go_without(
    alloc: Global,
    paused: &Paused,
    answer: &Option<Value>,
) -> Result<Onward, OutOfMemory>
    ensures resumed { IfOk result (λ onward. resumed_of onward ≡ or_without answer.now (left_of paused.now)) }
    ensures code { IfOk result (λ onward. IsOf paused.now.code.body (Some onward)) }
{
    match answer {
        Some(answer) => put(alloc, paused, answer),
        None => Ok(Onward::Without),
    }
}

// The answer takes its place where it is a string.
fn put_string(alloc: Global, paused: &Paused, answer: &Option<Value>) -> Result<Onward, OutOfMemory>
    ensures resumed { IfOk result (λ onward. resumed_of onward ≡ if_string answer.now (left_of paused.now)) }
    ensures code { IfOk result (λ onward. IsOf paused.now.code.body (Some onward)) }
{
    match answer {
        Some(Value::Ref(_)) | None => Ok(Onward::Raises(INCORRECT_METHOD_CALL)),
        Some(answer) => put(alloc, paused, answer),
    }
}

// A clause goes on behind its call, whose answer was awaited so.
fn resume(
    alloc: Global,
    paused: &Paused,
    how: Awaited,
    answer: &Option<Value>,
) -> Result<Onward, OutOfMemory>
    ensures resumed { IfOk result (λ onward. resumed_of onward ≡ resumed how answer.now (left_of paused.now)) }
    ensures code { IfOk result (λ onward. IsOf paused.now.code.body (Some onward)) }
{
    match how {
        Awaited::Dropped => let_go(paused.share(alloc)?),
        Awaited::Anything => put_or_go_without(alloc, paused, answer),
        Awaited::Message => put_or_raise(alloc, paused, answer, NO_VALUE_RETURNED),
        Awaited::Function => put_or_raise(alloc, paused, answer, NO_DATA_RETURNED),
        Awaited::String => put_string(alloc, paused, answer),
    }
}

// The same, where an evaluation stands at the call.
fn resume_given(
    alloc: Global,
    rest: &Option<Paused>,
    how: Awaited,
    answer: &Option<Value>,
) -> Result<Onward, OutOfMemory>
    ensures resumed { IfOk result (λ onward. resumed_of onward ≡ resumed how answer.now (trees_left rest.now)) }
    ensures code { (body : Body) → IfOk result (λ onward. IsOf (fixed_for body rest.now) (Some onward)) }
{
    match rest {
        Some(paused) => resume(alloc, paused, how, answer),
        // It never comes: the answer of a call comes to an evaluation that stands at it.
        None => Err(OutOfMemory),
    }
}

// ---- both

/// How a frame goes on with the clause that is kept under this number and does this: from its beginning, or behind its call. It
/// doesn't where the answer is still awaited.
pub(crate) fn goes_on_with(
    alloc: Global,
    program: &Program,
    frame: &Frame,
    number: u32,
    simple: &Simple,
) -> Result<Option<Onward>, OutOfMemory>
    requires kept { IsKept program.now frame.now.body number simple.now }
    requires code { fixed_for (body_of program.now frame.now.body) frame.now.todo.operands.rest ≡ body_of program.now frame.now.body }
    ensures onward { (read : Package) → IfOk result (λ onward. option_map resumed_of onward
        ≡ onward_of (frame_view (reading read) frame.now) simple.now frame.now.todo.operands.call) }
    ensures code { IfOk result (IsOf (body_of program.now frame.now.body)) }
{
    let operands = frame.operands();
    match &operands.call {
        CallState::NoCall => Ok(Some(begin(alloc, program, frame, number, simple)?)),
        CallState::Awaiting(_) => Ok(None),
        CallState::Answered(how, answer) => {
            Ok(Some(resume_given(alloc, &operands.rest, *how, answer)?))
        }
    }
}
