// What an instruction did.
ghost use Rattle.std.specs.Prelude.{ℕ, ◌≡◌, ◌≤◌, List, Result, length, IfOk};
ghost use Rattle.rx_answers.specs.Answers.{AnswersText};
ghost use Rattle.rx_builtin.specs.Answers.{Answers};
ghost use Rattle.rx_eval.specs.Calling.{in_text};
ghost use Rattle.rx_eval.specs.Machine.{moved_by, moved_to};
ghost use Rattle.rx_eval.specs.Steps.{moved};

use crate::call::Pending;
use crate::pile::Pile;
use crate::reading::Reading;
use rx_answers::{Bytes, LONGEST, Refused};
use rx_tree::{OutOfMemory, Text, Value};
use std::alloc::Global;

/// What an instruction did.
#[derive(Drop)]
pub enum Step {
    /// The values are changed, and the next instruction is due.
    Next,
    /// The error of this number is raised.
    Raises(u8),
    /// This variable has no value, and NOVALUE is trapped.
    Lacks(Text),
    /// This call is due, and whether the instruction is done again behind it.
    Calls(Pending, bool),
    /// There were too few values.
    Stuck,
}

/// Pushes what a built-in function gave.
pub(crate) fn push_text(
    stack: &mut Pile<Value>,
    answer: Result<Text, Refused>,
) -> Result<Step, OutOfMemory>
    ensures { (value : Result (List ℕ) ℕ) → Answers answer value → IfOk result (λ step. moved step stack.new ≡ moved_by stack.old (in_text value)) }
{
    match answer {
        Ok(text) => {
            stack.push(Value::Str(text))?;
            Ok(Step::Next)
        }
        Err(Refused::Raised(number)) => Ok(Step::Raises(number)),
        Err(Refused::OutOfMemory) => Err(OutOfMemory),
    }
}

/// Pushes what an operator gave.
pub(crate) fn push_bytes(
    alloc: Global,
    stack: &mut Pile<Value>,
    answer: Bytes,
) -> Result<Step, OutOfMemory>
    requires short { IfOk answer (λ bytes. length bytes.items ≤ LONGEST) }
    ensures { (value : Result (List ℕ) ℕ) → AnswersText answer value → IfOk result (λ step. moved step stack.new ≡ moved_by stack.old (in_text value)) }
{
    match answer {
        Ok(bytes) => {
            let text = Text::from_slice(alloc, bytes.as_slice())?;
            stack.push(Value::Str(text))?;
            Ok(Step::Next)
        }
        Err(Refused::Raised(number)) => Ok(Step::Raises(number)),
        Err(Refused::OutOfMemory) => Err(OutOfMemory),
    }
}

/// Pushes what a name came to.
pub(crate) fn push_reading(stack: &mut Pile<Value>, reading: Reading) -> Result<Step, OutOfMemory>
    ensures { IfOk result (λ step. moved step stack.new ≡ moved_to stack.old reading) }
{
    match reading {
        Reading::Gives(value) => {
            stack.push(value)?;
            Ok(Step::Next)
        }
        Reading::NoValue(name) => Ok(Step::Lacks(name)),
        Reading::Raises(number) => Ok(Step::Raises(number)),
    }
}
