// Lines of the input for steps that want them.
ghost use Rattle.std.specs.Prelude.{◌≡◌, [], ◌∷◌, true, false, IfOk, Ok, OnOk};
ghost use Rattle.rx_ports.specs.Causes.{HasCause};
ghost use Rattle.rx_machine.specs.Input.{with_more};
ghost use Rattle.rx_top.specs.Feeding.{IsFed, IsGiven};
ghost use Rattle.rx_top.specs.Ports.{Shrinks};

use crate::lines::{LineRead, read_line};
use rx_kernel::Kernel;
use rx_ports::Source;
use rx_tree::{OutOfMemory, Text};
use std::alloc::Global;

/// Whether what was wanted of the input has come.
#[derive(Clone, Copy, Debug, PartialEq, Eq)]
pub enum Fed {
    Done,
    /// The input could not be read.
    Failed,
}

// Gives the last line and the end of the input.
fn give_last(kernel: &mut Kernel, line: Text) -> Result<(), OutOfMemory>
    ensures { OnOk result (kernel.new ≡ with_more (line ∷ []) true kernel.old) }
{
    kernel.give_line(Some(line))?;
    kernel.give_line(None)
}

// Gives what was read.
fn give(kernel: &mut Kernel, read: LineRead) -> Result<Fed, OutOfMemory>
    requires unknown { kernel.old.ended ≡ false }
    ensures { IfOk result (IsGiven kernel.old kernel.new read) }
{
    match read {
        LineRead::Line(line) => kernel.give_line(Some(line))?,
        LineRead::Last(line) => give_last(kernel, line)?,
        LineRead::End => kernel.give_line(None)?,
        LineRead::Failed => return Ok(Fed::Failed),
        LineRead::NoMemory => return Err(OutOfMemory),
    }
    Ok(Fed::Done)
}

/// Reads a line of the input and gives it to a run whose step wants one, or tells it that there is none any more; or memory is
/// wanted.
pub fn feed<I: Source>(
    alloc: Global,
    kernel: &mut Kernel,
    input: &mut I,
) -> Result<Fed, OutOfMemory>
    requires unknown { kernel.old.ended ≡ false }
    ensures fed { IfOk result (IsFed kernel.old kernel.new (I.left input.old) (I.left input.new)) }
    ensures cause { HasCause (I.faults input.old) (I.faults input.new) (result ≡ Ok Fed.Failed) }
    ensures shrinks { Shrinks (I.left input.old) (I.left input.new) }
{
    let read = read_line(alloc, input);
    give(kernel, read)
}
