// The lines of the report.
ghost use Rattle.std.specs.Prelude.{◌≡◌, ◌++◌, IfOk, OnOk};
ghost use Rattle.rx_machine.specs.End.{end, waits};
ghost use Rattle.rx_machine.specs.Texts.{note_text, note_lines, notes_text, wait_lines, budget_line, end_text, err_text};
ghost use Rattle.rx_top.specs.Runs.{line_245};

use crate::digits::{push_number, push_three_digits};
use crate::waits::push_waits;
use rx_kernel::Kernel;
use rx_machine::End;
use rx_tree::{Note, OutOfMemory};
use std::alloc::{AllocError, Global};

// Appends the line of an error.
fn push_error(text: &mut Vec<u8>, number: u8, line: u32, activity: u32) -> Result<(), AllocError>
    ensures { OnOk result (text.new.items ≡ text.old.items ++ note_text (Note.Error number line activity)) }
{
    text.extend_from_slice(b"REX")?;
    push_three_digits(text, number)?;
    text.extend_from_slice(b" line ")?;
    push_number(text, u64::from(line))?;
    text.extend_from_slice(b" activity ")?;
    push_number(text, u64::from(activity))?;
    text.push(b'\n')?;
    Ok(())
}

// Appends the line of a note.
fn push_note(text: &mut Vec<u8>, note: &Note) -> Result<(), AllocError>
    ensures { OnOk result (text.new.items ≡ text.old.items ++ note_text note.now) }
{
    match note {
        Note::Error {
            number,
            line,
            activity,
        } => push_error(text, *number, *line, *activity),
    }
}

// The lines of the notes, in order, or want of memory.
fn notes_text(alloc: Global, notes: &[Note]) -> Result<Vec<u8>, AllocError>
    ensures { IfOk result (λ text. text.items ≡ note_lines notes.now) }
{
    let mut text = Vec::new(alloc);
    for note in notes {
        push_note(&mut text, note)?;
    }
    Ok(text)
}

// Appends the line that tells that the steps are used up, or wants memory.
fn push_budget_line(text: &mut Vec<u8>, budget: u64) -> Result<(), AllocError>
    ensures { OnOk result (text.new.items ≡ text.old.items ++ budget_line budget) }
{
    text.extend_from_slice(b"REX242 budget ")?;
    push_number(text, budget)?;
    text.push(b'\n')?;
    Ok(())
}

// Appends what each live activity of a halted run waits for, or wants memory.
fn push_halt(alloc: Global, text: &mut Vec<u8>, kernel: &Kernel) -> Result<(), OutOfMemory>
    ensures { OnOk result (text.new.items ≡ text.old.items ++ wait_lines (waits kernel.now)) }
{
    let rows = kernel.waits(alloc)?;
    push_waits(text, rows.as_slice())?;
    Ok(())
}

// Appends what the report says of how a run ended, or wants memory.
fn push_end(alloc: Global, text: &mut Vec<u8>, kernel: &Kernel) -> Result<(), OutOfMemory>
    ensures { OnOk result (text.new.items ≡ text.old.items ++ end_text kernel.now (end kernel.now)) }
{
    match kernel.finish() {
        End::Stuck => push_halt(alloc, text, kernel)?,
        End::Spent => push_budget_line(text, kernel.budget())?,
        End::Going | End::Finished => {}
    }
    Ok(())
}

/// What the report says of a run, or want of memory.
pub fn report_of(alloc: Global, kernel: &Kernel) -> Result<Vec<u8>, OutOfMemory>
    ensures { IfOk result (λ report. report.items ≡ err_text kernel.now) }
{
    let mut report = notes_text(alloc, kernel.notes())?;
    push_end(alloc, &mut report, kernel)?;
    Ok(report)
}

/// What the report says of a run that wanted a line of input which couldn't be read, or want of memory.
pub fn report_unfed(alloc: Global, kernel: &Kernel) -> Result<Vec<u8>, OutOfMemory>
    ensures { IfOk result (λ report. report.items ≡ notes_text kernel.now ++ line_245) }
{
    let mut report = notes_text(alloc, kernel.notes())?;
    report.extend_from_slice(b"REX245 input\n")?;
    Ok(report)
}
