// How a run stands, as text.
use rx_escape::escape;
use rx_kernel::Kernel;
use rx_machine::{Cause, End, WaitRow};
use rx_tree::Note;
use std::alloc::{AllocError, Global};

fn end_name(end: End) -> &'static str {
    match end {
        End::Going => "going",
        End::Finished => "finished",
        End::Stuck => "stuck",
        End::Spent => "spent",
    }
}

fn show_note(alloc: Global, text: &mut String, note: &Note) -> Result<(), AllocError> {
    let Note::Error {
        number,
        line,
        activity,
    } = note;
    let shown = format!(in alloc; " error {number} line {line} activity {activity}")?;
    text.push_str(shown.as_str())
}

fn show_wait(alloc: Global, text: &mut String, row: &WaitRow) -> Result<(), AllocError> {
    let activity = row.activity;
    let shown = match &row.cause {
        Cause::Pool {
            object,
            scope,
            class_side: _,
            holder,
        } => {
            let scope = escape(alloc, scope.bytes())?;
            format!(in alloc;
                " activity {activity} waits for pool {object}.{scope} held by activity {holder}"
            )?
        }
        Cause::Message(message) => {
            format!(in alloc; " activity {activity} waits for message {message}")?
        }
    };
    text.push_str(shown.as_str())
}

/// How a run stands: how it ended, the number of its steps, its output, and its report.
pub fn show_run(alloc: Global, kernel: &Kernel) -> Result<String, AllocError> {
    let end = kernel.finish();
    let name = end_name(end);
    let steps = kernel.steps();
    let output = escape(alloc, kernel.output())?;
    let mut text = format!(in alloc; "{name} {steps} <{output}>")?;
    for note in kernel.notes() {
        show_note(alloc, &mut text, note)?;
    }
    if end == End::Stuck {
        let Ok(rows) = kernel.waits(alloc) else {
            return String::from_str(alloc, "want of memory");
        };
        for row in rows.as_slice() {
            show_wait(alloc, &mut text, row)?;
        }
    }
    Ok(text)
}
