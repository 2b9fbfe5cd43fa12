// Calls on the rows of Messages.
use crate::line::Line;
use crate::told::{told_bytes, told_item, told_value, told_word};
use rx_heap::{MessageRow, OutOfMemory, Outcome};
use std::alloc::Global;

fn told_outcome(alloc: Global, outcome: &Outcome) -> Result<String, OutOfMemory> {
    match outcome {
        Outcome::Waiting => told_word(alloc, "waiting"),
        Outcome::Given(value) => {
            let value = told_value(alloc, value)?;
            Ok(format!(in alloc; "given {value}")?)
        }
        Outcome::Failed(number) => Ok(format!(in alloc; "failed {number}")?),
    }
}

/// What a row has.
pub fn told_row(alloc: Global, row: &MessageRow) -> Result<String, OutOfMemory> {
    let target = told_value(alloc, &row.target)?;
    let name = told_bytes(alloc, row.name.bytes())?;
    let outcome = told_outcome(alloc, &row.outcome)?;
    let used = if row.used { "used" } else { "unused" };
    let mut told = format!(in alloc; "{target} [{name}] {used} {outcome}")?;
    for argument in row.args.as_slice() {
        let argument = told_item(alloc, argument.as_ref())?;
        told.push_str(" (")?;
        told.push_str(argument.as_str())?;
        told.push_str(")")?;
    }
    for activity in row.notify.as_slice() {
        let activity = format!(in alloc; " {activity}")?;
        told.push_str(activity.as_str())?;
    }
    Ok(told)
}

/// Changes a row as a line says, and answers whether it says so.
pub fn change_row(alloc: Global, line: &Line, row: &mut MessageRow) -> Result<bool, OutOfMemory> {
    match line.word(0) {
        b"target" => row.target = line.value(alloc, 2)?,
        b"name" => row.name = line.text(alloc, 2)?,
        b"argument" => row.args.push(Some(line.value(alloc, 2)?))?,
        b"use" => row.used = true,
        b"give" => row.outcome = Outcome::Given(line.value(alloc, 2)?),
        b"fail" => row.outcome = Outcome::Failed(line.number(2).min(255) as u8),
        b"notify" => row.notify.push(line.number(2))?,
        _ => return Ok(false),
    }
    Ok(true)
}
