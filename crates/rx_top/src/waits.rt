// The lines of a halt: what each live activity waits for.
ghost use Rattle.std.specs.Prelude.{◌≡◌, ◌++◌, OnOk};
ghost use Rattle.rx_machine.specs.Texts.{side_text, cause_text, wait_text, wait_lines};

use crate::digits::push_number;
use rx_machine::{Cause, WaitRow};
use std::alloc::AllocError;

// Appends what stands behind a scope: ` class` for the class's own side, nothing for that of its instances.
fn push_side(text: &mut Vec<u8>, class_side: bool) -> Result<(), AllocError>
    ensures { OnOk result (text.new.items ≡ text.old.items ++ side_text class_side) }
{
    if class_side {
        text.extend_from_slice(b" class")?;
    }
    Ok(())
}

// Appends which pool is waited for, and which activity holds it. The scope is the name of its class.
fn push_pool(
    text: &mut Vec<u8>,
    object: u32,
    scope: &[u8],
    class_side: bool,
    holder: u32,
) -> Result<(), AllocError>
    ensures { OnOk result (text.new.items ≡ text.old.items ++ cause_text (Cause.Pool object scope.now class_side holder)) }
{
    text.extend_from_slice(b"pool ")?;
    push_number(text, u64::from(object))?;
    text.push(b'.')?;
    text.extend_from_slice(scope)?;
    push_side(text, class_side)?;
    text.extend_from_slice(b" held by activity ")?;
    push_number(text, u64::from(holder))?;
    Ok(())
}

// Appends which Message is waited for.
fn push_message(text: &mut Vec<u8>, message: u32) -> Result<(), AllocError>
    ensures { OnOk result (text.new.items ≡ text.old.items ++ cause_text (Cause.Message message)) }
{
    text.extend_from_slice(b"message ")?;
    push_number(text, u64::from(message))
}

// Appends what is waited for.
fn push_cause(text: &mut Vec<u8>, cause: &Cause) -> Result<(), AllocError>
    ensures { OnOk result (text.new.items ≡ text.old.items ++ cause_text cause.now) }
{
    match cause {
        Cause::Pool {
            object,
            scope,
            class_side,
            holder,
        } => push_pool(text, *object, scope.bytes(), *class_side, *holder),
        Cause::Message(message) => push_message(text, *message),
    }
}

// Appends the line of an activity that waits.
fn push_wait(text: &mut Vec<u8>, row: &WaitRow) -> Result<(), AllocError>
    ensures { OnOk result (text.new.items ≡ text.old.items ++ wait_text row.now) }
{
    text.extend_from_slice(b"REX241 activity ")?;
    push_number(text, u64::from(row.activity))?;
    text.extend_from_slice(b" waits for ")?;
    push_cause(text, &row.cause)?;
    text.push(b'\n')?;
    Ok(())
}

/// Appends the lines of activities that wait, in order.
pub fn push_waits(text: &mut Vec<u8>, rows: &[WaitRow]) -> Result<(), AllocError>
    ensures { OnOk result (text.new.items ≡ text.old.items ++ wait_lines rows.now) }
{
    for row in rows {
        push_wait(text, row)?;
    }
    Ok(())
}
