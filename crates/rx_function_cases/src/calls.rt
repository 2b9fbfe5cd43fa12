// Calls by name, and what they read besides their arguments.
ghost use Rattle.std.specs.Prelude.{◌≤◌};

use crate::answer::{Answer, refusal};
use crate::argument::{Arguments, text_of};
use rx_builtin::{Facts, argument_object, is_builtin};
use rx_tree::{Caught, Shared};
use sqlite_items::Items;
use std::alloc::{AllocError, Global};

fn shared<T: Drop>(alloc: Global, items: Items<T>) -> Result<Shared<T>, AllocError> {
    Shared::new(alloc, items).map_err(|_| AllocError)
}

/// What calls read before any line sets something.
pub fn first_facts(alloc: Global) -> Result<Facts, AllocError> {
    Ok(Facts {
        digits: 9,
        arguments: shared(alloc, Items::new(alloc))?,
        queued: 0,
        condition: None,
        lines: shared(alloc, Items::new(alloc))?,
    })
}

// The condition that was trapped last: its name, its detail, and CALL or SIGNAL; none where nothing is given.
fn caught(alloc: Global, given: &Arguments) -> Result<Option<Caught>, AllocError> {
    if given.is_empty() {
        return Ok(None);
    }
    Ok(Some(Caught {
        name: text_of(alloc, given.text(0))?,
        detail: text_of(alloc, given.text(1))?,
        by_call: given.text(2) == b"CALL".as_slice(),
    }))
}

/// Whether a line sets what calls read, by its first word; then it does.
pub fn set(
    alloc: Global,
    facts: &mut Facts,
    word: &str,
    given: &Arguments,
) -> Result<bool, AllocError> {
    match word {
        "digits" => facts.digits = given.count(0).clamp(1, 18) as u8,
        "queued" => facts.queued = given.count(0),
        "arguments" => facts.arguments = shared(alloc, given.values(alloc)?)?,
        "trapped" => facts.condition = caught(alloc, given)?,
        "lines" => facts.lines = shared(alloc, given.given_texts(alloc)?)?,
        _ => return Ok(false),
    }
    Ok(true)
}

/// What a call of the function of a name comes to.
pub fn call(
    alloc: Global,
    name: &str,
    given: &Arguments,
    facts: &Facts,
) -> Result<Answer, AllocError> {
    let name = name.as_bytes();
    if !is_builtin(name) || facts.digits < 1 || facts.digits > 18 {
        return Ok(Answer::Unknown);
    }
    let args = given.texts(alloc)?;
    if name == b"ARG".as_slice() {
        if let Some(object) = argument_object(args.as_slice(), facts) {
            return Ok(Answer::Object(object));
        }
    }
    match rx_builtin::call(alloc, name, args.as_slice(), facts) {
        Ok(text) => Ok(Answer::Text(Vec::from_slice(alloc, text.bytes())?)),
        Err(refused) => refusal(refused),
    }
}
