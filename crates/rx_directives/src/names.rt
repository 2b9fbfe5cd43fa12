// The names of directives.
ghost use Rattle.rx_exprs.specs.Reads.{Reads};
ghost use Rattle.rx_directives.specs.Reader as spec;

use crate::directive::AttributeName;
use crate::numbers::NO_NAME;
use crate::words::{attribute_of, title_of};
use rx_exprs::{Cursor, Refused, name_of};
use rx_tree::Text;
use std::alloc::Global;

/// The name of a class or a method, in upper case.
pub fn title(alloc: Global, tokens: &mut Cursor<'_>) -> Result<Text, Refused>
    ensures { Reads (spec.title tokens.old) result tokens.new }
{
    if let [token, behind @ ..] = tokens.rest() {
        if let Some(name) = title_of(alloc, &token.kind)? {
            tokens.go_to(behind);
            return Ok(name);
        }
    }
    Err(tokens.lack(NO_NAME))
}

/// The name of a routine. The letters of a string stay as they stand.
pub fn routine_name(alloc: Global, tokens: &mut Cursor<'_>) -> Result<Text, Refused>
    ensures { Reads (spec.routine_name tokens.old) result tokens.new }
{
    if let [token, behind @ ..] = tokens.rest() {
        if let Some(name) = name_of(alloc, &token.kind)? {
            tokens.go_to(behind);
            return Ok(name);
        }
    }
    Err(tokens.lack(NO_NAME))
}

/// The name of an attribute.
pub fn attribute_name(alloc: Global, tokens: &mut Cursor<'_>) -> Result<AttributeName, Refused>
    ensures { Reads (spec.attribute_at tokens.old) result tokens.new }
{
    let [token, behind @ ..] = tokens.rest() else {
        return Err(tokens.lack(NO_NAME));
    };
    let Some(name) = title_of(alloc, &token.kind)? else {
        return Err(tokens.lack(NO_NAME));
    };
    let Some(variable) = attribute_of(alloc, &token.kind)? else {
        return Err(tokens.lack(NO_NAME));
    };
    tokens.go_to(behind);
    Ok(AttributeName { name, variable })
}
