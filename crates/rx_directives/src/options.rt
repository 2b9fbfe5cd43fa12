// What is said of methods and attributes behind their names.
ghost use Rattle.rx_exprs.specs.Reads.{Reads};
ghost use Rattle.rx_directives.specs.DirectiveWords.{no_options};
ghost use Rattle.rx_directives.specs.Reader as spec;

use crate::directive::Options;
use crate::numbers::NO_OPTION;
use crate::words::option_of;
use rx_clauses::eat_end;
use rx_exprs::{Cursor, Refused};

// One option more.
fn option(tokens: &mut Cursor<'_>, read: Options) -> Result<Options, Refused>
    ensures { Reads (spec.option read tokens.old) result tokens.new }
{
    let [token, behind @ ..] = tokens.rest() else {
        return Err(tokens.lack(NO_OPTION));
    };
    let Some(said) = option_of(&token.kind) else {
        return Err(tokens.lack(NO_OPTION));
    };
    let Some(now) = read.with(said) else {
        return Err(tokens.lack(NO_OPTION));
    };
    tokens.go_to(behind);
    Ok(now)
}

/// What is said of a method or an attribute, and the end of the clause.
#[tactic(auto, using(crate::proofs::Lists::option_lists))]
pub fn options(tokens: &mut Cursor<'_>) -> Result<Options, Refused>
    ensures { Reads (spec.options no_options tokens.old) result tokens.new }
{
    let mut read = Options::NONE;
    while !eat_end(tokens) {
        read = option(tokens, read)?;
    }
    Ok(read)
}

/// What is said of a method, and the end of the clause.
pub fn method_options(tokens: &mut Cursor<'_>) -> Result<Options, Refused>
    ensures { Reads (spec.method_options tokens.old) result tokens.new }
{
    let here = tokens.rest();
    let options = options(tokens)?;
    if options.access.is_some() {
        tokens.go_to(here);
        return Err(tokens.lack(NO_OPTION));
    }
    Ok(options)
}
