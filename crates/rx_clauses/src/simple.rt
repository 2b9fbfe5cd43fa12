// Instructions that hold no other clause, by their word.
ghost use Rattle.std.specs.Prelude.{◌≡◌};
ghost use Rattle.rx_exprs.specs.Reads.{Reads};
ghost use Rattle.rx_clause_tree.specs.Loops as trees;
ghost use Rattle.rx_clauses.specs.Looping as looping;
ghost use Rattle.rx_clauses.specs.Reader as spec;

use crate::forwards::forward;
use crate::keyword::Word;
use crate::loops::loop_name;
use crate::names::same_name;
use crate::numbers::NO_LOOP;
use crate::parts::given;
use crate::plain::{digits, drop_names, guard, raise, trace, use_instruction};
use crate::templates::{parse, parse_by};
use crate::tokens::to_end;
use crate::traps::{call, signal};
use rx_clause_tree::{ParseFrom, Simple};
use rx_exprs::{Cursor, Refused};
use rx_tree::Name;
use std::alloc::Global;

// Whether a loop runs by a variable.
fn is_name(name: &Name, control: &Option<Name>) -> bool
    ensures { result ≡ trees.is_name name.now control.now }
{
    match control {
        Some(other) => same_name(name, other),
        None => false,
    }
}

// Whether one of these loops runs by a variable.
fn runs_by(name: &Name, loops: &[Option<Name>]) -> bool
    ensures { result ≡ trees.runs_by name.now loops.now }
{
    let mut rest = loops;
    while let [control, behind @ ..] = rest {
        if is_name(name, control) {
            return true;
        }
        rest = behind;
    }
    false
}

// Whether there is a loop that is meant.
fn are_around(name: &Option<Name>, loops: &[Option<Name>]) -> bool
    ensures { result ≡ trees.are_around name.now loops.now }
{
    match name {
        Some(name) => runs_by(name, loops),
        None => !loops.is_empty(),
    }
}

// The loop that LEAVE and ITERATE mean, which must be around them.
fn meant(
    alloc: Global,
    tokens: &mut Cursor<'_>,
    loops: &[Option<Name>],
) -> Result<Option<Name>, Refused>
    ensures { Reads (looping.meant loops.now tokens.old) result tokens.new }
{
    let here = tokens.rest();
    let name = loop_name(alloc, tokens)?;
    if !are_around(&name, loops) {
        tokens.go_to(here);
        return Err(tokens.lack(NO_LOOP));
    }
    Ok(name)
}

/// An instruction that holds no other clause, behind its word.
#[tactic(auto, using(crate::proofs::Ways::meants), unfolding(crate::specs::Reader::simple))]
pub(crate) fn read_simple(
    alloc: Global,
    tokens: &mut Cursor<'_>,
    loops: &[Option<Name>],
    word: Word,
) -> Result<Simple, Refused>
    ensures { Reads (spec.simple loops.now word tokens.old) result tokens.new }
{
    match word {
        Word::Say => Ok(Simple::Say(given(alloc, tokens)?)),
        Word::Leave => Ok(Simple::Leave(meant(alloc, tokens, loops)?)),
        Word::Iterate => Ok(Simple::Iterate(meant(alloc, tokens, loops)?)),
        Word::Nop => to_end(Simple::Nop, tokens),
        Word::Call => call(alloc, tokens),
        Word::Return => Ok(Simple::Return(given(alloc, tokens)?)),
        Word::Exit => Ok(Simple::Exit(given(alloc, tokens)?)),
        Word::Signal => signal(alloc, tokens),
        Word::Use => use_instruction(alloc, tokens),
        Word::Parse => Ok(Simple::Parse(parse(alloc, tokens)?)),
        Word::Arg => Ok(Simple::Parse(parse_by(alloc, tokens, true, ParseFrom::Arg)?)),
        Word::Pull => Ok(Simple::Parse(parse_by(alloc, tokens, true, ParseFrom::Pull)?)),
        Word::Push => Ok(Simple::Push(given(alloc, tokens)?)),
        Word::Queue => Ok(Simple::Queue(given(alloc, tokens)?)),
        Word::Drop => drop_names(alloc, tokens),
        Word::Numeric => digits(alloc, tokens),
        Word::Guard => guard(alloc, tokens),
        Word::Reply => Ok(Simple::Reply(given(alloc, tokens)?)),
        Word::Forward => Ok(Simple::Forward(forward(alloc, tokens)?)),
        Word::Raise => raise(alloc, tokens),
        Word::Trace => trace(tokens),
    }
}
