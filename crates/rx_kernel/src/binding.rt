// The values in the templates of PARSE.
ghost use Rattle.std.specs.Prelude.{◌≡◌, ◌≤◌, ◌++◌, ℕ, length, IfOk, OnOk};
ghost use Rattle.rx_tree.specs.Bytes.{longest};
ghost use Rattle.rx_frames.specs.Activities.{IsBegun};
ghost use Rattle.rx_names.specs.Deriving.{spelled, text_of};
ghost use Rattle.rx_names.specs.Homes.{value, variables_at};
ghost use Rattle.rx_machine.specs.Templates as spec;
ghost use Rattle.rx_kernel.specs.Parsing.{IsRead, bound_one, bounds_of};

use crate::texts::{spelled_text, value_text};
use rx_clause_tree::{Distance, Template, TemplatePart};
use rx_frames::Stacks;
use rx_names::{NamesRefused, derive, value};
use rx_pools::Pools;
use rx_template::TPart;
use rx_tree::{Derived, Name, OutOfMemory, Text};
use rx_whole::{Numeral, read_number};
use sqlite_items::Items;
use std::alloc::{AllocError, Global};

/// The error of a position that is no whole number, or is negative.
const INVALID_WHOLE_NUMBER: u8 = 26;

/// The error of a number of too many digits.
const BAD_ARITHMETIC: u8 = 42;

/// The error of a name that is too long.
const RESOURCES_EXHAUSTED: u8 = 5;

/// Why the values in templates aren't known.
#[derive(Clone, Copy, Debug, PartialEq, Eq)]
pub(crate) enum BindRefused {
    /// The error of this number is raised.
    Raised(u8),
    OutOfMemory,
}

impl From<OutOfMemory> for BindRefused {
    ghost use Rattle.rx_kernel.specs.declared.binding.BindRefused.TheVariants as refused;

    ghost from_gives = { λ _ e. e ≡ refused.OutOfMemory };

    fn from(_error: OutOfMemory) -> BindRefused {
        BindRefused::OutOfMemory
    }
}

impl From<AllocError> for BindRefused {
    ghost use Rattle.rx_kernel.specs.declared.binding.BindRefused.TheVariants as refused;

    ghost from_gives = { λ _ e. e ≡ refused.OutOfMemory };

    fn from(_error: AllocError) -> BindRefused {
        BindRefused::OutOfMemory
    }
}

/// A template whose values are known, with the variables that get its pieces, by their numbers in it.
#[derive(Drop)]
pub(crate) struct Bound {
    pub targets: Items<Name>,
    pub template: rx_template::Template,
}

// The text of a variable: that of its value, or its own name where it has none.
fn text_at(
    alloc: Global,
    stacks: &Stacks,
    pools: &Pools,
    a: u32,
    name: &Derived,
) -> Result<Text, OutOfMemory>
    requires begun { IsBegun stacks.now a }
    requires short { length (spelled name.now) ≤ longest }
    ensures { IfOk result
        (λ text. text ≡ text_of (value (variables_at stacks.now a) pools.now name.now) (spelled name.now)) }
{
    match value(stacks, pools, a, name) {
        Some(value) => value_text(alloc, value),
        None => spelled_text(alloc, name),
    }
}

// The text of `(v)`.
fn variable_text(
    alloc: Global,
    stacks: &Stacks,
    pools: &Pools,
    a: u32,
    name: &Name,
) -> Result<Text, BindRefused>
    requires begun { IsBegun stacks.now a }
    ensures { IsRead result (spec.variable_text (variables_at stacks.now a) pools.now name.now) }
{
    match derive(alloc, stacks, pools, a, name) {
        Ok(name) => Ok(text_at(alloc, stacks, pools, a, &name)?),
        Err(NamesRefused::Long) => Err(BindRefused::Raised(RESOURCES_EXHAUSTED)),
        Err(NamesRefused::OutOfMemory) => Err(BindRefused::OutOfMemory),
    }
}

// The text that tells how far a position is.
fn distance_text(
    alloc: Global,
    stacks: &Stacks,
    pools: &Pools,
    a: u32,
    distance: &Distance,
) -> Result<Text, BindRefused>
    requires begun { IsBegun stacks.now a }
    ensures { IsRead result (spec.distance_text (variables_at stacks.now a) pools.now distance.now) }
{
    match distance {
        Distance::Number(digits) => Ok(digits.share()?),
        Distance::Value(name) => variable_text(alloc, stacks, pools, a, name),
    }
}

// A position is a whole number that isn't negative.
fn position_of(numeral: Numeral) -> Result<u64, BindRefused>
    ensures { IsRead result (spec.position_of numeral) }
{
    match numeral {
        Numeral::Whole(number) if number >= 0 => Ok(number as u64),
        Numeral::Long => Err(BindRefused::Raised(BAD_ARITHMETIC)),
        Numeral::Whole(_) | Numeral::NoNumber => Err(BindRefused::Raised(INVALID_WHOLE_NUMBER)),
    }
}

// How far a position is.
fn distance(
    alloc: Global,
    stacks: &Stacks,
    pools: &Pools,
    a: u32,
    distance: &Distance,
) -> Result<u64, BindRefused>
    requires begun { IsBegun stacks.now a }
    ensures { IsRead result (spec.distance (variables_at stacks.now a) pools.now distance.now) }
{
    let text = distance_text(alloc, stacks, pools, a, distance)?;
    position_of(read_number(text.bytes()))
}

// A string that is sought.
fn literal(alloc: Global, text: &Text) -> Result<TPart, OutOfMemory>
    ensures { IfOk result (λ part. part ≡ TPart.Literal text.now) }
{
    Ok(TPart::Literal(Items::from_slice(alloc, text.bytes())?))
}

// A part of a template, where a target would have this number.
fn bind_part(
    alloc: Global,
    stacks: &Stacks,
    pools: &Pools,
    a: u32,
    number: u32,
    part: &TemplatePart,
) -> Result<TPart, BindRefused>
    requires begun { IsBegun stacks.now a }
    ensures { IsRead result (spec.bound_part (variables_at stacks.now a) pools.now number part.now) }
{
    match part {
        TemplatePart::Target(_) => Ok(TPart::Target(number)),
        TemplatePart::Period => Ok(TPart::Period),
        TemplatePart::Literal(text) => Ok(literal(alloc, text)?),
        TemplatePart::Pattern(name) => {
            let text = variable_text(alloc, stacks, pools, a, name)?;
            Ok(literal(alloc, &text)?)
        }
        TemplatePart::At(at) => Ok(TPart::At(distance(alloc, stacks, pools, a, at)?)),
        TemplatePart::Forward(count) => {
            Ok(TPart::Forward(distance(alloc, stacks, pools, a, count)?))
        }
        TemplatePart::Backward(count) => {
            Ok(TPart::Backward(distance(alloc, stacks, pools, a, count)?))
        }
    }
}

// The number of the target behind these.
fn next_number(targets: &[Name]) -> Result<u32, OutOfMemory>
    ensures { IfOk result (λ number. number ≡ length targets.now) }
{
    // It never comes: a template with so many targets has no room.
    if targets.len() > u32::MAX as usize {
        return Err(OutOfMemory);
    }
    Ok(targets.len() as u32)
}

// Notes the variable of a part that is a target.
fn note_target(
    alloc: Global,
    targets: &mut Items<Name>,
    part: &TemplatePart,
) -> Result<(), OutOfMemory>
    ensures { OnOk result (targets.new ≡ targets.old ++ spec.target_of part.now) }
{
    match part {
        TemplatePart::Target(name) => {
            let name = name.share(alloc)?;
            targets.push(name)?;
            Ok(())
        }
        _ => Ok(()),
    }
}

// A template, once the values in it are known.
fn bind(
    alloc: Global,
    stacks: &Stacks,
    pools: &Pools,
    a: u32,
    template: &Template,
) -> Result<Bound, BindRefused>
    requires begun { IsBegun stacks.now a }
    ensures { IsRead result (bound_one (variables_at stacks.now a) pools.now template.now) }
{
    let mut targets = Items::new(alloc);
    let mut parts = Items::new(alloc);
    for part in template.parts.as_slice() {
        let number = next_number(targets.as_slice())?;
        let one = bind_part(alloc, stacks, pools, a, number, part)?;
        parts.push(one)?;
        note_target(alloc, &mut targets, part)?;
    }
    Ok(Bound {
        targets,
        template: rx_template::Template { parts },
    })
}

/// All templates, once the values in them are known, which an activity's frame on top has for its variables.
pub(crate) fn bind_all(
    alloc: Global,
    stacks: &Stacks,
    pools: &Pools,
    a: u32,
    templates: &[Template],
) -> Result<Items<Bound>, BindRefused>
    requires begun { IsBegun stacks.now a }
    ensures { IsRead result (bounds_of (variables_at stacks.now a) pools.now templates.now) }
{
    let mut bounds = Items::new(alloc);
    for template in templates {
        let bound = bind(alloc, stacks, pools, a, template)?;
        bounds.push(bound)?;
    }
    Ok(bounds)
}
