// The main body of a source, and what its directives make.
ghost use Rattle.std.specs.Prelude.{◌≤◌, ◌^◌, ◌<◌, length};
ghost use Rattle.rx_scan.specs.Depth.{bracket_depth};

use crate::bodies::show_clauses;
use crate::instructions::show_text;
use crate::sources::{Wanted, tell_source};
use rx_clause_tree::Body;
use rx_clauses::parse_clauses;
use rx_directives::{Directive, bodies_of, classes_of, parse_directives, routines_of};
use rx_escape::{escape, unescape};
use rx_exprs::{DEEPEST, ParseRefused};
use rx_tree::{ClassDef, MethodDef, OutOfMemory, Text, Token};
use sqlite_items::Items;
use std::alloc::{AllocError, Global};

// The most directives of a source, which has a byte for each at least.
const MOST_DIRECTIVES: usize = 4_194_304;

fn show_method(alloc: Global, shown: &mut Vec<u8>, method: &MethodDef) -> Result<(), AllocError> {
    let body = method.body;
    show_text(shown, " [")?;
    shown.extend_from_slice(method.name.bytes())?;
    let number = format!(in alloc; " {body}")?;
    shown.extend_from_slice(number.as_bytes())?;
    if method.class_side {
        show_text(shown, " class")?;
    }
    if method.private {
        show_text(shown, " private")?;
    }
    if !method.guarded {
        show_text(shown, " unguarded")?;
    }
    show_text(shown, "]")
}

fn show_class(alloc: Global, shown: &mut Vec<u8>, class: &ClassDef) -> Result<(), AllocError> {
    let line = class.line;
    let begun = format!(in alloc; "; class {line} ")?;
    shown.extend_from_slice(begun.as_bytes())?;
    shown.extend_from_slice(class.name.bytes())?;
    show_text(shown, if class.mixin { " mixin of " } else { " of " })?;
    shown.extend_from_slice(class.parent.bytes())?;
    for name in class.inherits.as_slice() {
        show_text(shown, " and ")?;
        shown.extend_from_slice(name.bytes())?;
    }
    for method in class.methods.as_slice() {
        show_method(alloc, shown, method)?;
    }
    Ok(())
}

fn show_routine(
    alloc: Global,
    shown: &mut Vec<u8>,
    routine: &(Text, u32),
) -> Result<(), AllocError> {
    let body = routine.1;
    show_text(shown, "; routine ")?;
    shown.extend_from_slice(routine.0.bytes())?;
    let number = format!(in alloc; " {body}")?;
    shown.extend_from_slice(number.as_bytes())
}

// What directives make: bodies, classes and routines.
struct Made {
    bodies: Items<Body>,
    classes: Items<ClassDef>,
    routines: Items<(Text, u32)>,
}

impl Drop for Made {
    fn drop(self) {
        let Made {
            bodies: _,
            classes: _,
            routines: _,
        } = self;
    }
}

fn made_by(alloc: Global, directives: Items<Directive>) -> Result<Made, OutOfMemory> {
    if directives.len() > MOST_DIRECTIVES {
        return Err(OutOfMemory);
    }
    let classes = classes_of(alloc, directives.as_slice())?;
    let routines = routines_of(alloc, directives.as_slice())?;
    let bodies = bodies_of(alloc, directives)?;
    Ok(Made {
        bodies,
        classes,
        routines,
    })
}

fn show_made(alloc: Global, shown: &mut Vec<u8>, made: &Made) -> Result<(), AllocError> {
    for body in made.bodies.as_slice() {
        show_text(shown, " ")?;
        show_clauses(alloc, shown, body.clauses.as_slice())?;
    }
    for class in made.classes.as_slice() {
        show_class(alloc, shown, class)?;
    }
    for routine in made.routines.as_slice() {
        show_routine(alloc, shown, routine)?;
    }
    Ok(())
}

fn tell_directives(
    alloc: Global,
    main: &Body,
    directives: Items<Directive>,
) -> Result<String, AllocError> {
    let Ok(made) = made_by(alloc, directives) else {
        return Err(AllocError);
    };
    let mut shown = Vec::new(alloc);
    show_clauses(alloc, &mut shown, main.clauses.as_slice())?;
    show_made(alloc, &mut shown, &made)?;
    escape(alloc, shown.as_slice())
}

fn tell_refusal(alloc: Global, refused: ParseRefused) -> Result<String, AllocError> {
    match refused {
        ParseRefused::Bad { at, number } => format!(in alloc; "error {number} at {at}"),
        ParseRefused::OutOfMemory => Err(AllocError),
    }
}

/// The main body of some tokens and what the directives behind it make, as text; or why there are none.
pub fn tell_package_at(alloc: Global, tokens: &[Token]) -> Result<String, AllocError>
    requires few { length tokens.now < 2 ^ 32 }
    requires shallow { bracket_depth tokens.now ≤ DEEPEST }
{
    let (main, end) = match parse_clauses(alloc, tokens, 0) {
        Ok(found) => found,
        Err(refused) => return tell_refusal(alloc, refused),
    };
    match parse_directives(alloc, tokens, end) {
        Ok(directives) => tell_directives(alloc, &main, directives),
        Err(refused) => tell_refusal(alloc, refused),
    }
}

/// What a case comes to, a source.
pub fn tell_package(alloc: Global, case: &str) -> Result<String, AllocError> {
    let source = unescape(alloc, case.as_bytes())?;
    tell_source(alloc, source.as_slice(), Wanted::Package)
}
