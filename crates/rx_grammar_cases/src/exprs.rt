// The expression of a source.
ghost use Rattle.std.specs.Prelude.{◌≤◌, ◌^◌, ◌<◌, length};
ghost use Rattle.rx_scan.specs.Depth.{bracket_depth};

use crate::sources::{Wanted, tell_source};
use crate::tokens::show_parts;
use rx_escape::{escape, unescape};
use rx_exprs::{DEEPEST, ParseRefused, Stops, parse_expr};
use rx_tree::{Expr, Name, Oper, SendPart, Token, Value};
use std::alloc::{AllocError, Global};

/// A text between quotes, with each quote in it doubled.
pub fn show_quoted(shown: &mut Vec<u8>, text: &[u8]) -> Result<(), AllocError> {
    shown.push(b'\'')?;
    for byte in text {
        if *byte == b'\'' {
            shown.push(b'\'')?;
        }
        shown.push(*byte)?;
    }
    shown.push(b'\'')?;
    Ok(())
}

/// A name as it is written, but for the parts of a tail.
pub fn show_name(shown: &mut Vec<u8>, name: &Name) -> Result<(), AllocError> {
    match name {
        Name::Simple(name) | Name::Stem(name) => shown.extend_from_slice(name.bytes()),
        Name::Compound(stem, tail) => {
            shown.extend_from_slice(stem.bytes())?;
            show_parts(shown, tail.as_slice())
        }
    }
}

fn show_oper(alloc: Global, shown: &mut Vec<u8>, oper: Oper) -> Result<(), AllocError> {
    let name = format!(in alloc; "{oper:?}")?;
    shown.extend_from_slice(name.as_bytes())
}

/// Arguments with commas between them; one that is omitted is a hyphen.
#[cycle(show)]
pub fn show_args(
    alloc: Global,
    shown: &mut Vec<u8>,
    args: &[Option<Expr>],
    brackets: (u8, u8),
) -> Result<(), AllocError> {
    shown.push(brackets.0)?;
    let mut first = true;
    for arg in args {
        if !first {
            shown.push(b',')?;
        }
        first = false;
        match arg {
            None => shown.push(b'-')?,
            Some(arg) => show_expr(alloc, shown, arg)?,
        }
    }
    shown.push(brackets.1)?;
    Ok(())
}

/// A message: its name between quotes, then the class that its search begins at, and then its arguments, if it has some.
#[cycle(show)]
pub fn show_message(alloc: Global, shown: &mut Vec<u8>, part: &SendPart) -> Result<(), AllocError> {
    if part.bracket {
        return show_args(alloc, shown, part.args.as_slice(), (b'[', b']'));
    }
    shown.extend_from_slice(if part.back { b"~~" } else { b"~" })?;
    show_quoted(shown, part.name.bytes())?;
    if let Some(class) = &part.above {
        shown.push(b':')?;
        shown.extend_from_slice(class.bytes())?;
    }
    if part.args.is_empty() {
        return Ok(());
    }
    show_args(alloc, shown, part.args.as_slice(), (b'(', b')'))
}

#[cycle(show)]
fn show_terms(
    alloc: Global,
    shown: &mut Vec<u8>,
    terms: &[(Oper, Expr)],
) -> Result<(), AllocError> {
    for (oper, term) in terms {
        shown.push(b' ')?;
        show_oper(alloc, shown, *oper)?;
        shown.push(b' ')?;
        show_expr(alloc, shown, term)?;
    }
    Ok(())
}

#[cycle(show)]
fn show_messages(alloc: Global, shown: &mut Vec<u8>, parts: &[SendPart]) -> Result<(), AllocError> {
    for part in parts {
        shown.push(b' ')?;
        show_message(alloc, shown, part)?;
    }
    Ok(())
}

/// An expression: a constant between quotes, a name, a prefix in square brackets, a chain in braces, a message term between
/// `<` and `>`, a group in parentheses, and a function as it is written. Operators have their names.
#[cycle(show)]
pub fn show_expr(alloc: Global, shown: &mut Vec<u8>, expr: &Expr) -> Result<(), AllocError> {
    match expr {
        Expr::Const(Value::Str(text)) => show_quoted(shown, text.bytes()),
        Expr::Const(Value::Ref(_)) => shown.extend_from_slice(b"#"),
        Expr::Name(name) => show_name(shown, name),
        Expr::Environment(name) => shown.extend_from_slice(name.bytes()),
        Expr::Prefix(opers, term) => {
            shown.push(b'[')?;
            for oper in opers.as_slice() {
                show_oper(alloc, shown, *oper)?;
                shown.push(b' ')?;
            }
            show_expr(alloc, shown, term.get())?;
            shown.extend_from_slice(b"]")
        }
        Expr::Chain(first, terms) => {
            shown.push(b'{')?;
            show_expr(alloc, shown, first.get())?;
            show_terms(alloc, shown, terms.as_slice())?;
            shown.extend_from_slice(b"}")
        }
        Expr::Group(inner) => {
            shown.push(b'(')?;
            show_expr(alloc, shown, inner.get())?;
            shown.extend_from_slice(b")")
        }
        Expr::Function(name, is_string, args) => {
            if *is_string {
                show_quoted(shown, name.bytes())?;
            } else {
                shown.extend_from_slice(name.bytes())?;
            }
            show_args(alloc, shown, args.as_slice(), (b'(', b')'))
        }
        Expr::Sends(receiver, parts) => {
            shown.push(b'<')?;
            show_expr(alloc, shown, receiver.get())?;
            show_messages(alloc, shown, parts.as_slice())?;
            shown.extend_from_slice(b">")
        }
        Expr::Hole => shown.extend_from_slice(b"?"),
    }
}

/// The expression of some tokens as text, and the place where it ends; or why there is none.
pub fn tell_expr_at(
    alloc: Global,
    tokens: &[Token],
    from: u32,
    stops: Stops,
) -> Result<String, AllocError>
    requires few { length tokens.now < 2 ^ 32 }
    requires shallow { bracket_depth tokens.now ≤ DEEPEST }
{
    if from as usize > tokens.len() {
        return format!(in alloc; "too far");
    }
    match parse_expr(alloc, tokens, from, stops) {
        Ok((expr, end)) => {
            let mut shown = Vec::new(alloc);
            show_expr(alloc, &mut shown, &expr)?;
            let shown = escape(alloc, shown.as_slice())?;
            format!(in alloc; "{shown} to {end}")
        }
        Err(ParseRefused::Bad { at, number }) => format!(in alloc; "error {number} at {at}"),
        Err(ParseRefused::OutOfMemory) => Err(AllocError),
    }
}

// The stop words of a name.
fn stops_of(name: &str) -> Option<Stops> {
    let sets = [
        ("Nothing", Stops::Nothing),
        ("Then", Stops::Then),
        ("Loop", Stops::Loop),
        ("With", Stops::With),
        ("Raise", Stops::Raise),
    ];
    for (word, stops) in sets {
        if word == name {
            return Some(stops);
        }
    }
    None
}

/// What a case comes to: the name of a set of stop words, the place of a token, and a source.
pub fn tell_expr(alloc: Global, case: &str) -> Result<String, AllocError> {
    let Some((name, rest)) = case.split_once(' ') else {
        return format!(in alloc; "no case");
    };
    let Some((place, source)) = rest.split_once(' ') else {
        return format!(in alloc; "no case");
    };
    let (Some(stops), Ok(from)) = (stops_of(name), place.parse::<u32>()) else {
        return format!(in alloc; "no case");
    };
    let source = unescape(alloc, source.as_bytes())?;
    tell_source(alloc, source.as_slice(), Wanted::Expr(from, stops))
}
