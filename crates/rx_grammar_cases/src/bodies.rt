// The body of a source.
ghost use Rattle.std.specs.Prelude.{◌≤◌, ◌^◌, ◌<◌, length};
ghost use Rattle.rx_scan.specs.Depth.{bracket_depth};

use crate::exprs::{show_expr, show_name};
use crate::instructions::{show_simple, show_text};
use crate::sources::{Wanted, tell_source};
use rx_clause_tree::{Bound, Clause, ClauseKind, Header, Test, When};
use rx_clauses::parse_clauses;
use rx_escape::{escape, unescape};
use rx_exprs::{DEEPEST, ParseRefused};
use rx_tree::{Expr, Token};
use std::alloc::{AllocError, Global};

// A word and an expression.
fn show_with(
    alloc: Global,
    shown: &mut Vec<u8>,
    word: &str,
    expr: &Expr,
) -> Result<(), AllocError> {
    show_text(shown, word)?;
    show_expr(alloc, shown, expr)
}

fn show_bound(alloc: Global, shown: &mut Vec<u8>, bound: &Bound) -> Result<(), AllocError> {
    match bound {
        Bound::To(expr) => show_with(alloc, shown, " to ", expr),
        Bound::By(expr) => show_with(alloc, shown, " by ", expr),
        Bound::For(expr) => show_with(alloc, shown, " for ", expr),
    }
}

fn show_header(alloc: Global, shown: &mut Vec<u8>, header: &Header) -> Result<(), AllocError> {
    match header {
        Header::Forever => show_text(shown, "forever"),
        Header::Times(expr) => show_with(alloc, shown, "times ", expr),
        Header::Counts(name, first, bounds) => {
            show_name(shown, name)?;
            show_with(alloc, shown, " = ", first)?;
            for bound in bounds.as_slice() {
                show_bound(alloc, shown, bound)?;
            }
            Ok(())
        }
        Header::Over(name, expr) => {
            show_name(shown, name)?;
            show_with(alloc, shown, " over ", expr)
        }
    }
}

fn show_test(alloc: Global, shown: &mut Vec<u8>, test: &Test) -> Result<(), AllocError> {
    match test {
        Test::Never => Ok(()),
        Test::While(expr) => show_with(alloc, shown, " while ", expr),
        Test::Until(expr) => show_with(alloc, shown, " until ", expr),
    }
}

/// Clauses between `<` and `>`, with semicolons between them.
#[cycle(show)]
pub fn show_clauses(
    alloc: Global,
    shown: &mut Vec<u8>,
    clauses: &[Clause],
) -> Result<(), AllocError> {
    show_text(shown, "<")?;
    let mut first = true;
    for clause in clauses {
        if !first {
            show_text(shown, "; ")?;
        }
        first = false;
        show_clause(alloc, shown, clause)?;
    }
    show_text(shown, ">")
}

#[cycle(show)]
fn show_whens(alloc: Global, shown: &mut Vec<u8>, whens: &[When]) -> Result<(), AllocError> {
    for when in whens {
        show_with(alloc, shown, " when ", &when.test)?;
        show_text(shown, " <")?;
        show_clause(alloc, shown, &when.chosen)?;
        show_text(shown, ">")?;
    }
    Ok(())
}

// A clause that stands alone, behind a word.
#[cycle(show)]
fn show_inner(
    alloc: Global,
    shown: &mut Vec<u8>,
    word: &str,
    clause: &Clause,
) -> Result<(), AllocError> {
    show_text(shown, word)?;
    show_text(shown, " <")?;
    show_clause(alloc, shown, clause)?;
    show_text(shown, ">")
}

// A clause with its line.
#[cycle(show)]
fn show_clause(alloc: Global, shown: &mut Vec<u8>, clause: &Clause) -> Result<(), AllocError> {
    let line = format!(in alloc; "{} ", clause.line)?;
    shown.extend_from_slice(line.as_bytes())?;
    match &clause.kind {
        ClauseKind::Simple(simple) => show_simple(alloc, shown, simple),
        ClauseKind::If(test, chosen, other) => {
            show_with(alloc, shown, "if ", test)?;
            show_inner(alloc, shown, " then", chosen.get())?;
            match other {
                Some(other) => show_inner(alloc, shown, " else", other.get()),
                None => Ok(()),
            }
        }
        ClauseKind::Select(whens, other) => {
            show_text(shown, "select")?;
            show_whens(alloc, shown, whens.as_slice())?;
            match other {
                Some(clauses) => {
                    show_text(shown, " otherwise ")?;
                    show_clauses(alloc, shown, clauses.as_slice())
                }
                None => Ok(()),
            }
        }
        ClauseKind::Group(clauses) => {
            show_text(shown, "do ")?;
            show_clauses(alloc, shown, clauses.as_slice())
        }
        ClauseKind::Loop(header, test, clauses) => {
            show_text(shown, "loop ")?;
            show_header(alloc, shown, header)?;
            show_test(alloc, shown, test)?;
            show_text(shown, " ")?;
            show_clauses(alloc, shown, clauses.as_slice())
        }
    }
}

// Equal clauses, which are shown in place of these.
fn shares(alloc: Global, clauses: &[Clause]) -> Result<Vec<Clause>, AllocError> {
    let mut shared = Vec::new(alloc);
    for clause in clauses {
        let Ok(share) = clause.share(alloc) else {
            return Err(AllocError);
        };
        shared.push(share)?;
    }
    Ok(shared)
}

/// The body of some tokens as text, where its tree is asked for, and the place where it ends; or why there is none.
pub fn tell_body_at(
    alloc: Global,
    tokens: &[Token],
    from: u32,
    whole: bool,
) -> Result<String, AllocError>
    requires few { length tokens.now < 2 ^ 32 }
    requires shallow { bracket_depth tokens.now ≤ DEEPEST }
{
    if from as usize > tokens.len() {
        return format!(in alloc; "too far");
    }
    match parse_clauses(alloc, tokens, from) {
        Ok((body, end)) => {
            let mut shown = Vec::new(alloc);
            if whole {
                let shared = shares(alloc, body.clauses.as_slice())?;
                show_clauses(alloc, &mut shown, shared.as_slice())?;
            }
            let shown = escape(alloc, shown.as_slice())?;
            format!(in alloc; "{shown} to {end}")
        }
        Err(ParseRefused::Bad { at, number }) => format!(in alloc; "error {number} at {at}"),
        Err(ParseRefused::OutOfMemory) => Err(AllocError),
    }
}

/// What a case comes to: the place of a token, and a source.
pub fn tell_body(alloc: Global, case: &str) -> Result<String, AllocError> {
    let Some((place, source)) = case.split_once(' ') else {
        return format!(in alloc; "no case");
    };
    let Ok(from) = place.parse::<u32>() else {
        return format!(in alloc; "no case");
    };
    let source = unescape(alloc, source.as_bytes())?;
    tell_source(alloc, source.as_slice(), Wanted::Body(from, true))
}

/// What a case comes to: how often each of two texts stands, one behind the other, and the texts.
pub fn tell_deep(alloc: Global, case: &str) -> Result<String, AllocError> {
    let Some((times, texts)) = case.split_once('|') else {
        return format!(in alloc; "no case");
    };
    let (Ok(times), Some((first, second))) = (times.parse::<u32>(), texts.split_once('|')) else {
        return format!(in alloc; "no case");
    };
    let mut source = Vec::new(alloc);
    for _ in 0..times {
        source.extend_from_slice(first.as_bytes())?;
    }
    for _ in 0..times {
        source.extend_from_slice(second.as_bytes())?;
    }
    tell_source(alloc, source.as_slice(), Wanted::Body(0, false))
}
