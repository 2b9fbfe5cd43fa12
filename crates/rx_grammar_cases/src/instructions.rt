// Clauses that hold no other clause.
use crate::exprs::{show_args, show_expr, show_message, show_name, show_quoted};
use rx_clause_tree::{
    Distance, Forward, Forwarded, Parameter, Parse, ParseFrom, Routine, Simple, Template,
    TemplatePart, Trap,
};
use rx_tree::{Condition, Expr, Name, SendPart};
use std::alloc::{AllocError, Global};

/// A text.
pub fn show_text(shown: &mut Vec<u8>, text: &str) -> Result<(), AllocError> {
    shown.extend_from_slice(text.as_bytes())
}

// A word and a name.
fn show_named(shown: &mut Vec<u8>, word: &str, name: &[u8]) -> Result<(), AllocError> {
    show_text(shown, word)?;
    shown.push(b' ')?;
    shown.extend_from_slice(name)
}

// A word, and the expression behind it where there is one.
fn show_given(
    alloc: Global,
    shown: &mut Vec<u8>,
    word: &str,
    given: &Option<Expr>,
) -> Result<(), AllocError> {
    show_text(shown, word)?;
    if let Some(expr) = given {
        shown.push(b' ')?;
        show_expr(alloc, shown, expr)?;
    }
    Ok(())
}

// A word, and an expression where there is one; and nothing where there is none.
fn show_option(
    alloc: Global,
    shown: &mut Vec<u8>,
    word: &str,
    given: &Option<Expr>,
) -> Result<(), AllocError> {
    if given.is_none() {
        return Ok(());
    }
    show_given(alloc, shown, word, given)
}

// A word and names.
fn show_names(shown: &mut Vec<u8>, word: &str, names: &[Name]) -> Result<(), AllocError> {
    show_text(shown, word)?;
    for name in names {
        shown.push(b' ')?;
        show_name(shown, name)?;
    }
    Ok(())
}

// LEAVE or ITERATE.
fn show_meant(shown: &mut Vec<u8>, word: &str, name: &Option<Name>) -> Result<(), AllocError> {
    show_text(shown, word)?;
    if let Some(name) = name {
        shown.push(b' ')?;
        show_name(shown, name)?;
    }
    Ok(())
}

fn show_routine(alloc: Global, shown: &mut Vec<u8>, routine: &Routine) -> Result<(), AllocError> {
    show_text(shown, "call ")?;
    if routine.is_string {
        show_quoted(shown, routine.name.bytes())?;
    } else {
        shown.extend_from_slice(routine.name.bytes())?;
    }
    show_args(alloc, shown, routine.args.as_slice(), (b'(', b')'))
}

fn show_condition(
    shown: &mut Vec<u8>,
    word: &str,
    condition: &Condition,
) -> Result<(), AllocError> {
    show_text(shown, word)?;
    match condition {
        Condition::Syntax => show_text(shown, " syntax"),
        Condition::NoValue => show_text(shown, " novalue"),
        Condition::NoMethod => show_text(shown, " nomethod"),
        Condition::User(name) => show_named(shown, " user", name.bytes()),
    }
}

fn show_trap(shown: &mut Vec<u8>, word: &str, trap: &Trap) -> Result<(), AllocError> {
    show_condition(shown, word, &trap.condition)?;
    show_named(shown, " name", trap.label.bytes())
}

fn show_parameters(
    alloc: Global,
    shown: &mut Vec<u8>,
    word: &str,
    parameters: &[Parameter],
) -> Result<(), AllocError> {
    show_text(shown, word)?;
    for parameter in parameters {
        shown.push(b' ')?;
        show_name(shown, &parameter.name)?;
        show_option(alloc, shown, " =", &parameter.default)?;
    }
    Ok(())
}

fn show_distance(shown: &mut Vec<u8>, word: &str, distance: &Distance) -> Result<(), AllocError> {
    show_text(shown, word)?;
    match distance {
        Distance::Number(digits) => shown.extend_from_slice(digits.bytes()),
        Distance::Value(name) => {
            shown.push(b'(')?;
            show_name(shown, name)?;
            show_text(shown, ")")
        }
    }
}

fn show_part(shown: &mut Vec<u8>, part: &TemplatePart) -> Result<(), AllocError> {
    match part {
        TemplatePart::Target(name) => show_name(shown, name),
        TemplatePart::Period => show_text(shown, "."),
        TemplatePart::Literal(text) => show_quoted(shown, text.bytes()),
        TemplatePart::Pattern(name) => {
            shown.push(b'(')?;
            show_name(shown, name)?;
            show_text(shown, ")")
        }
        TemplatePart::At(place) => show_distance(shown, "=", place),
        TemplatePart::Forward(distance) => show_distance(shown, "+", distance),
        TemplatePart::Backward(distance) => show_distance(shown, "-", distance),
    }
}

// Templates with commas between them.
fn show_templates(shown: &mut Vec<u8>, templates: &[Template]) -> Result<(), AllocError> {
    let mut first = true;
    for template in templates {
        if !first {
            shown.push(b',')?;
        }
        first = false;
        for part in template.parts.as_slice() {
            shown.push(b' ')?;
            show_part(shown, part)?;
        }
    }
    Ok(())
}

fn show_parse(alloc: Global, shown: &mut Vec<u8>, parse: &Parse) -> Result<(), AllocError> {
    show_text(
        shown,
        if parse.upper {
            "parse upper "
        } else {
            "parse "
        },
    )?;
    match &parse.from {
        ParseFrom::Arg => show_text(shown, "arg")?,
        ParseFrom::Pull => show_text(shown, "pull")?,
        ParseFrom::LineIn => show_text(shown, "linein")?,
        ParseFrom::Var(name) => {
            show_text(shown, "var ")?;
            show_name(shown, name)?;
        }
        ParseFrom::Value(expr) => {
            show_text(shown, "value ")?;
            show_expr(alloc, shown, expr)?;
        }
    }
    show_text(shown, ":")?;
    show_templates(shown, parse.templates.as_slice())
}

fn show_forward(alloc: Global, shown: &mut Vec<u8>, forward: &Forward) -> Result<(), AllocError> {
    show_option(alloc, shown, "forward to", &forward.to)?;
    if forward.to.is_none() {
        show_text(shown, "forward")?;
    }
    show_option(alloc, shown, " class", &forward.class)?;
    show_option(alloc, shown, " message", &forward.message)?;
    match &forward.args {
        Forwarded::Own => {}
        Forwarded::Arguments(expr) => {
            show_text(shown, " arguments ")?;
            show_expr(alloc, shown, expr)?;
        }
        Forwarded::Array(args) => {
            show_text(shown, " array ")?;
            show_args(alloc, shown, args.as_slice(), (b'(', b')'))?;
        }
    }
    if forward.goes_on {
        show_text(shown, " continue")?;
    }
    Ok(())
}

fn show_send(
    alloc: Global,
    shown: &mut Vec<u8>,
    receiver: &Expr,
    part: &SendPart,
    expr: &Expr,
) -> Result<(), AllocError> {
    show_text(shown, "send ")?;
    show_expr(alloc, shown, receiver)?;
    shown.push(b' ')?;
    show_message(alloc, shown, part)?;
    show_text(shown, " = ")?;
    show_expr(alloc, shown, expr)
}

fn show_assign(
    alloc: Global,
    shown: &mut Vec<u8>,
    name: &Name,
    expr: &Expr,
) -> Result<(), AllocError> {
    show_name(shown, name)?;
    show_text(shown, " = ")?;
    show_expr(alloc, shown, expr)
}

// RAISE SYNTAX.
fn show_syntax(
    alloc: Global,
    shown: &mut Vec<u8>,
    number: &Expr,
    text: &Option<Expr>,
) -> Result<(), AllocError> {
    show_text(shown, "raise syntax ")?;
    show_expr(alloc, shown, number)?;
    show_option(alloc, shown, " description", text)
}

// RAISE USER.
fn show_user(
    alloc: Global,
    shown: &mut Vec<u8>,
    name: &[u8],
    text: &Option<Expr>,
    value: &Option<Expr>,
) -> Result<(), AllocError> {
    show_named(shown, "raise user", name)?;
    show_option(alloc, shown, " description", text)?;
    show_option(alloc, shown, " return", value)
}

/// A clause that holds no other: its words, and its parts in the written order.
pub fn show_simple(alloc: Global, shown: &mut Vec<u8>, simple: &Simple) -> Result<(), AllocError> {
    match simple {
        Simple::Label(name) => show_named(shown, "label", name.bytes()),
        Simple::Assign(name, expr) => show_assign(alloc, shown, name, expr),
        Simple::SendAssign(receiver, part, expr) => show_send(alloc, shown, receiver, part, expr),
        Simple::Message(expr) => show_expr(alloc, shown, expr),
        Simple::Say(given) => show_given(alloc, shown, "say", given),
        Simple::Nop => show_text(shown, "nop"),
        Simple::Leave(name) => show_meant(shown, "leave", name),
        Simple::Iterate(name) => show_meant(shown, "iterate", name),
        Simple::Call(routine) => show_routine(alloc, shown, routine),
        Simple::CallOn(trap) => show_trap(shown, "call on", trap),
        Simple::CallOff(condition) => show_condition(shown, "call off", condition),
        Simple::Return(given) => show_given(alloc, shown, "return", given),
        Simple::Exit(given) => show_given(alloc, shown, "exit", given),
        Simple::Signal(label) => show_named(shown, "signal", label.bytes()),
        Simple::SignalOn(trap) => show_trap(shown, "signal on", trap),
        Simple::SignalOff(condition) => show_condition(shown, "signal off", condition),
        Simple::Procedure(names) => show_names(shown, "procedure", names.as_slice()),
        Simple::Expose(names) => show_names(shown, "expose", names.as_slice()),
        Simple::UseArg(false, list) => show_parameters(alloc, shown, "use", list.as_slice()),
        Simple::UseArg(true, list) => show_parameters(alloc, shown, "use strict", list.as_slice()),
        Simple::Parse(parse) => show_parse(alloc, shown, parse),
        Simple::Push(given) => show_given(alloc, shown, "push", given),
        Simple::Queue(given) => show_given(alloc, shown, "queue", given),
        Simple::Drop(names) => show_names(shown, "drop", names.as_slice()),
        Simple::Digits(given) => show_given(alloc, shown, "digits", given),
        Simple::GuardOn(given) => show_given(alloc, shown, "guard on", given),
        Simple::GuardOff(given) => show_given(alloc, shown, "guard off", given),
        Simple::Reply(given) => show_given(alloc, shown, "reply", given),
        Simple::Forward(forward) => show_forward(alloc, shown, forward),
        Simple::RaiseSyntax(number, text) => show_syntax(alloc, shown, number, text),
        Simple::RaiseUser(name, text, value) => {
            show_user(alloc, shown, name.bytes(), text, value)
        }
        Simple::Trace(setting) => {
            let setting = format!(in alloc; "trace {setting:?}")?;
            shown.extend_from_slice(setting.as_bytes())
        }
    }
}
