// Expressions.
ghost use Rattle.std.specs.Prelude.{◌≡◌, IfOk};

use crate::name::Name;
use crate::text::{OutOfMemory, Text};
use crate::token::Oper;
use crate::value::Value;
use sqlite_items::{Boxed, Items};
use std::alloc::Global;

/// An expression. Its depth comes from brackets alone: all operators of one level in a row stand in one `Chain`, all
/// prefixes of a term in one `Prefix`, and all messages to a term in one `Sends`.
#[cycle(expr)]
#[derive(Drop)]
pub enum Expr {
    /// A constant. In a source it is a string or a constant symbol.
    Const(Value),
    /// A variable.
    Name(Name),
    /// An environment symbol, with its period and in upper case.
    Environment(Text),
    /// Prefix operators, the outermost first, and their term.
    Prefix(Items<Oper>, Boxed<Expr>),
    /// An operand, and the operators of one level with the operands behind them, from left to right.
    Chain(Boxed<Expr>, Items<(Oper, Expr)>),
    /// An expression in parentheses.
    Group(Boxed<Expr>),
    /// A function's name, whether it is written as a string, and the arguments. One that is omitted has no expression.
    Function(Text, bool, Items<Option<Expr>>),
    /// A receiver, and the messages that are sent in order, the first to the receiver.
    Sends(Boxed<Expr>, Items<SendPart>),
    /// The place of an answer that hasn't come. It stands in no source.
    Hole,
}

/// A message of a message term.
#[cycle(expr)]
#[derive(Drop)]
pub struct SendPart {
    /// The name, as a symbol in upper case or as a string stands. It is empty where the arguments stand in square brackets.
    pub name: Text,
    /// The symbol behind the name, whose value is the class that the search begins at: a simple symbol or an environment
    /// symbol.
    pub above: Option<Text>,
    /// The arguments. One that is omitted has no expression.
    pub args: Items<Option<Expr>>,
    /// Whether the receiver is the value, as behind `~~`.
    pub back: bool,
    /// Whether the arguments stand in square brackets.
    pub bracket: bool,
}

fn share_above(above: &Option<Text>) -> Result<Option<Text>, OutOfMemory>
    ensures { IfOk result (λ shared. shared ≡ above.now) }
{
    match above {
        None => Ok(None),
        Some(class) => Ok(Some(class.share()?)),
    }
}

#[cycle(share)]
fn share_boxed(alloc: Global, expr: &Boxed<Expr>) -> Result<Boxed<Expr>, OutOfMemory>
    ensures { IfOk result (λ shared. shared ≡ expr.now) }
{
    let shared = expr.get().share(alloc)?;
    Ok(Boxed::new(alloc, shared)?)
}

#[cycle(share)]
fn share_terms(alloc: Global, terms: &[(Oper, Expr)]) -> Result<Items<(Oper, Expr)>, OutOfMemory>
    ensures { IfOk result (λ shared. shared ≡ terms.now) }
{
    let mut shared = Items::new(alloc);
    for (oper, term) in terms {
        let term = term.share(alloc)?;
        shared.push((*oper, term))?;
    }
    Ok(shared)
}

#[cycle(share)]
fn share_args(alloc: Global, args: &[Option<Expr>]) -> Result<Items<Option<Expr>>, OutOfMemory>
    ensures { IfOk result (λ shared. shared ≡ args.now) }
{
    let mut shared = Items::new(alloc);
    for arg in args {
        match arg {
            None => shared.push(None)?,
            Some(arg) => {
                let arg = arg.share(alloc)?;
                shared.push(Some(arg))?;
            }
        }
    }
    Ok(shared)
}

#[cycle(share)]
fn share_parts(alloc: Global, parts: &[SendPart]) -> Result<Items<SendPart>, OutOfMemory>
    ensures { IfOk result (λ shared. shared ≡ parts.now) }
{
    let mut shared = Items::new(alloc);
    for part in parts {
        let part = part.share(alloc)?;
        shared.push(part)?;
    }
    Ok(shared)
}

impl SendPart {
    /// An equal message, or want of memory.
    #[cycle(share)]
    pub fn share(&self, alloc: Global) -> Result<SendPart, OutOfMemory>
        ensures same { IfOk result (λ part. part ≡ self.now) }
    {
        let name = self.name.share()?;
        let above = share_above(&self.above)?;
        let args = share_args(alloc, self.args.as_slice())?;
        Ok(SendPart {
            name,
            above,
            args,
            back: self.back,
            bracket: self.bracket,
        })
    }
}

impl Expr {
    /// An equal expression, or want of memory.
    #[cycle(share)]
    pub fn share(&self, alloc: Global) -> Result<Expr, OutOfMemory>
        ensures same { IfOk result (λ expr. expr ≡ self.now) }
    {
        match self {
            Expr::Const(value) => Ok(Expr::Const(value.share()?)),
            Expr::Name(name) => Ok(Expr::Name(name.share(alloc)?)),
            Expr::Environment(name) => Ok(Expr::Environment(name.share()?)),
            Expr::Prefix(opers, term) => {
                let opers = Items::from_slice(alloc, opers.as_slice())?;
                Ok(Expr::Prefix(opers, share_boxed(alloc, term)?))
            }
            Expr::Chain(first, terms) => {
                let first = share_boxed(alloc, first)?;
                Ok(Expr::Chain(first, share_terms(alloc, terms.as_slice())?))
            }
            Expr::Group(inner) => Ok(Expr::Group(share_boxed(alloc, inner)?)),
            Expr::Function(name, is_string, args) => {
                let name = name.share()?;
                let args = share_args(alloc, args.as_slice())?;
                Ok(Expr::Function(name, *is_string, args))
            }
            Expr::Sends(receiver, parts) => {
                let receiver = share_boxed(alloc, receiver)?;
                Ok(Expr::Sends(receiver, share_parts(alloc, parts.as_slice())?))
            }
            Expr::Hole => Ok(Expr::Hole),
        }
    }
}
