// Equality of expressions.
ghost use Rattle.std.specs.Prelude.{◌≡◌, ◌↔◌, IsTrue};
ghost use Rattle.rx_tree.specs.Equality.{equal, equal_laws, equal_equivalence};

use crate::expr::{Expr, SendPart};
use crate::name::{Name, Part};
use crate::text::Text;
use crate::token::Oper;
use crate::value::Value;

fn same_text(a: &Text, b: &Text) -> bool
    ensures { IsTrue result ↔ (a.now ≡ b.now) }
{
    a.bytes() == b.bytes()
}

fn same_value(a: &Value, b: &Value) -> bool
    ensures { IsTrue result ↔ (a.now ≡ b.now) }
{
    match (a, b) {
        (Value::Str(a), Value::Str(b)) => same_text(a, b),
        (Value::Ref(a), Value::Ref(b)) => a == b,
        _ => false,
    }
}

fn same_part(a: &Part, b: &Part) -> bool
    ensures { IsTrue result ↔ (a.now ≡ b.now) }
{
    match (a, b) {
        (Part::Fixed(a), Part::Fixed(b)) => same_text(a, b),
        (Part::Of(a), Part::Of(b)) => same_text(a, b),
        _ => false,
    }
}

fn same_tail(a: &[Part], b: &[Part]) -> bool
    ensures { IsTrue result ↔ (a.now ≡ b.now) }
{
    if a.len() != b.len() {
        return false;
    }
    for (i, part) in a.iter().enumerate() {
        if !same_part(part, &b[i]) {
            return false;
        }
    }
    true
}

fn same_name(a: &Name, b: &Name) -> bool
    ensures { IsTrue result ↔ (a.now ≡ b.now) }
{
    match (a, b) {
        (Name::Simple(a), Name::Simple(b)) => same_text(a, b),
        (Name::Stem(a), Name::Stem(b)) => same_text(a, b),
        (Name::Compound(a, x), Name::Compound(b, y)) => {
            same_text(a, b) && same_tail(x.as_slice(), y.as_slice())
        }
        _ => false,
    }
}

fn same_oper(a: Oper, b: Oper) -> bool
    ensures { IsTrue result ↔ (a ≡ b) }
{
    a == b
}

fn same_opers(a: &[Oper], b: &[Oper]) -> bool
    ensures { IsTrue result ↔ (a.now ≡ b.now) }
{
    if a.len() != b.len() {
        return false;
    }
    for (i, oper) in a.iter().enumerate() {
        if !same_oper(*oper, b[i]) {
            return false;
        }
    }
    true
}

fn same_above(a: &Option<Text>, b: &Option<Text>) -> bool
    ensures { IsTrue result ↔ (a.now ≡ b.now) }
{
    match (a, b) {
        (None, None) => true,
        (Some(a), Some(b)) => same_text(a, b),
        _ => false,
    }
}

#[cycle(same)]
fn same_terms(a: &[(Oper, Expr)], b: &[(Oper, Expr)]) -> bool
    ensures { IsTrue result ↔ (a.now ≡ b.now) }
{
    if a.len() != b.len() {
        return false;
    }
    for (i, term) in a.iter().enumerate() {
        let other = &b[i];
        if !same_oper(term.0, other.0) || !same_expr(&term.1, &other.1) {
            return false;
        }
    }
    true
}

#[cycle(same)]
fn same_args(a: &[Option<Expr>], b: &[Option<Expr>]) -> bool
    ensures { IsTrue result ↔ (a.now ≡ b.now) }
{
    if a.len() != b.len() {
        return false;
    }
    for (i, arg) in a.iter().enumerate() {
        match (arg, &b[i]) {
            (None, None) => {}
            (Some(arg), Some(other)) => {
                if !same_expr(arg, other) {
                    return false;
                }
            }
            _ => return false,
        }
    }
    true
}

#[cycle(same)]
fn same_parts(a: &[SendPart], b: &[SendPart]) -> bool
    ensures { IsTrue result ↔ (a.now ≡ b.now) }
{
    if a.len() != b.len() {
        return false;
    }
    for (i, part) in a.iter().enumerate() {
        if !same_send(part, &b[i]) {
            return false;
        }
    }
    true
}

#[cycle(same)]
fn same_send(a: &SendPart, b: &SendPart) -> bool
    ensures { IsTrue result ↔ (a.now ≡ b.now) }
{
    same_text(&a.name, &b.name)
        && same_above(&a.above, &b.above)
        && same_args(a.args.as_slice(), b.args.as_slice())
        && a.back == b.back
        && a.bracket == b.bracket
}

#[cycle(same)]
fn same_expr(a: &Expr, b: &Expr) -> bool
    ensures { IsTrue result ↔ (a.now ≡ b.now) }
{
    match (a, b) {
        (Expr::Const(a), Expr::Const(b)) => same_value(a, b),
        (Expr::Name(a), Expr::Name(b)) => same_name(a, b),
        (Expr::Environment(a), Expr::Environment(b)) => same_text(a, b),
        (Expr::Prefix(x, a), Expr::Prefix(y, b)) => {
            same_opers(x.as_slice(), y.as_slice()) && same_expr(a.get(), b.get())
        }
        (Expr::Chain(a, x), Expr::Chain(b, y)) => {
            same_expr(a.get(), b.get()) && same_terms(x.as_slice(), y.as_slice())
        }
        (Expr::Group(a), Expr::Group(b)) => same_expr(a.get(), b.get()),
        (Expr::Function(a, s, x), Expr::Function(b, t, y)) => {
            same_text(a, b) && s == t && same_args(x.as_slice(), y.as_slice())
        }
        (Expr::Sends(a, x), Expr::Sends(b, y)) => {
            same_expr(a.get(), b.get()) && same_parts(x.as_slice(), y.as_slice())
        }
        (Expr::Hole, Expr::Hole) => true,
        _ => false,
    }
}

impl PartialEq for Expr {
    ghost eq = { equal };

    ghost laws = { equal_laws };

    #[tactic(auto, using(crate::specs::Equality::tests))]
    fn eq(&self, other: &Expr) -> bool {
        same_expr(self, other)
    }
}

impl Eq for Expr {
    ghost laws = { equal_equivalence };
}
