// Whether names are the same.
ghost use Rattle.std.specs.Prelude.{◌≡◌};
ghost use Rattle.rx_clause_tree.specs.ClauseWords as words;
ghost use Rattle.rx_clause_tree.specs.Loops as loops;

use crate::tokens::same;
use rx_tree::{Name, Part, TokenKind};

fn same_part(a: &Part, b: &Part) -> bool
    ensures { result ≡ words.same_part a.now b.now }
{
    match (a, b) {
        (Part::Fixed(a), Part::Fixed(b)) => same(a.bytes(), b.bytes()),
        (Part::Of(a), Part::Of(b)) => same(a.bytes(), b.bytes()),
        _ => false,
    }
}

fn same_tail(a: &[Part], b: &[Part]) -> bool
    ensures { result ≡ words.same_tail a.now b.now }
{
    let mut x = a;
    let mut y = b;
    loop {
        let [first, others @ ..] = x else {
            return y.is_empty();
        };
        let [second, more @ ..] = y else {
            return false;
        };
        if !same_part(first, second) {
            return false;
        }
        x = others;
        y = more;
    }
}

/// Whether two names are the same.
pub(crate) fn same_name(a: &Name, b: &Name) -> bool
    ensures { result ≡ words.same_name a.now b.now }
{
    match (a, b) {
        (Name::Simple(a), Name::Simple(b)) => same(a.bytes(), b.bytes()),
        (Name::Stem(a), Name::Stem(b)) => same(a.bytes(), b.bytes()),
        (Name::Compound(a, x), Name::Compound(b, y)) => {
            same(a.bytes(), b.bytes()) && same_tail(x.as_slice(), y.as_slice())
        }
        _ => false,
    }
}

/// Whether a token is the symbol of a variable.
pub(crate) fn is_symbol_of(kind: &TokenKind, name: &Name) -> bool
    ensures { result ≡ loops.is_name name.now (words.variable_of kind.now) }
{
    match (name, kind) {
        (Name::Simple(a), TokenKind::Simple(b)) => same(a.bytes(), b.bytes()),
        (Name::Stem(a), TokenKind::Stem(b)) => same(a.bytes(), b.bytes()),
        (Name::Compound(a, x), TokenKind::Compound(b, y)) => {
            same(a.bytes(), b.bytes()) && same_tail(x.as_slice(), y.as_slice())
        }
        _ => false,
    }
}
