// Which loop LEAVE and ITERATE mean.
ghost use Rattle.std.specs.Prelude.{◌≡◌};
ghost use Rattle.std.specs.Str.{bytes_eq};
ghost use Rattle.rx_clause_tree.specs.ClauseWords as words;
ghost use Rattle.rx_clause_tree.specs.Loops as loops;
ghost use Rattle.rx_flow.specs.Todo as todo;

use rx_clause_tree::Header;
use rx_tree::{Name, Part};

// Whether two texts are the same.
fn same(a: &[u8], b: &[u8]) -> bool
    ensures { result ≡ bytes_eq a.now b.now }
{
    a == b
}

fn same_part(a: &Part, b: &Part) -> bool
    ensures { result ≡ words.same_part a.now b.now }
{
    match (a, b) {
        (Part::Fixed(a), Part::Fixed(b)) => same(a.bytes(), b.bytes()),
        (Part::Of(a), Part::Of(b)) => same(a.bytes(), b.bytes()),
        _ => false,
    }
}

fn same_tail(a: &[Part], b: &[Part]) -> bool
    ensures { result ≡ words.same_tail a.now b.now }
{
    let mut x = a;
    let mut y = b;
    loop {
        let [first, others @ ..] = x else {
            return y.is_empty();
        };
        let [second, more @ ..] = y else {
            return false;
        };
        if !same_part(first, second) {
            return false;
        }
        x = others;
        y = more;
    }
}

// Whether two names are the same.
fn same_name(a: &Name, b: &Name) -> bool
    ensures { result ≡ words.same_name a.now b.now }
{
    match (a, b) {
        (Name::Simple(a), Name::Simple(b)) => same(a.bytes(), b.bytes()),
        (Name::Stem(a), Name::Stem(b)) => same(a.bytes(), b.bytes()),
        (Name::Compound(a, x), Name::Compound(b, y)) => {
            same(a.bytes(), b.bytes()) && same_tail(x.as_slice(), y.as_slice())
        }
        _ => false,
    }
}

/// Whether LEAVE or ITERATE, with this variable or none, means a loop with this header.
pub fn is_meant(wanted: &Option<Name>, header: &Header) -> bool
    ensures { result ≡ todo.is_meant wanted.now (loops.control_of header.now) }
{
    let Some(wanted) = wanted else {
        return true;
    };
    match header {
        Header::Counts(control, _, _) | Header::Over(control, _) => same_name(wanted, control),
        Header::Forever | Header::Times(_) => false,
    }
}
