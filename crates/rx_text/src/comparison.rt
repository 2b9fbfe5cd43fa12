// The order of two texts.
ghost use Rattle.std.specs.Prelude.{◌≡◌, length, replicate};
ghost use Rattle.rx_text.specs.Order.{order_when_padded, padded_order, strict_order};

use crate::blanks::strip;
use std::cmp::Ordering;

/// The order of `==`, `<<` and `>>`: byte by byte. The first two bytes that differ decide, and a
/// text that is a proper prefix of the other comes first. Blanks count as any byte does.
pub fn compare_strict(a: &[u8], b: &[u8]) -> Ordering
    ensures order { result ≡ strict_order a.now b.now }
{
    a.cmp(b)
}

/// The order of `=`, `<` and `>` where one side is no number: outer blanks are dropped on both
/// sides, the shorter side is padded with spaces on its right up to the length of the longer, and
/// then the bytes are compared.
///
/// No padded text is built, and the time is linear in the lengths of the two sides.
#[tactic(auto, unfolding(crate::specs::Order::padded_order))]
pub fn compare_padded(a: &[u8], b: &[u8]) -> Ordering
    ensures order { result ≡ padded_order a.now b.now }
{
    compare_stripped(strip(a), strip(b))
}

// The order of two texts of which the shorter counts as padded with spaces.
fn compare_stripped(a: &[u8], b: &[u8]) -> Ordering
    ensures order { result ≡ order_when_padded a.now b.now }
{
    let common = a.len().min(b.len());
    let (a_front, a_rest) = a.split_at(common);
    let (b_front, b_rest) = b.split_at(common);
    a_front
        .cmp(b_front)
        .then(compare_to_spaces(a_rest))
        .then(compare_to_spaces(b_rest).reverse())
}

// The order of a text and as many spaces.
fn compare_to_spaces(text: &[u8]) -> Ordering
    ensures order { result ≡ strict_order text.now (replicate (length text.now) 0x20) }
{
    for byte in text {
        if *byte != b' ' {
            return byte.cmp(&b' ');
        }
    }
    Ordering::Equal
}
