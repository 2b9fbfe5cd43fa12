// Templates, once the values in them are known.
ghost use Rattle.std.specs.Prelude.{◌≡◌, position};
ghost use Rattle.rx_template.specs.Pieces.{is_trigger};

use sqlite_items::Items;

/// A part of a template: what takes a piece of the text, or a trigger, which tells where the pieces in front of it end.
pub enum TPart {
    /// A target, by its number. It takes a piece.
    Target(u32),
    /// A period. It drops a piece.
    Period,
    /// A string that is sought from the beginning of the section on.
    Literal(Items<u8>),
    /// A place of the text, counted from 1.
    At(u64),
    /// So many bytes behind the last match.
    Forward(u64),
    /// So many bytes before the last match.
    Backward(u64),
}

impl Drop for TPart {
    fn drop(self) {
        match self {
            TPart::Target(_) => {}
            TPart::Period => {}
            TPart::Literal(_) => {}
            TPart::At(_) => {}
            TPart::Forward(_) => {}
            TPart::Backward(_) => {}
        }
    }
}

/// What one text is cut by.
pub struct Template {
    /// The targets and triggers, in the order in which they are written.
    pub parts: Items<TPart>,
}

impl Drop for Template {
    fn drop(self) {
        let Template { parts: _ } = self;
    }
}

fn is_trigger(part: &TPart) -> bool
    ensures { result ≡ is_trigger part.now }
{
    match part {
        TPart::Target(_) | TPart::Period => false,
        _ => true,
    }
}

/// How many parts stand in front of the first trigger, where there is one.
pub(crate) fn first_trigger(parts: &[TPart]) -> Option<usize>
    ensures { result ≡ position is_trigger parts.now }
{
    parts.iter().position(is_trigger)
}
