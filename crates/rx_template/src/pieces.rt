// What a template cuts a text into.
ghost use Rattle.std.specs.Prelude.{◌≡◌, IfOk};
ghost use Rattle.rx_template.specs.Pieces.{pieces};

use crate::section::{Marks, bytes_between, end_of, section_before};
use crate::sharing::share;
use crate::template::{Template, first_trigger};
use rx_text::OutOfMemory;
use sqlite_items::Items;
use std::alloc::Global;

/// Pieces of a text in order, each with its target's number.
pub type Pieces = Items<(u32, Items<u8>)>;

/// The piece of a text for each target of a template, in order, or want of memory.
///
/// The text is cut into sections: a trigger ends one, and the text's end does the last. The first section begins at place 1,
/// and place 1 counts as the last match.
///
/// - A string that stands at some place from the section's beginning on ends the section in front of it. That place is the
///   last match, and the next section begins behind the string. Where the string is empty or isn't found, the section is all
///   that is left, and the next one is empty.
/// - A position is brought into 1 to one more than the text's length. Where it is behind the last match, the section ends in
///   front of it, else at the text's end. It is the last match then, and the next section begins there. A section in front of
///   `Forward` begins at the last match, so that it takes in the bytes of a string.
///
/// The targets of a section share its bytes. One alone takes all of them. Of several each but the last passes over blanks,
/// takes a word, and drops the one blank behind it. The last takes what is left, blanks too.
pub fn parse(alloc: Global, template: &Template, text: &[u8]) -> Result<Pieces, OutOfMemory>
    ensures pieces { IfOk result (λ taken. taken ≡ pieces template.now.parts text.now) }
{
    let mut taken = Items::new(alloc);
    let mut marks = Marks { start: 1, found: 1 };
    let mut rest = template.parts.as_slice();
    while let Some(at) = first_trigger(rest) {
        let (targets, behind) = rest.split_at(at);
        let section = section_before(&behind[0], text, marks);
        share(
            alloc,
            &mut taken,
            targets,
            bytes_between(text, section.from, section.to),
        )?;
        marks = section.next;
        rest = &behind[1..];
    }
    share(
        alloc,
        &mut taken,
        rest,
        bytes_between(text, marks.start, end_of(text)),
    )?;
    Ok(taken)
}
