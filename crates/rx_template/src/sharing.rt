// How the targets of a section share its bytes.
ghost use Rattle.std.specs.Prelude.{◌≡◌, ◌++◌, OnOk, position};
ghost use Rattle.rx_text.specs.Blanks.{is_blank};
ghost use Rattle.rx_template.specs.Pieces.{behind_word, given, shared, word_of};

use crate::pieces::Pieces;
use crate::template::TPart;
use rx_text::{OutOfMemory, is_blank, strip_front};
use sqlite_items::Items;
use std::alloc::Global;

// Appends a piece for a target, and nothing for a period.
fn give(alloc: Global, pieces: &mut Pieces, target: &TPart, bytes: &[u8]) -> Result<(), OutOfMemory>
    ensures { OnOk result (pieces.new ≡ pieces.old ++ given target.now bytes.now) }
{
    match target {
        TPart::Target(number) => {
            let piece = Items::from_slice(alloc, bytes)?;
            pieces.push((*number, piece))?;
            Ok(())
        }
        _ => Ok(()),
    }
}

// How many bytes stand in front of the first blank; none where there is no blank.
fn first_blank(bytes: &[u8]) -> Option<usize>
    ensures { result ≡ position is_blank bytes.now }
{
    bytes.iter().position(|byte| is_blank(*byte))
}

// The word that some bytes begin with, and what stands behind the blank that ends it.
fn split_word(bytes: &[u8]) -> (&[u8], &[u8])
    ensures word { result.0.now ≡ word_of bytes.now }
    ensures behind { result.1.now ≡ behind_word bytes.now }
{
    let rest = strip_front(bytes);
    match first_blank(rest) {
        Some(at) => (&rest[..at], &rest[at + 1..]),
        None => (rest, &[]),
    }
}

/// Appends the pieces that some targets and periods take of a section, or wants memory.
pub(crate) fn share(
    alloc: Global,
    pieces: &mut Pieces,
    targets: &[TPart],
    section: &[u8],
) -> Result<(), OutOfMemory>
    ensures { OnOk result (pieces.new ≡ pieces.old ++ shared targets.now section.now) }
{
    let Some((last, others)) = targets.split_last() else {
        return Ok(());
    };
    let mut rest = section;
    for target in others {
        let (word, behind) = split_word(rest);
        give(alloc, pieces, target, word)?;
        rest = behind;
    }
    give(alloc, pieces, last, rest)
}
