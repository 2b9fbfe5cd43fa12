// What is told of sources that aren't run.
ghost use Rattle.std.specs.Prelude.{◌≡◌, [], IfOk};
ghost use Rattle.rx_top.specs.Conclusions.{IsRefusal, RanNothing, line_bad, line_deep, line_long};

use crate::conclusion::Conclusion;
use crate::digits::push_number;
use rx_packages::SourceRefused;
use rx_tree::OutOfMemory;
use std::alloc::{AllocError, Global};

// The line that tells where a source is refused, and by which number.
fn refusal_line(alloc: Global, line: u32, number: u8) -> Result<Vec<u8>, AllocError>
    ensures { IfOk result (λ text. text.items ≡ line_bad line number) }
{
    let mut text = Vec::from_slice(alloc, b"REX240 line ")?;
    push_number(&mut text, u64::from(line))?;
    text.extend_from_slice(b" error ")?;
    push_number(&mut text, u64::from(number))?;
    text.push(b'\n')?;
    Ok(text)
}

/// That a source is refused at a line by a number, or want of memory.
pub fn tell_bad(alloc: Global, line: u32, number: u8) -> Result<Conclusion, OutOfMemory>
    ensures { IfOk result (RanNothing 240 [] (line_bad line number)) }
{
    let text = refusal_line(alloc, line, number)?;
    Conclusion::refused(alloc, 240, text.as_slice())
}

/// That a source is too long, or want of memory.
pub fn tell_long(alloc: Global) -> Result<Conclusion, OutOfMemory>
    ensures { IfOk result (RanNothing 250 [] line_long) }
{
    Conclusion::refused(alloc, 250, b"REX250 source\n")
}

/// That a source's brackets stand too deep in one another, or want of memory.
pub fn tell_deep(alloc: Global) -> Result<Conclusion, OutOfMemory>
    ensures { IfOk result (RanNothing 250 [] line_deep) }
{
    Conclusion::refused(alloc, 250, b"REX250 nesting\n")
}

/// Why a source is refused, or want of memory.
pub fn tell_refused(alloc: Global, refused: SourceRefused) -> Result<Conclusion, OutOfMemory>
    ensures { IfOk result (IsRefusal refused) }
{
    match refused {
        SourceRefused::Long => tell_long(alloc),
        SourceRefused::Deep => tell_deep(alloc),
        SourceRefused::Bad { line, number } => tell_bad(alloc, line, number),
        SourceRefused::OutOfMemory => Err(OutOfMemory),
    }
}
