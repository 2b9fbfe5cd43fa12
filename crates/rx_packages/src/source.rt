// The lines of a source.
ghost use Rattle.std.specs.Prelude.{◌≡◌, ◌≢◌, ◌≤◌, ◌<◌, ◌∷◌, [], length, IfOk};
ghost use Rattle.std.specs.Str.Lines.{lines, strip_carriage_return};
ghost use Rattle.rx_packages.specs.Programs.{longest_source};

use memchr::memchr;
use rx_tree::{OutOfMemory, Text};
use sqlite_items::Items;
use std::alloc::Global;

// A line before its line feed, without the one carriage return at its end.
fn without_return(line: &[u8]) -> &[u8]
    ensures line { result.now ≡ strip_carriage_return line.now }
    ensures within { length result.now ≤ length line.now }
{
    match line {
        [front @ .., b'\r'] => front,
        _ => line,
    }
}

// The first line of some bytes, and what stands behind it.
fn split_line(bytes: &[u8]) -> (&[u8], &[u8])
    requires { bytes.now ≢ [] }
    ensures lines { lines bytes.now ≡ result.0.now ∷ lines result.1.now }
    ensures within { length result.0.now ≤ length bytes.now }
    ensures shorter { length result.1.now < length bytes.now }
{
    match memchr(b'\n', bytes) {
        Some(at) => (without_return(&bytes[..at]), &bytes[at + 1..]),
        None => (bytes, &[]),
    }
}

/// The lines of a source.
pub fn split_lines(alloc: Global, source: &[u8]) -> Result<Items<Text>, OutOfMemory>
    requires { length source.now ≤ longest_source }
    ensures lines { IfOk result (λ split. split ≡ lines source.now) }
{
    let mut split = Items::new(alloc);
    let mut rest = source;
    while !rest.is_empty() {
        let (line, behind) = split_line(rest);
        split.push(Text::from_slice(alloc, line)?)?;
        rest = behind;
    }
    Ok(split)
}
