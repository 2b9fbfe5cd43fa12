// The text of a number.
ghost use Rattle.std.specs.Prelude.{◌≡◌, ℕ, ◌≤◌, List, Some, length};
ghost use Rattle.rx_whole.specs.Number.{num, text_of};

use itoa::Buffer;

/// The text of a number: its decimal digits without a leading zero, and `-` in front where it is
/// negative. There is no `+`, and 0 is `0`. The text stands in the buffer until the buffer's next
/// use.
pub fn number_text(number: i64, buffer: &mut Buffer) -> &[u8]
    ensures text { result.now ≡ text_of number }
    ensures short { length result.now ≤ 20 }
    ensures read_back { num result.now ≡ Some number }
    // Of all the texts of the number this is the shortest.
    ensures shortest { (text : List ℕ) → num text ≡ Some number → length result.now ≤ length text }
{
    buffer.format(number).as_bytes()
}
