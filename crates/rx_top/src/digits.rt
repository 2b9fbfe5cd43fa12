// Numbers in decimal digits.
ghost use Rattle.std.specs.Prelude.{◌≡◌, ◌++◌, decimal, OnOk};
ghost use Rattle.rx_machine.specs.Texts.{three_digits};

use itoa::Buffer;
use std::alloc::AllocError;

/// Appends a number's three digits.
pub fn push_three_digits(text: &mut Vec<u8>, number: u8) -> Result<(), AllocError>
    ensures { OnOk result (text.new.items ≡ text.old.items ++ three_digits number) }
{
    text.push(b'0' + number / 100)?;
    text.push(b'0' + number / 10 % 10)?;
    text.push(b'0' + number % 10)?;
    Ok(())
}

/// Appends a number in decimal digits.
pub fn push_number(text: &mut Vec<u8>, number: u64) -> Result<(), AllocError>
    ensures { OnOk result (text.new.items ≡ text.old.items ++ decimal number) }
{
    let mut buffer = Buffer::new();
    text.extend_from_slice(buffer.format(number).as_bytes())
}
