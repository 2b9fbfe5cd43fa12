// Tests of one byte.
ghost use Rattle.std.specs.Prelude.{◌≡◌};
ghost use Rattle.rx_tree.specs.Letters.{begins, is_name_front, is_symbol_byte, is_quote};

/// Whether a variable's name begins with this byte.
pub fn is_name_front(byte: u8) -> bool
    ensures { result ≡ is_name_front byte }
{
    byte.is_ascii_alphabetic() || matches!(byte, b'!' | b'?' | b'_')
}

/// Whether a symbol may have this byte.
pub fn is_symbol_byte(byte: u8) -> bool
    ensures { result ≡ is_symbol_byte byte }
{
    is_name_front(byte) || byte.is_ascii_digit() || byte == b'.'
}

/// Whether a string begins with this byte.
pub fn is_quote(byte: u8) -> bool
    ensures { result ≡ is_quote byte }
{
    byte == b'\'' || byte == b'"'
}

/// Whether the first byte may stand in a symbol.
pub fn begins_in_symbol(bytes: &[u8]) -> bool
    ensures { result ≡ begins is_symbol_byte bytes.now }
{
    match bytes {
        [first, ..] => is_symbol_byte(*first),
        [] => false,
    }
}
