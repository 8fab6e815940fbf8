//! Classes of bytes (ISO C11, 5.2.1), and runs of one class.
ghost use Rattle.std.specs.Prelude.{◌≡◌, ◌≤◌, length};
ghost use Rattle.c_tokens.specs.Bytes.{is_white, is_blank, is_digit, is_word_byte, digit_value, word_len};

/// Whether the byte is white space: space, tab, newline, carriage return, vertical tab or form
/// feed.
pub fn is_white(byte: u8) -> bool
    ensures { result ≡ is_white byte }
{
    matches!(byte, b' ' | b'\t' | b'\n' | b'\r' | 11 | 12)
}

/// Whether the byte is a space or a tab.
pub fn is_blank(byte: u8) -> bool
    ensures { result ≡ is_blank byte }
{
    matches!(byte, b' ' | b'\t')
}

/// Whether the byte is a decimal digit.
pub fn is_digit(byte: u8) -> bool
    ensures { result ≡ is_digit byte }
{
    byte.is_ascii_digit()
}

/// Whether the byte is a letter, a digit or an underscore.
pub fn is_word_byte(byte: u8) -> bool
    ensures { result ≡ is_word_byte byte }
{
    byte.is_ascii_alphanumeric() || byte == b'_'
}

/// The value of a digit of a base up to 16, and 16 for any other byte.
#[tactic(auto, unfolding(crate::specs::Bytes::digit_value))]
pub fn digit_value(byte: u8) -> u8
    ensures value { result ≡ digit_value byte }
    ensures within { result ≤ 16 }
{
    match byte {
        b'0'..=b'9' => byte - b'0',
        b'A'..=b'F' => byte - b'A' + 10,
        b'a'..=b'f' => byte - b'a' + 10,
        _ => 16,
    }
}

/// How many letters, digits and underscores stand at the front.
pub fn word_len(text: &[u8]) -> usize
    ensures len { result ≡ word_len text.now }
    ensures within { result ≤ length text.now }
{
    text.iter().take_while(|byte| is_word_byte(**byte)).count()
}
