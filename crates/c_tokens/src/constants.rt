//! The value of a constant (ISO C11, 6.4.4.1).
ghost use Rattle.std.specs.Prelude.{◌≡◌, ◌<◌, ◌≤◌, ◌^◌, length, min, option_map, bytes_eq, IsTrue};
ghost use Rattle.std.specs.List.{list_any, prefix_len};
ghost use Rattle.c_tokens.specs.Bytes.{is_digit_in};
ghost use Rattle.c_tokens.specs.Constants.{value_in, is_suffix, is_hex_mark, is_hexadecimal, number_of, constant_of};

use crate::bytes::digit_value;
use crate::tables::SUFFIXES;

/// The least value that is no constant's.
pub const LIMIT: u64 = 1 << 63;

fn is_among(words: &[&str], word: &[u8]) -> bool
    ensures { result ≡ list_any (λ each. bytes_eq each.now word.now) words.now }
{
    words.iter().any(|each| each.as_bytes() == word)
}

fn is_suffix(bytes: &[u8]) -> bool
    ensures { result ≡ is_suffix bytes.now }
{
    is_among(&SUFFIXES, bytes)
}

// How many digits of the base stand at the front.
fn digits_len(base: u8, bytes: &[u8]) -> usize
    ensures len { result ≡ prefix_len (is_digit_in base) bytes.now }
    ensures within { result ≤ length bytes.now }
{
    bytes
        .iter()
        .take_while(|byte| digit_value(**byte) < base)
        .count()
}

// The value of digits of a base, or `LIMIT` where it is that or more.
fn value_in(base: u8, digits: &[u8]) -> u64
    requires { 0 < base }
    ensures { result ≡ min (2 ^ 63) (value_in base digits.now) }
{
    let mut value = 0u64;
    for digit in digits {
        let next = u128::from(value) * u128::from(base) + u128::from(digit_value(*digit));
        value = next.min(u128::from(LIMIT)) as u64;
    }
    value
}

// The value of digits of a base with a suffix, or `LIMIT` where it is that or more.
fn number_of(base: u8, bytes: &[u8]) -> Option<u64>
    requires { 0 < base }
    ensures { result ≡ option_map (min (2 ^ 63)) (number_of base bytes.now) }
{
    let (digits, suffix) = bytes.split_at(digits_len(base, bytes));
    if !is_suffix(suffix) {
        return None;
    }
    Some(value_in(base, digits))
}

// Whether the byte is the letter of a hexadecimal prefix.
fn is_hex_mark(byte: u8) -> bool
    ensures { result ≡ is_hex_mark byte }
{
    matches!(byte, b'x' | b'X')
}

// Whether the bytes begin as a hexadecimal constant.
#[tactic(auto, unfolding(crate::specs::Bytes::digit_value))]
fn is_hexadecimal(bytes: &[u8]) -> bool
    ensures hexadecimal { result ≡ is_hexadecimal bytes.now }
    ensures longer { IsTrue result → 2 < length bytes.now }
{
    if bytes.len() <= 2 {
        return false;
    }
    bytes[0] == b'0' && is_hex_mark(bytes[1]) && digit_value(bytes[2]) < 16
}

/// The value of a constant, or `LIMIT` where it is that or more. The bytes begin with a digit.
#[tactic(auto, unfolding(crate::specs::Constants::constant_of))]
pub fn constant_of(bytes: &[u8]) -> Option<u64>
    requires { 0 < length bytes.now }
    ensures { result ≡ option_map (min (2 ^ 63)) (constant_of bytes.now) }
{
    if is_hexadecimal(bytes) {
        return number_of(16, &bytes[2..]);
    }
    if bytes[0] == b'0' {
        return number_of(8, bytes);
    }
    number_of(10, bytes)
}
