//! A place of a text: its line, its column, and whether it is the front of its line.
ghost use Rattle.std.specs.Prelude.{◌≡◌, ◌+◌, ◌<◌, ◌≤◌, ◌^◌, length};
ghost use Rattle.c_tokens.specs.declared.place.Place.{Place};
ghost use Rattle.c_tokens.specs.Steps.{after_byte, after_bytes};

use crate::bytes::is_blank;

/// A place of a text.
#[derive(Clone, Copy, Debug)]
pub struct Place {
    /// From 1.
    pub line: u32,
    /// In bytes, from 1.
    pub column: u32,
    /// Whether only spaces and tabs stand before the place on its line.
    pub front: bool,
}

// The place behind one more byte.
fn after_byte(place: Place, byte: u8) -> Place
    requires column { 0 < place.column }
    requires small { place.line + place.column + 1 < 2 ^ 32 }
    ensures value { result ≡ after_byte place byte }
    ensures column { 0 < result.column }
    ensures small { result.line + result.column ≤ place.line + place.column + 1 }
{
    if byte == b'\n' {
        return Place {
            line: place.line + 1,
            column: 1,
            front: true,
        };
    }
    Place {
        line: place.line,
        column: place.column + 1,
        front: place.front && is_blank(byte),
    }
}

/// The place behind more bytes.
pub fn after_bytes(place: Place, bytes: &[u8]) -> Place
    requires column { 0 < place.column }
    requires small { place.line + place.column + length bytes.now < 2 ^ 32 }
    ensures value { result ≡ after_bytes place bytes.now }
    ensures column { 0 < result.column }
    ensures small { result.line + result.column ≤ place.line + place.column + length bytes.now }
{
    let mut reached = place;
    for byte in bytes {
        reached = after_byte(reached, *byte);
    }
    reached
}
