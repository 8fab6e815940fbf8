//! What may stand between tokens: white space, comments (ISO C11, 6.4.9) and `#include` lines
//! (6.10.2).
ghost use Rattle.std.specs.Prelude.{◌≡◌, false, ℕ, ◌<◌, ◌≤◌, ◌+◌, ◌^◌, length, MatchOption, slice_index};
ghost use Rattle.std.specs.List.{prefix_len};
ghost use Rattle.c_tokens.specs.Bytes.{is_blank, is_white};
ghost use Rattle.c_tokens.specs.Scanned.{IsWithin};
ghost use Rattle.c_tokens.specs.Gaps.{line_len, behind_blanks, is_include, opening_of, IsEndAt, CommentFound};

use crate::bytes::{is_blank, is_white, word_len};
use crate::found::Found;

/// What begins at a place.
#[derive(Clone, Copy, Debug)]
pub enum Opening {
    /// White space.
    White,
    /// A comment that ends at `*/`.
    Comment,
    /// A line that is skipped: a comment that ends with its line, or an `#include` line.
    Line,
    /// Something else.
    Other,
}

/// How many bytes the first line has.
pub fn line_len(text: &[u8]) -> usize
    ensures len { result ≡ line_len text.now }
    ensures within { result ≤ length text.now }
{
    text.iter().take_while(|byte| **byte != b'\n').count()
}

// How many blanks stand at the front.
fn blank_len(text: &[u8]) -> usize
    ensures len { result ≡ prefix_len is_blank text.now }
    ensures within { result ≤ length text.now }
{
    text.iter().take_while(|byte| is_blank(**byte)).count()
}

fn behind_blanks(text: &[u8]) -> &[u8]
    ensures { result.now ≡ behind_blanks text.now }
{
    &text[blank_len(text)..]
}

// Whether a `#`, blanks and the word `include` stand at the front.
#[tactic(auto, unfolding(crate::specs::Gaps::is_include))]
fn is_include(text: &[u8]) -> bool
    requires { 0 < length text.now }
    ensures { result ≡ is_include text.now }
{
    if text[0] != b'#' {
        return false;
    }
    let word = behind_blanks(&text[1..]);
    &word[..word_len(word)] == b"include".as_slice()
}

/// What begins at the front of a text that is not empty; `front` says whether it is the front of a
/// line, blanks aside.
#[tactic(auto, unfolding(crate::specs::Gaps::opening_of))]
pub fn opening_of(front: bool, text: &[u8]) -> Opening
    requires { 0 < length text.now }
    ensures opening { result ≡ opening_of front text.now }
    ensures comment { result ≡ Opening.Comment → 2 ≤ length text.now }
    ensures line { result ≡ Opening.Line → is_white (slice_index text.now 0) ≡ false }
{
    if is_white(text[0]) {
        return Opening::White;
    }
    if text.starts_with(b"/*".as_slice()) {
        return Opening::Comment;
    }
    if text.starts_with(b"//".as_slice()) || (front && is_include(text)) {
        return Opening::Line;
    }
    Opening::Other
}

// The index of the first `*/`.
fn end_of(body: &[u8]) -> Option<usize>
    ensures { MatchOption result ((index : ℕ) → ¬ IsEndAt body.now index) (λ len.
        IsEndAt body.now len × (len + 1 < length body.now)
        × ((index : ℕ) → index < len → ¬ IsEndAt body.now index)) }
{
    for (i, byte) in body.iter().enumerate() {
        if *byte == b'/' && i > 0 && body[i - 1] == b'*' {
            return Some(i - 1);
        }
    }
    None
}

/// What a comment is whose `/*` stands before this text.
pub fn comment_found(body: &[u8]) -> Found
    requires { length body.now < 2 ^ 32 }
    ensures found { CommentFound body.now result }
    ensures within { IsWithin result (length body.now + 2) }
{
    match end_of(body) {
        Some(len) => Found::Gap(len + 4),
        None => Found::NoToken,
    }
}
