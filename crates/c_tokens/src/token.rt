//! What a token is (ISO C11, 6.4).
use crate::Kind;

/// A token, and the line and the column of its first byte, both from 1. Columns count bytes.
#[derive(Debug, Drop)]
pub struct Token {
    pub kind: Kind,
    pub line: u32,
    pub column: u32,
}
