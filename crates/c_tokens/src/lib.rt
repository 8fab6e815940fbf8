//! The tokens of a text, or its first faulty place.
//!
//! A text goes in, and the list of its tokens comes out, each with its line and its column; or the
//! first place of the text where no token of the profile stands, by its kind. `specs/Tokens.antt`
//! says which tokens a text has and which place is its first faulty one, over `Gaps.antt` (ISO C11,
//! 6.4.9 and 6.10.2), `Lexemes.antt` (6.4) and `Constants.antt` (6.4.4.1). The text is read once:
//! `found` says what stands at a place, and `scan` goes from place to place.
#![tactic(auto)]

// What a token is, and what a faulty place.
mod fault;
mod fixed;
mod kind;
mod token;

// Bytes, words and constants.
mod bytes;
mod constants;
mod tables;
mod words;

// What stands at one place.
mod found;
mod gaps;

// From place to place.
mod place;
mod scan;
#[cfg(test)]
mod tests;

pub use fault::TokenFault;
pub use fixed::{Fixed, one_kind};
pub use kind::Kind;
pub use scan::{one_answer, tokens};
pub use token::Token;
