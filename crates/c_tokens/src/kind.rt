//! The kinds of tokens that the profile has (ISO C11, 6.4).
use c_ast::Name;

/// The kind of a token.
#[derive(Debug, Drop)]
pub enum Kind {
    /// A name (6.4.2), with its bytes.
    Word(Name),
    /// The name `__mark`.
    MarkWord,
    /// A constant (6.4.4.1) of this value, which is below 2^63.
    Constant(u64),

    // The keywords (6.4.1).
    Break,
    Continue,
    Do,
    Else,
    Extern,
    For,
    If,
    Int,
    Long,
    Return,
    Static,
    Void,
    While,

    // The operators and punctuators (6.4.6).
    OpenRound,
    CloseRound,
    OpenCurly,
    CloseCurly,
    Semicolon,
    Comma,
    Plus,
    Minus,
    Star,
    Slash,
    Percent,
    Less,
    LessEq,
    Greater,
    GreaterEq,
    Equal,
    NotEqual,
    Amp,
    AmpAmp,
    BarBar,
    Bang,
    Question,
    Colon,
    Assign,
    PlusAssign,
    MinusAssign,
    StarAssign,
    SlashAssign,
    PercentAssign,
    PlusPlus,
    MinusMinus,
}
