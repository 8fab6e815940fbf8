//! The tokens that have one spelling each: the mark word, and the keywords and operators of the
//! profile (ISO C11, 6.4.1 and 6.4.6). The kind of each has its name.
ghost use Rattle.std.specs.Prelude.{◌≡◌};
ghost use Rattle.c_tokens.specs.Fixed.{kind_of, is_kind_of, HasOneKind};

use crate::Kind;

/// A token of one spelling.
#[derive(Clone, Copy, Debug)]
pub enum Fixed {
    /// The name `__mark`.
    MarkWord,

    // The keywords (6.4.1).
    Break,
    Continue,
    Do,
    Else,
    Extern,
    For,
    If,
    Int,
    Long,
    Return,
    Static,
    Void,
    While,

    // The operators and punctuators (6.4.6).
    OpenRound,
    CloseRound,
    OpenCurly,
    CloseCurly,
    Semicolon,
    Comma,
    Plus,
    Minus,
    Star,
    Slash,
    Percent,
    Less,
    LessEq,
    Greater,
    GreaterEq,
    Equal,
    NotEqual,
    Amp,
    AmpAmp,
    BarBar,
    Bang,
    Question,
    Colon,
    Assign,
    PlusAssign,
    MinusAssign,
    StarAssign,
    SlashAssign,
    PercentAssign,
    PlusPlus,
    MinusMinus,
}

// The names, once for both matches below: `$arms` makes a match of them.
macro_rules! with_names {
    ($arms:ident, $($asked:tt)*) => {
        $arms!($($asked)*;
            MarkWord Break Continue Do Else Extern For If Int Long Return Static Void While
            OpenRound CloseRound OpenCurly CloseCurly Semicolon Comma Plus Minus Star Slash
            Percent Less LessEq Greater GreaterEq Equal NotEqual Amp AmpAmp BarBar Bang
            Question Colon Assign PlusAssign MinusAssign StarAssign SlashAssign PercentAssign
            PlusPlus MinusMinus)
    };
}

macro_rules! kind {
    ($word:expr; $($name:ident)*) => {
        match $word {
            $(Fixed::$name => Kind::$name,)*
        }
    };
}

macro_rules! is_kind {
    ($word:expr, $kind:expr; $($name:ident)*) => {
        match $word {
            $(Fixed::$name => matches!($kind, Kind::$name),)*
        }
    };
}

impl Fixed {
    /// Its kind.
    pub fn kind(self) -> Kind
        ensures { result ≡ kind_of self }
    {
        with_names!(kind, self)
    }
}

impl Kind {
    /// Whether it is the kind of the token of one spelling.
    pub fn is(&self, word: Fixed) -> bool
        ensures { result ≡ is_kind_of word self.now }
    {
        with_names!(is_kind, word, self)
    }
}

/// A law: a token of one spelling has one kind.
pub fn one_kind()
    ensures { HasOneKind }
{}
