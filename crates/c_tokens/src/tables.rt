//! The keywords and the operators of C, each with its token where the profile has it, and the
//! suffixes of constants.
//!
//! `specs/Tables.antt` has the same rows for the definitions: the searches in these tables
//! (`words`, `constants`) are proved to be searches in those, row by row. A change of a row is a
//! change of both.
use crate::fixed::Fixed;

/// A spelling, and its token where the profile has it.
pub type Row = (&'static str, Option<Fixed>);

/// The keywords (ISO C11, 6.4.1).
#[rattlefmt::skip]
pub const KEYWORDS: [Row; 44] = [
    ("auto",           None),
    ("break",          Some(Fixed::Break)),
    ("case",           None),
    ("char",           None),
    ("const",          None),
    ("continue",       Some(Fixed::Continue)),
    ("default",        None),
    ("do",             Some(Fixed::Do)),
    ("double",         None),
    ("else",           Some(Fixed::Else)),
    ("enum",           None),
    ("extern",         Some(Fixed::Extern)),
    ("float",          None),
    ("for",            Some(Fixed::For)),
    ("goto",           None),
    ("if",             Some(Fixed::If)),
    ("inline",         None),
    ("int",            Some(Fixed::Int)),
    ("long",           Some(Fixed::Long)),
    ("register",       None),
    ("restrict",       None),
    ("return",         Some(Fixed::Return)),
    ("short",          None),
    ("signed",         None),
    ("sizeof",         None),
    ("static",         Some(Fixed::Static)),
    ("struct",         None),
    ("switch",         None),
    ("typedef",        None),
    ("union",          None),
    ("unsigned",       None),
    ("void",           Some(Fixed::Void)),
    ("volatile",       None),
    ("while",          Some(Fixed::While)),
    ("_Alignas",       None),
    ("_Alignof",       None),
    ("_Atomic",        None),
    ("_Bool",          None),
    ("_Complex",       None),
    ("_Generic",       None),
    ("_Imaginary",     None),
    ("_Noreturn",      None),
    ("_Static_assert", None),
    ("_Thread_local",  None),
];

/// The operators and punctuators (ISO C11, 6.4.6): those that begin alike stand together, longer
/// ones first. The common ones of the profile come first.
#[rattlefmt::skip]
pub const OPERATORS: [Row; 54] = [
    ("(",    Some(Fixed::OpenRound)),
    (")",    Some(Fixed::CloseRound)),
    ("{",    Some(Fixed::OpenCurly)),
    ("}",    Some(Fixed::CloseCurly)),
    (";",    Some(Fixed::Semicolon)),
    (",",    Some(Fixed::Comma)),
    ("++",   Some(Fixed::PlusPlus)),
    ("+=",   Some(Fixed::PlusAssign)),
    ("+",    Some(Fixed::Plus)),
    ("==",   Some(Fixed::Equal)),
    ("=",    Some(Fixed::Assign)),
    ("<<=",  None),
    ("<=",   Some(Fixed::LessEq)),
    ("<<",   None),
    ("<:",   None),
    ("<%",   None),
    ("<",    Some(Fixed::Less)),
    (">>=",  None),
    (">=",   Some(Fixed::GreaterEq)),
    (">>",   None),
    (">",    Some(Fixed::Greater)),
    ("--",   Some(Fixed::MinusMinus)),
    ("-=",   Some(Fixed::MinusAssign)),
    ("->",   None),
    ("-",    Some(Fixed::Minus)),
    ("&&",   Some(Fixed::AmpAmp)),
    ("&=",   None),
    ("&",    Some(Fixed::Amp)),
    ("||",   Some(Fixed::BarBar)),
    ("|=",   None),
    ("|",    None),
    ("!=",   Some(Fixed::NotEqual)),
    ("!",    Some(Fixed::Bang)),
    ("*=",   Some(Fixed::StarAssign)),
    ("*",    Some(Fixed::Star)),
    ("?",    Some(Fixed::Question)),
    (":>",   None),
    (":",    Some(Fixed::Colon)),
    ("[",    None),
    ("]",    None),
    ("...",  None),
    (".",    None),
    ("/=",   Some(Fixed::SlashAssign)),
    ("/",    Some(Fixed::Slash)),
    ("%:%:", None),
    ("%=",   Some(Fixed::PercentAssign)),
    ("%:",   None),
    ("%>",   None),
    ("%",    Some(Fixed::Percent)),
    ("^=",   None),
    ("^",    None),
    ("~",    None),
    ("##",   None),
    ("#",    None),
];

/// The suffixes of a constant (ISO C11, 6.4.4.1), none among them; those of unsigned types are
/// outside the profile.
pub const SUFFIXES: [&str; 5] = ["", "l", "L", "ll", "LL"];
