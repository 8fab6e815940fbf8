//! The operators of expressions, by how tightly they bind (ISO C11, 6.5.3 to 6.5.14).
ghost use Rattle.std.specs.Prelude.{◌≡◌, ◌≤◌, IfSome};
ghost use Rattle.c_reader.specs.Expressions.{unary_of, operator_of};

use c_ast::{BinOp, UnOp};
use c_tokens::Kind;

/// The level of `||`, the loosest binary operator. A greater level binds tighter.
pub const LOOSEST: u32 = 1;

/// The operation that a token stands for before its operand, if it is such a sign.
pub fn unary_of(kind: &Kind) -> Option<UnOp>
    ensures { result ≡ unary_of kind.now }
{
    match kind {
        Kind::Plus => Some(UnOp::Plus),
        Kind::Minus => Some(UnOp::Minus),
        Kind::Bang => Some(UnOp::Not),
        _ => None,
    }
}

/// The level and the operation of a binary operator.
pub fn operator_of(kind: &Kind) -> Option<(u32, BinOp)>
    ensures operator { result ≡ operator_of kind.now }
    ensures level { IfSome result (λ x. x.0 ≤ 6) }
{
    match kind {
        Kind::BarBar => Some((1, BinOp::Or)),
        Kind::AmpAmp => Some((2, BinOp::And)),
        Kind::Equal => Some((3, BinOp::Equal)),
        Kind::NotEqual => Some((3, BinOp::NotEqual)),
        Kind::Less => Some((4, BinOp::Less)),
        Kind::LessEq => Some((4, BinOp::LessEq)),
        Kind::Greater => Some((4, BinOp::Greater)),
        Kind::GreaterEq => Some((4, BinOp::GreaterEq)),
        Kind::Plus => Some((5, BinOp::Add)),
        Kind::Minus => Some((5, BinOp::Sub)),
        Kind::Star => Some((6, BinOp::Mul)),
        Kind::Slash => Some((6, BinOp::Div)),
        Kind::Percent => Some((6, BinOp::Rem)),
        _ => None,
    }
}
