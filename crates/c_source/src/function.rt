//! The function of a text: its tokens, their tree, and the tree with names resolved.
ghost use Rattle.std.specs.Prelude.{◌≡◌, ◌≤◌, ◌⊎◌, length, IfOk, IfErr, MatchResult};
ghost use Rattle.c_ast.specs.Function.{Function};
ghost use Rattle.c_source.specs.declared.fault.TextFault.{TextFault};
ghost use Rattle.c_source.specs.Reads.{Reads, IsRefusal, IsTextFault};

use crate::TextFault;
use c_ast::Func;
use c_check::check;
use c_reader::read_unit;
use c_tokens::tokens;
use std::alloc::Global;

// What comes is so: that nothing else comes follows from the laws.
fn reading(alloc: Global, text: &[u8]) -> Result<Func, TextFault>
    requires { length text.now ≤ 65536 }
    ensures read { IfOk result (Reads text.now) }
    ensures refused { IfErr result (IsTextFault text.now) }
{
    let tokens = tokens(alloc, text)?;
    let unit = read_unit(alloc, &tokens)?;
    Ok(check(alloc, unit)?)
}

/// The function that a text is read as, or why it is read as none: its first faulty place, then
/// what is wrong with its tokens, then the first rule that its tree breaks. The text has at most
/// 65,536 bytes.
pub fn read_function(alloc: Global, text: &[u8]) -> Result<Func, TextFault>
    requires { length text.now ≤ 65536 }

    // What comes is so.
    ensures read { IfOk result (Reads text.now) }
    ensures refused { IfErr result (IsTextFault text.now) }

    // A text that is read as a function gives it, unless memory ran out.
    ensures only { (made : Function) → Reads text.now made →
        MatchResult result (λ given. given ≡ made) (λ fault. fault ≡ TextFault.Memory) }

    // A text that is refused gives its refusal, unless memory ran out.
    ensures only_fault { (fault : TextFault) → IsRefusal text.now fault →
        MatchResult result (λ given. ⊥) (λ given. (given ≡ fault) ⊎ (given ≡ TextFault.Memory)) }
{
    reading(alloc, text)
}
