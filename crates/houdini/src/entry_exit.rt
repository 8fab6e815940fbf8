//! What a family says where both functions begin, and where both end.
ghost use Rattle.std.specs.Prelude.{◌≡◌, ◌↔◌, length, IsTrue};
ghost use Rattle.horn_clauses.specs.Family.{atoms_at};
ghost use Rattle.horn_clauses.specs.Node.{entries};
ghost use Rattle.horn_clauses.specs.Obligations.{atoms_or_none};
ghost use Rattle.houdini.specs.Round.{MayCouple};

use c_ast::Place;
use horn_clauses::{Family, Node, atoms_or_none, ends_equal};

/// How many atoms the family has at the entries.
pub(crate) fn count_at_entries(family: &Family) -> usize
    ensures { result ≡ length (atoms_or_none (atoms_at family.now entries)) }
{
    atoms_or_none(family, &Node(Place::Entry, Place::Entry)).len()
}

/// Whether the family has at least as many atoms at the entries, and says at the exits that the
/// results are equal.
pub(crate) fn may_couple(family: &Family, at_entries: usize) -> bool
    ensures { IsTrue result ↔ MayCouple family.now at_entries }
{
    at_entries <= count_at_entries(family) && ends_equal(family)
}
