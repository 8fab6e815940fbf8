//! Laws of the definitions alone. Each is the contract of a call that does nothing.
ghost use Rattle.houdini.specs.Laws.{SearchesAreComplete, GreatestIsOne};

/// Where no obligation of any family of the candidates meets a limit in elimination, a search keeps
/// a family exactly where one is linear, and answers that there is no coupling exactly where none
/// is. There is one greatest linear family.
pub fn law_of_searches()
    ensures complete { SearchesAreComplete }
    ensures one { GreatestIsOne }
{}
