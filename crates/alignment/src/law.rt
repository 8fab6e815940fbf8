//! Laws of alignments, each the contract of a function that does nothing. `specs/Laws.antt`
//! states them.
ghost use Rattle.alignment.specs.Laws.{SameMoves, MovesAreDetermined, SomeSideMoves, SomeAtMarks};
ghost use Rattle.alignment.specs.Laws.{StopsElsewhere, GoesOnAtItsMark, EntriesAreNotMet};

/// Moves depend on the segments of both functions alone, and end in one way at most. At each node
/// but that of the two exits some side moves, and at one mark both do. After a segment from a
/// mark a side goes on at that mark, and stops elsewhere. No moves end at the entries.
pub fn law_of_moves()
    ensures same { SameMoves }
    ensures once { MovesAreDetermined }
    ensures some { SomeSideMoves }
    ensures some_at_marks { SomeAtMarks }
    ensures stops { StopsElsewhere }
    ensures goes_on { GoesOnAtItsMark }
    ensures entries { EntriesAreNotMet }
{}
