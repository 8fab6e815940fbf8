//! The law of numbers that are drawn, over the definitions alone: the contract of a call that does
//! nothing.
ghost use Rattle.verdict_board.specs.Laws.{LengthOfNumbers, NumbersStand, NumbersAreBelow, NumbersStandOnce};

/// A list that holds the numbers below k, each once, has k of them: each number below k stands at
/// a place, only such numbers do, and none stands at two places.
pub fn law_of_numbers()
    ensures length { LengthOfNumbers }
    ensures each { NumbersStand }
    ensures below { NumbersAreBelow }
    ensures once { NumbersStandOnce }
{}
