//! Laws of the definitions alone. Each is the contract of a call that does nothing.
ghost use Rattle.relation.specs.Invariants.{LawOfInvariants};
ghost use Rattle.relation.specs.Coupling.{LawOfCouplings, CouplesUnderEach};
ghost use Rattle.relation.specs.Linear.{SoundnessOfProducts, RefutableIsRefuted};
ghost use Rattle.relation.specs.Linear.{LinearFamiliesCouple};
ghost use Rattle.relation.specs.Coupled.{CoupledNeverDiffer};

/// What is said at the entries, kept by the moves of both functions, and forces equal results at
/// the exits, shows that no inputs that meet the condition make the two return differently.
pub fn law_of_invariants()
    ensures { LawOfInvariants }
{}

/// Where a family is a coupling of two functions, no inputs that meet the condition make the two
/// return differently. A coupling of all inputs is one under each condition.
pub fn law_of_couplings()
    ensures couplings { LawOfCouplings }
    ensures each { CouplesUnderEach }
{}

/// A family over the product of the graphs of two functions is a coupling of these where no whole
/// numbers meet any of its obligations, and so where multipliers refute each of them.
pub fn law_of_linear_families()
    ensures sound { SoundnessOfProducts }
    ensures refuted { RefutableIsRefuted }
    ensures linear { LinearFamiliesCouple }
{}

/// No inputs that meet the condition make the functions of a coupled comparison return differently.
pub fn law_of_coupled()
    ensures { CoupledNeverDiffer }
{}
