//! The law of what is checked, over the definitions alone: the contract of a call that does
//! nothing.
ghost use Rattle.coupling_check.specs.Laws.{CheckedIsRefutable, FailingIsUnproved};

/// Where the proofs of a family check, each of its obligations is refutable; and where one of them
/// fails, they do not check.
pub fn law_of_checks()
    ensures refutable { CheckedIsRefutable }
    ensures unproved { FailingIsUnproved }
{}
