//! Laws of the definitions alone. Each is the contract of a call that does nothing.
ghost use Rattle.elimination.specs.Laws.{LawOfLimits, LawOfMultipliers, LawOfPoints, LawOfRefutability, LawOfRefutations};

/// In each list that an elimination makes, each row is the sum of the given rows, each times its
/// multiplier. At inequalities multipliers are not negative, and 0 where the row is an equality.
pub fn law_of_multipliers()
    ensures { LawOfMultipliers }
{}

/// The multipliers that an elimination answers refute the given rows, and they are below 2^56 in
/// size.
pub fn law_of_refutations()
    ensures { LawOfRefutations }
{}

/// Where an elimination answers that rows of one length are not refutable, they have a point.
pub fn law_of_points()
    ensures { LawOfPoints }
{}

/// Where an elimination meets no limit, it answers multipliers exactly where some refute the rows.
/// They may be of any size.
pub fn law_of_refutability()
    ensures { LawOfRefutability }
{}

/// Want of memory is no limit of the method.
pub fn law_of_limits()
    ensures { LawOfLimits }
{}
