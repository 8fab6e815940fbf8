//! Laws of the definitions alone. Each is the contract of a call that does nothing.
ghost use Rattle.lin_terms.specs.Laws.{DotOfSum, DotOfMultiple, DotOfJoined, DotOfZeros, DotOfReplicated, DotOfOne, DotOfRest, EntryOfSum, EntryOfMultiple, EntryOfReplicated, EntryOfZeros, LengthOfSum, LengthOfMultiple, DivisorDivides, DivisorIsBelow, DivisorOfJoined, SameDivisors, QuotientIsExact, DotOfQuotients, SumIsNotNegative, ProductIsNotNegative, FactorIsZero, FittingFormsFit, FittingFormsAreWanted, VariablesFit, ValueOfComposed, WholeNumbersAreFractions, NoWiderIsBelow};
ghost use Rattle.lin_terms.specs.Laws.{ValueOfSum, ValueOfMultiple, ValueOfConstant, ValueOfConstantForm, ValueOfVariableForm};
ghost use Rattle.lin_terms.specs.Laws.{SignRowsHold, TightRowsAreSame, TightRowsKeepColumns};

/// The sum of products, of lists that are made of others.
pub fn law_of_dots()
    ensures sums { DotOfSum }
    ensures multiples { DotOfMultiple }
    ensures joined { DotOfJoined }
    ensures zeros { DotOfZeros }
    ensures replicated { DotOfReplicated }
    ensures one { DotOfOne }
    ensures from_a_place { DotOfRest }
{}

/// The entries and the lengths of sums and multiples of lists, and of zeros.
pub fn law_of_vectors()
    ensures entry_of_sum { EntryOfSum }
    ensures entry_of_multiple { EntryOfMultiple }
    ensures entry_of_replicated { EntryOfReplicated }
    ensures entry_of_zeros { EntryOfZeros }
    ensures length_of_sum { LengthOfSum }
    ensures length_of_multiple { LengthOfMultiple }
{}

/// The greatest common divisor of a list, and the quotients by a divisor.
pub fn law_of_divisors()
    ensures divides { DivisorDivides }
    ensures below { DivisorIsBelow }
    ensures joined { DivisorOfJoined }
    ensures same { SameDivisors }
    ensures quotient { QuotientIsExact }
    ensures dot_of_quotients { DotOfQuotients }
{}

/// Numbers that are not negative, and products that are 0.
pub fn law_of_signs()
    ensures sums { SumIsNotNegative }
    ensures products { ProductIsNotNegative }
    ensures factors { FactorIsZero }
{}

/// The values of forms that are made of others, of a constant and of a variable.
pub fn law_of_values()
    ensures sum { ValueOfSum }
    ensures multiple { ValueOfMultiple }
    ensures constant { ValueOfConstant }
    ensures constant_form { ValueOfConstantForm }
    ensures variable_form { ValueOfVariableForm }
{}

/// Forms that are made where they fit, and forms over forms.
pub fn law_of_forms()
    ensures fit { FittingFormsFit }
    ensures wanted { FittingFormsAreWanted }
    ensures variables { VariablesFit }
    ensures composed { ValueOfComposed }
{}

/// Points of rows, and bounds of their entries.
pub fn law_of_rows()
    ensures whole_numbers { WholeNumbersAreFractions }
    ensures bounds { NoWiderIsBelow }
{}

/// Rows that say a form's sign, and tight rows.
pub fn law_of_tight_rows()
    ensures signs { SignRowsHold }
    ensures solutions { TightRowsAreSame }
    ensures columns { TightRowsKeepColumns }
{}
