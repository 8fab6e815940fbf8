//! Laws of the definitions.
ghost use Rattle.c_check.specs.Checked.{IsSameFunction};
ghost use Rattle.c_check.specs.Condition.{IsSameCondition};

/// A file stands for one function at most.
pub fn one_function()
    ensures { IsSameFunction }
{}

/// A condition stands for one expression at most.
pub fn one_condition()
    ensures { IsSameCondition }
{}
