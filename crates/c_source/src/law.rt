//! Laws of what is read of texts, as the contracts of functions that do nothing.
ghost use Rattle.c_source.specs.Reads.{HasOneReading, HasOneRefusal, ReadIsNotRefused, RefusalIsNoWant};
ghost use Rattle.c_source.specs.ReadsCondition.{HasOneCondition, HasOneConditionRefusal, ReadConditionIsNotRefused, ConditionRefusalIsNoWant};

/// A text is read as one function at most, or else is refused for one reason at most, which is not
/// want of memory.
pub fn law_of_functions()
    ensures one { HasOneReading }
    ensures one_refusal { HasOneRefusal }
    ensures not_both { ReadIsNotRefused }
    ensures no_want { RefusalIsNoWant }
{}

/// A text is read as one condition on a function's inputs at most, or else is refused for one
/// reason at most, which is not want of memory.
pub fn law_of_conditions()
    ensures one { HasOneCondition }
    ensures one_refusal { HasOneConditionRefusal }
    ensures not_both { ReadConditionIsNotRefused }
    ensures no_want { ConditionRefusalIsNoWant }
{}
