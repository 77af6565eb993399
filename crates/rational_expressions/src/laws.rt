//! Laws of the readings of values, and of the values of expressions.

ghost use Rattle.rational_expressions.specs.Laws.{ReadsAsOneValue, HasOneValueFault, ValueHasNoFault, HasOneOutcome};

/// A text has at most one reading as a value, or at most one first fault, and never both. It does nothing
/// when it runs.
pub fn value_readings_are_unique()
    ensures value { ReadsAsOneValue }
    ensures value_fault { HasOneValueFault }
    ensures value_or_fault { ValueHasNoFault }
{}

/// An expression has at most one value, or one fault, modulo a number above 1. It does nothing when it
/// runs.
pub fn values_are_unique()
    ensures { HasOneOutcome }
{}
