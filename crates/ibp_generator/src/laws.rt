//! The law of equations: the contract of a function that does nothing.

ghost use Rattle.ibp_generator.specs.Laws.{OneEquation};

/// A seed, a loop momentum and a momentum have only one equation.
pub fn equation_is_unique()
    ensures { OneEquation }
{}
