//! The law of seeded equations: the contract of a function that does nothing.

ghost use Rattle.job_equations.specs.Laws.{OneListOfEquations};

/// Seeds have only one list of equations.
pub fn equations_are_unique()
    ensures { OneListOfEquations }
{
    ibp_generator::laws::equation_is_unique();
    symmetry_maps::laws::equation_is_unique();
}
