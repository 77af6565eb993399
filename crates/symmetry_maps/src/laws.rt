//! The laws of symmetries: each is the contract of a function that does nothing.

ghost use Rattle.symmetry_maps.specs.Laws.{OneSymmetry, FaultRefutesSymmetry, OneSymmetryEquation, FixedSeedHasEmptyEquation};

/// Independent denominators have at most one permutation for a map of the loop momenta.
pub fn symmetry_is_unique()
    ensures { OneSymmetry }
{}

/// Where a denominator is at fault, there is no such permutation.
pub fn fault_refutes_symmetry()
    ensures { FaultRefutesSymmetry }
{}

/// A seed and a symmetry have only one equation.
pub fn equation_is_unique()
    ensures { OneSymmetryEquation }
{}

/// The equation of a seed that the symmetry leaves as it is shows nothing.
pub fn fixed_seed_has_an_empty_equation()
    ensures { FixedSeedHasEmptyEquation }
{}
