//! Laws of the readings of scalars.

ghost use Rattle.input_schema.specs.Laws.{MomentaAreSingle, ValuesAreSingle};

/// A scalar has at most one momentum or fault over the same names, and at most one value or fault. It does
/// nothing when it runs.
pub fn readings_are_single()
    ensures momenta { MomentaAreSingle }
    ensures values { ValuesAreSingle }
{
    momentum_sums::momentum_readings_are_unique();
    rational_expressions::value_readings_are_unique();
}
