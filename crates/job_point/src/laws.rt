//! Laws of what a job says at its numeric point.

ghost use Rattle.job_point.specs.Laws.{PointsAreSingle, PointsAgree, PointsNameDivisors, PointsNeverSayMissing};

/// A job says one thing at most at its numeric point, modulo a number above 1. It does nothing when it
/// runs.
pub fn points_are_single()
    ensures { PointsAreSingle }
{
    rational_expressions::values_are_unique();
    symmetry_maps::laws::symmetry_is_unique();
}

/// Any two answers of what a job says at its numeric point are the same, modulo a number above 1: the same
/// value, or the same fault but for the vector or the multipliers that show it; unless one of them names a
/// divisor of the modulus, which lies between 1 and it. So modulo a prime there is one answer. It does
/// nothing when it runs.
pub fn points_agree()
    ensures agree { PointsAgree }
    ensures divisors { PointsNameDivisors }
{
    rational_expressions::values_are_unique();
    kinematics::refused_rules_have_no_point();
    symmetry_maps::laws::symmetry_is_unique();
    symmetry_maps::laws::fault_refutes_symmetry();
}

/// Nothing that a job says at its numeric point is refused as a file that is missing. It does nothing when it
/// runs.
pub fn points_never_say_missing()
    ensures { PointsNeverSayMissing }
{}
