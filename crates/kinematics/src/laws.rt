//! A law of rules.

ghost use Rattle.kinematics.specs.RuleLaws.{ClashHasNoTable, OpenHasNoPoint};

/// Where rules clash, no table meets them; where they leave a product open, no table is the only one
/// that meets them. So for a prime modulus, and where memory is there, `point` answers each of its
/// three answers exactly where it holds. It does nothing when it runs.
pub fn refused_rules_have_no_point()
    ensures clash { ClashHasNoTable }
    ensures open { OpenHasNoPoint }
{}
