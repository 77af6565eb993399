//! What a job says at its numeric point.

ghost use Rattle.std.specs.Prelude.{◌≡◌, ◌<◌, ◌≤◌, ◌+◌, length, All, IfOk};
ghost use Rattle.std.specs.List.{AllZip};
ghost use Rattle.kinematics_schema.specs.Sound as kinematics_file;
ghost use Rattle.family_schema.specs.Scope.{independent_count};
ghost use Rattle.family_schema.specs.Sound as family_file;
ghost use Rattle.job_point.specs.Steps.{Meets};
ghost use Rattle.kinematics_schema.specs.Parameters.{parameter_count};
ghost use Rattle.job_point.specs.Point.{IsAtPoint, IsBasisOf, AreSymmetriesOf};

use crate::bases::families_at;
use crate::faults::PlanError;
use crate::rules::point_at;
use crate::values::values_at;
use family_schema::Family;
use field_word::Modulus;
use job_schema::NumericPoint;
use kinematics_schema::Kinematics;
use propagators::Basis;
use sqlite_items::Items;
use std::alloc::Global;
use symmetry_maps::Symmetry;

/// What a job says at its numeric point. The project's own.
#[derive(Debug, Drop)]
pub struct AtPoint {
    /// The modulus p.
    pub modulus: Modulus,
    /// The dimension, a residue modulo p.
    pub dimension: u64,
    /// The denominators of each family, in the order of the families.
    pub bases: Items<Basis>,
    /// The symmetries of each family, both in the order of their file.
    pub symmetries: Items<Items<Symmetry>>,
}

/// The values of the invariants and of the dimension, the point of the rules, and the denominators and the
/// symmetries of each family, all at the numeric point. Its settings are the dimension and then the invariants but the one that
/// is replaced by 1, in the order of their file.
///
/// # Errors
///
/// The first that applies; `IsAtPoint` of `specs/Point.antt` says which it is.
/// - For each invariant, in the order of the file, and then for the dimension: ZeroDivisor or Composite,
///   where it has a divisor that is 0 modulo p, or another without inverse.
/// - For the value of each rule: the same for the first division that fails.
/// - For the rules: RulesClash, RulesOpen, or Composite, as `kinematics::point` says.
/// - For each family: ZeroDivisor or Composite for each mass; then NotBasis or Composite, as
///   `propagators::family` says; and then, for each of its symmetries, Input with NotAPermutation and the line
///   of its map, where `symmetry_maps::check` says so.
///
/// `OutOfMemory` where memory was refused; it may go before any of them. `TooMany` never comes.
pub fn at_point(
    alloc: Global,
    kinematics: &Kinematics,
    families: &[Family],
    point: &NumericPoint,
) -> Result<AtPoint, PlanError>
    requires kinematics { kinematics_file.IsSound kinematics.now }
    requires families { All (family_file.IsSound kinematics.now) families.now }
    requires few { length families.now ≤ 16 }
    requires settings { length point.now.settings ≡ parameter_count kinematics.now }
    ensures at_point { Meets (IsAtPoint point.now.prime kinematics.now families.now point.now.settings) result }
    ensures modulus { IfOk result (λ at. at.modulus ≡ point.now.prime) }
    ensures dimension { IfOk result (λ at. at.dimension < point.now.prime) }
    ensures bases { IfOk result (λ at. AllZip (IsBasisOf point.now.prime (independent_count kinematics.now)) families.now at.bases) }
    ensures symmetries { IfOk result (λ at. AllZip AreSymmetriesOf at.bases at.symmetries) }
{
    let modulus = point.prime;
    let settings = point.settings.as_slice();
    let values = values_at(alloc, kinematics.symbol, settings, &modulus)?;
    let residues = values.residues.as_slice();
    let products = point_at(alloc, kinematics, residues, &modulus)?;
    let found = families_at(alloc, families, residues, &products, &modulus)?;
    Ok(AtPoint {
        modulus,
        dimension: values.dimension,
        bases: found.bases,
        symmetries: found.symmetries,
    })
}
