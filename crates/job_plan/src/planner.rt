//! Makes the plan of a job from its outline.

ghost use Rattle.std.specs.Prelude.{◌≡◌, ◌<◌, ◌≤◌, ◌^◌, All, IfOk, length, map};
ghost use Rattle.std.specs.List.{AllZip};
ghost use Rattle.integral_index.specs.declared.Order.TheVariants.{Standard};
ghost use Rattle.seed_sets.specs.Seeds.{Ascends};
ghost use Rattle.job_equations.specs.Equations.{AreSymmetriesOf, IsSeedOf};
ghost use Rattle.job_point.specs.Steps.{Meets};
ghost use Rattle.job_plan.specs.Plans.{AreZerosOf, IsOfFamily, IsPlanOf, IsPlan};

use crate::gathering::{Integrals, integrals_of};
use crate::plans::Plan;
use family_schema::Family;
use integral_index::{Order, ZeroSectors};
use job_outline::{Outline, names_of};
use job_point::{AtPoint, PlanError, at_point};
use out_of_memory::OutOfMemory;
use sqlite_items::Items;
use std::alloc::Global;

/// The zero sectors of each family, in their order.
fn zeros_of(alloc: Global, families: &[Family]) -> Result<Items<ZeroSectors>, OutOfMemory>
    ensures { IfOk result (AllZip AreZerosOf families.now) }
{
    let mut zeros = Items::new(alloc);
    for family in families {
        let next = ZeroSectors::new(alloc, family.zero_sectors.as_slice())?;
        zeros.push(next)?;
    }
    Ok(zeros)
}

/// The plan of these families with these integrals and these values at the numeric point.
fn plan_of(
    alloc: Global,
    families: &[Family],
    integrals: Integrals,
    at: AtPoint,
) -> Result<Plan, OutOfMemory>
    requires few { length families.now ≤ 16 }
    requires bases { length at.bases ≡ length families.now }
    requires dimension { at.dimension < at.modulus }
    requires moduli { All (λ basis. basis.point.modulus ≡ at.modulus) at.bases }
    requires symmetries { AllZip AreSymmetriesOf at.bases at.symmetries }
    requires seeds { All (IsSeedOf at.bases) integrals.seeds }
    requires selection { All (IsOfFamily at.bases) integrals.selection }
    requires ascends { Ascends Standard integrals.selection }
    ensures { IfOk result (IsPlanOf families.now integrals at) }
{
    let names = names_of(alloc, families)?;
    let zeros = zeros_of(alloc, families)?;
    Ok(Plan {
        modulus: at.modulus,
        order: Order::Standard,
        dimension: at.dimension,
        names,
        zeros,
        bases: at.bases,
        symmetries: at.symmetries,
        seeds: integrals.seeds,
        selection: integrals.selection,
    })
}

/// The plan of a job whose list files have these texts, of which there is one for each list file of the
/// outline, of at most 2^24 bytes: its seeds and its selection, and what the outline says at the numeric
/// point, in the standard order of the integrals.
///
/// # Errors
///
/// The first that applies; `IsPlan` of `specs/Plans.antt` says which it is.
/// - For each list file in order: Input with the first line at fault, as `list_schema::read_list` says it.
/// - TooMany: more than 2^17 seeds of the specs under `reduce`, told as 2^17 + 1; then more than 2^17
///   selected integrals, told as 2^17 + 1; then more than 2^24 terms, as `job_equations::term_bound` counts
///   them, told as they are.
/// - What `job_point::at_point` says: ZeroDivisor or Composite for the invariants in the order of their file,
///   for the dimension and for the values of the rules; RulesClash, RulesOpen or Composite for the rules; then
///   for each family ZeroDivisor, NotBasis or Composite, and Input for its first map that is no symmetry.
///
/// `OutOfMemory` where memory was refused; it may go before any of them.
pub fn plan(alloc: Global, outline: &Outline, lists: &[Vec<u8>]) -> Result<Plan, PlanError>
    requires texts { length lists.now ≡ length outline.now.select.files }
    requires short { All (λ text. length text.items ≤ 2 ^ 24) lists.now }
    ensures plan { Meets (IsPlan outline.now (map (λ text. text.items) lists.now)) result }
{
    let integrals = integrals_of(alloc, outline, lists)?;
    let families = outline.families();
    let at = at_point(
        alloc,
        outline.kinematics(),
        families,
        outline.numeric_point(),
    )?;
    Ok(plan_of(alloc, families, integrals, at)?)
}
