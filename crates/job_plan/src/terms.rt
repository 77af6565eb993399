//! Counts the terms of the equations of seeds before any is written.

ghost use Rattle.std.specs.Prelude.{◌≡◌, ◌<◌, ◌≤◌, ◌^◌, All, IfOk, length, map};
ghost use Rattle.integral_index.specs.Integral.{Integral as IntegralValue};
ghost use Rattle.kinematics_schema.specs.Sound as kinematics_file;
ghost use Rattle.job_equations.specs.Bounds.{IsEquationShape};
ghost use Rattle.job_equations.specs.Bounds as bound;
ghost use Rattle.job_point.specs.Steps.{Meets};
ghost use Rattle.job_outline.specs.Outlines.{AreFamilies};
ghost use Rattle.job_plan.specs.Shapes.{equation_shape_of, terms_of};
ghost use Rattle.job_plan.specs.Gathering.{AreFewTerms};

use family_schema::Family;
use integral_index::Integral;
use job_equations::{EquationShape, term_bound};
use job_point::{Excess, PlanError};
use kinematics_schema::Kinematics;
use out_of_memory::OutOfMemory;
use std::alloc::Global;

// The most terms, as the bound counts them.
const MOST_TERMS: u64 = 1 << 24;

/// What the bound on the terms has to know of the families, in their order.
fn shapes_of(
    alloc: Global,
    kinematics: &Kinematics,
    families: &[Family],
) -> Result<Vec<EquationShape>, OutOfMemory>
    requires kinematics { kinematics_file.IsSound kinematics.now }
    requires families { AreFamilies kinematics.now families.now }
    ensures { IfOk result (λ shapes. shapes.items ≡ map (equation_shape_of kinematics.now) families.now) }
{
    let externals = kinematics.independent_count() as u32;
    let mut shapes = Vec::new(alloc);
    for family in families {
        shapes.push(EquationShape {
            loops: family.loops.len() as u32,
            externals,
            width: family.width,
            symmetries: family.symmetries.len() as u32,
        })?;
    }
    Ok(shapes)
}

/// Whether the terms are few.
fn tested(terms: u64) -> Result<(), PlanError>
    ensures { Meets (AreFewTerms terms) result }
{
    if terms > MOST_TERMS {
        return Err(PlanError::TooMany {
            what: Excess::Terms,
            count: terms,
        });
    }
    Ok(())
}

/// Whether the terms of the equations of these seeds are few.
pub fn test_terms(
    alloc: Global,
    kinematics: &Kinematics,
    families: &[Family],
    seeds: &[Integral],
) -> Result<(), PlanError>
    requires kinematics { kinematics_file.IsSound kinematics.now }
    requires families { AreFamilies kinematics.now families.now }
    requires seeds { All (λ seed. seed.family < length families.now) seeds.now }
    requires few { length seeds.now ≤ 2 ^ 17 }
    ensures { Meets (AreFewTerms (terms_of kinematics.now families.now seeds.now)) result }
{
    let shapes = shapes_of(alloc, kinematics, families)?;
    tested(term_bound(&shapes, seeds))
}
