//! Reads the outline of a job, whose faults are among those of its plan.

ghost use Rattle.std.specs.Prelude.{◌≡◌};
ghost use Rattle.job_outline.specs.Readings.{ReadsOutline};
ghost use Rattle.job_plan.specs.Faults as spec;
ghost use Rattle.job_plan.specs.Faults.{OutlineAnswers};

use input_schema::SchemaError;
use job_outline::{Outline, read_outline};
use job_point::PlanError;
use job_schema::Override;
use std::alloc::Global;
use yaml_text::Tree;

/// The fault of a file or of a word as a fault of the input.
pub(crate) fn plan_error(refused: SchemaError) -> PlanError
    ensures { result ≡ spec.plan_error refused }
{
    match refused {
        SchemaError::Fault(fault) => PlanError::Input(fault),
        SchemaError::OutOfMemory => PlanError::OutOfMemory,
    }
}

/// What the three files of a job and the words say. The trees are walked in the order kinematics, families,
/// jobs, and then the words.
///
/// # Errors
///
/// `Input` with the first fault in this order, with its file, line and kind: `ReadsOutline` of
/// `specs/Readings.antt` says which it is. `OutOfMemory` where memory was refused, and no other.
pub fn outline(
    alloc: Global,
    families: &Tree,
    kinematics: &Tree,
    jobs: &Tree,
    overrides: &[Override],
) -> Result<Outline, PlanError>
    ensures reading { OutlineAnswers (ReadsOutline families.now kinematics.now jobs.now overrides.now) result }
{
    match read_outline(alloc, families, kinematics, jobs, overrides) {
        Ok(outline) => Ok(outline),
        Err(refused) => Err(plan_error(refused)),
    }
}
