//! The plan of the sources of a job.

ghost use Rattle.std.specs.Prelude.{◌≡◌, ◌⊎◌, ◌<◌, ◌≤◌, ◌^◌, All, length, map};
ghost use Rattle.std.specs.Str.{IsAscii};
ghost use Rattle.job_plan.specs.Plans.{IsPlan};
ghost use Rattle.kira_app.specs.Steps.{OfPlan};
ghost use Rattle.kira_app.specs.Told.{Answers};
ghost use Rattle.kira_app.specs.Plans.{name_of_file, family_name, refusal_of};

use crate::job_files::Sources;
use crate::loading::{named, outline};
use crate::{Refusal, Status};
use job_plan::{File, Outline, Override, Plan, PlanError, Singular};
use std::alloc::Global;

// The name of the file at fault, where it is a list file, and else no byte.
fn name_of_file(outline: &Outline, file: File) -> &str
    ensures name { result.now ≡ name_of_file outline.now file }
    ensures ascii { IsAscii result.now }
    ensures short { length result.now < 2 ^ 32 }
{
    match file {
        File::List(number) if number < outline.list_count() => outline.list_name(number),
        _ => "",
    }
}

// The name of the family with this number.
fn family_name(outline: &Outline, family: u32) -> &str
    ensures name { result.now ≡ family_name outline.now family }
    ensures ascii { IsAscii result.now }
    ensures short { length result.now < 2 ^ 32 }
{
    if family < outline.family_count() {
        outline.family_name(family)
    } else {
        ""
    }
}

// Why the outline has no plan; want of memory, where a name can't be copied.
fn refused(alloc: Global, outline: &Outline, error: PlanError) -> Refusal
    ensures { (result ≡ refusal_of outline.now error) ⊎ (result.status ≡ Status.OutOfMemory) }
{
    match error {
        PlanError::Input(fault) => named(
            alloc,
            Status::Input(fault),
            name_of_file(outline, fault.file),
        ),
        PlanError::Singular(Singular::NotBasis { family, vector }) => named(
            alloc,
            Status::Singular(Singular::NotBasis { family, vector }),
            family_name(outline, family),
        ),
        PlanError::Singular(cause) => Refusal::plain(alloc, Status::Singular(cause)),
        PlanError::RulesClash {
            multipliers,
            residue,
        } => Refusal::plain(
            alloc,
            Status::RulesClash {
                multipliers,
                residue,
            },
        ),
        PlanError::Composite(fault) => Refusal::plain(alloc, Status::Composite(fault)),
        PlanError::TooMany { what, count } => {
            Refusal::plain(alloc, Status::TooMany { what, count })
        }
        PlanError::OutOfMemory => Refusal::plain(alloc, Status::OutOfMemory),
    }
}

// The plan of an outline whose list files have these texts.
fn planned(alloc: Global, outline: &Outline, lists: &[Vec<u8>]) -> Result<Plan, Refusal>
    requires texts { length lists.now ≡ length outline.now.select.files }
    requires short { All (λ text. length text.items ≤ 2 ^ 24) lists.now }
    ensures { Answers (OfPlan (refusal_of outline.now) (IsPlan outline.now (map (λ text. text.items) lists.now))) result }
{
    match job_plan::plan(alloc, outline, lists) {
        Ok(plan) => Ok(plan),
        Err(error) => Err(refused(alloc, outline, error)),
    }
}

impl Sources {
    ghost use Rattle.kira_app.specs.Plans.{PlanOfSources};
    ghost use Rattle.kira_app.specs.Told.{Answers};

    /// The plan of the job with these words in place of its values.
    ///
    /// # Errors
    ///
    /// The first fault of the words, of the lines of the list files, of the limits and of what the job says
    /// at its numeric point.
    pub fn plan(&self, overrides: &[Override]) -> Result<Plan, Refusal>
        ensures { Answers (PlanOfSources overrides.now self.now) result }
    {
        let alloc = *self.lists.allocator();
        match outline(alloc, &self.trees, overrides) {
            Ok(outline) => planned(alloc, &outline, &self.lists),
            Err(status) => Err(Refusal::plain(alloc, status)),
        }
    }
}
