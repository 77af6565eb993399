//! Reads the three files of a job and the words.

ghost use Rattle.std.specs.Prelude.{◌≡◌, ◌≤◌, All, IfOk, length, map};
ghost use Rattle.input_schema.specs.Readings.{Answers, Gives};
ghost use Rattle.seed_sets.specs.Seeds.{IsFitting};
ghost use Rattle.kinematics_schema.specs.Sound as kinematics_file;
ghost use Rattle.job_schema.specs.Jobs.{jobs};
ghost use Rattle.job_schema.specs.Overrides.{numeric_point};
ghost use Rattle.job_outline.specs.Outlines.{AreFamilies, IsSelection};
ghost use Rattle.job_outline.specs.Shapes.{shapes_of};
ghost use Rattle.job_outline.specs.Readings.{names_of, frame_of, ReadsJob, ReadsOutline};

use crate::outlines::Outline;
use crate::parts::{frames_of, names_of, parameters_of};
use family_schema::Family;
use input_schema::SchemaError;
use job_schema::{Job, NumericPoint, Override, PointInput, override_point, read_jobs};
use kinematics_schema::Kinematics;
use sqlite_items::Items;
use std::alloc::Global;
use text_tokens::Name;
use yaml_text::Tree;

/// What the file of jobs says, where the job has these families and parameters.
fn job_of(
    alloc: Global,
    families: &[Family],
    parameters: &[Name],
    tree: &Tree,
) -> Result<Job, SchemaError>
    requires few { length families.now ≤ 16 }
    requires widths { All (λ family. family.width ≤ 20) families.now }
    ensures reduce { IfOk result (λ job. All (IsFitting (shapes_of families.now)) job.reduce) }
    ensures select { IfOk result (λ job. IsSelection families.now job.select) }
    ensures job { Gives (jobs (names_of families.now) (map frame_of families.now) parameters.now tree.now) result }
    ensures settings { IfOk result (λ job. length job.point.settings ≡ length parameters.now) }
{
    let names = names_of(alloc, families)?;
    let frames = frames_of(alloc, families)?;
    read_jobs(alloc, &names, &frames, parameters, tree)
}

/// The numeric point of the file with the values of the words, for these parameters.
fn point_of(
    alloc: Global,
    parameters: &[Name],
    point: PointInput,
    words: &[Override],
) -> Result<NumericPoint, SchemaError>
    requires { length point.settings ≡ length parameters.now }
    ensures point { Gives (numeric_point parameters.now point words.now) result }
    ensures settings { IfOk result (λ found. length found.settings ≡ length parameters.now) }
{
    override_point(alloc, parameters, point, words)
}

/// What the file of jobs and then the words say, where the files before say this.
fn read_job(
    alloc: Global,
    kinematics: Kinematics,
    families: Items<Family>,
    tree: &Tree,
    words: &[Override],
) -> Result<Outline, SchemaError>
    requires kinematics_sound { kinematics_file.IsSound kinematics }
    requires families_sound { AreFamilies kinematics families }
    ensures { Answers (ReadsJob kinematics families tree.now words.now) result }
{
    let parameters = parameters_of(alloc, &kinematics)?;
    let job = job_of(alloc, families.as_slice(), &parameters, tree)?;
    let Job {
        reduce,
        select,
        point,
    } = job;
    let point = point_of(alloc, &parameters, point, words)?;
    Ok(Outline {
        kinematics,
        families,
        reduce,
        select,
        point,
    })
}

/// What the three files of a job and then the words say. The trees are walked in the order kinematics,
/// families, jobs, and then the words.
///
/// # Errors
///
/// The first fault in this order, with its file, line and kind: `ReadsOutline` of `specs/Readings.antt` says
/// which it is; or that memory was refused.
pub fn read_outline(
    alloc: Global,
    families: &Tree,
    kinematics: &Tree,
    jobs: &Tree,
    words: &[Override],
) -> Result<Outline, SchemaError>
    ensures { Answers (ReadsOutline families.now kinematics.now jobs.now words.now) result }
{
    let kinematics = kinematics_schema::read(alloc, kinematics)?;
    let families = family_schema::read(alloc, &kinematics, families)?;
    read_job(alloc, kinematics, families, jobs, words)
}
