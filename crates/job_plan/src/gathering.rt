//! Gathers the seeds and the selection of a job.

ghost use Rattle.std.specs.Prelude.{◌≡◌, ◌<◌, ◌≤◌, ◌^◌, ◌++◌, All, IfOk, IfErr, OnOk, length, map};
ghost use Rattle.std.specs.List.{AllZip, flat_map};
ghost use Rattle.seed_sets.specs.Seeds.{IsFitting, IsSeedOfSome};
ghost use Rattle.family_schema.specs.Sound as family_file;
ghost use Rattle.job_point.specs.Steps.{Meets, Refuses};
ghost use Rattle.job_point.specs.declared.faults.Excess.TheVariants.{Seeds, Selected};
ghost use Rattle.job_outline.specs.Shapes.{shapes_of};
ghost use Rattle.job_plan.specs.Gathering.{AreFewTerms, AreIntegrals, Gathers, IsSelected};
ghost use Rattle.job_outline.specs.Outlines.{IsSound};
ghost use Rattle.job_plan.specs.Steps.{IsShapeFor};
ghost use Rattle.job_plan.specs.Steps as spec;

use crate::list_files::read_lists;
use crate::terms::test_terms;
use family_schema::Family;
use integral_index::{Integral, Order, ZeroSectors};
use job_outline::Outline;
use job_point::{Excess, PlanError};
use job_schema::Selection;
use out_of_memory::OutOfMemory;
use seed_sets::{SeedFault, Shape, Spec, ascending, list};
use sqlite_items::Items;
use std::alloc::Global;

// The most seeds, and the most selected integrals.
const MOST: u64 = 1 << 17;

/// The seeds and the selection of a job, both ascending, each integral once.
#[derive(Debug, Drop)]
pub struct Integrals {
    /// The seeds of the specs under `reduce`.
    pub seeds: Items<Integral>,
    /// The seeds of the selected specs and the integrals that the list files name.
    pub selection: Items<Integral>,
}

/// What the seeds have to know of the families, in their order.
fn shapes_of(alloc: Global, families: &[Family]) -> Result<Vec<Shape>, OutOfMemory>
    ensures { IfOk result (λ shapes. AllZip IsShapeFor families.now shapes.items) }
{
    let mut shapes = Vec::new(alloc);
    for family in families {
        let zeros = ZeroSectors::new(alloc, family.zero_sectors.as_slice())?;
        shapes.push(Shape {
            width: family.width,
            zeros,
        })?;
    }
    Ok(shapes)
}

/// Why integrals were not listed, as a fault of the plan.
fn excess(what: Excess, fault: SeedFault) -> PlanError
    ensures { result ≡ spec.excess what fault }
{
    match fault {
        SeedFault::TooMany { count } => PlanError::TooMany { what, count },
        SeedFault::OutOfMemory => PlanError::OutOfMemory,
    }
}

/// What was listed, or why it wasn't, as an answer of the plan.
fn told(
    what: Excess,
    answer: Result<Vec<Integral>, SeedFault>,
) -> Result<Items<Integral>, PlanError>
    ensures { result ≡ spec.told what answer }
{
    match answer {
        Ok(found) => Ok(Items::from_vec(found)),
        Err(fault) => Err(excess(what, fault)),
    }
}

/// The seeds of these specs, or that there are too many of these.
fn seeds_of(
    alloc: Global,
    what: Excess,
    specs: &[Spec],
    families: &[Family],
    shapes: &[Shape],
) -> Result<Items<Integral>, PlanError>
    requires shapes { AllZip IsShapeFor families.now shapes.now }
    requires some { All (λ family. 1 ≤ family.width) families.now }
    requires narrow { All (λ family. family.width ≤ 20) families.now }
    requires fitting { All (IsFitting (shapes_of families.now)) specs.now }
    ensures { Meets (Gathers what (IsSeedOfSome specs.now (shapes_of families.now))) result }
{
    told(what, list(alloc, specs, shapes, Order::Standard, MOST))
}

/// The seeds, and behind them the integrals of all lists.
fn joined(
    alloc: Global,
    seeds: &[Integral],
    lists: &[Items<Integral>],
) -> Result<Vec<Integral>, OutOfMemory>
    ensures { IfOk result (λ found. found.items ≡ seeds.now ++ flat_map (λ list. list) lists.now) }
{
    let mut found = Vec::from_slice(alloc, seeds)?;
    for list in lists {
        found.extend_from_slice(list.as_slice())?;
    }
    Ok(found)
}

/// The seeds of these specs and the integrals of the lists, or that there are too many of these.
fn selection_of(
    alloc: Global,
    specs: &[Spec],
    families: &[Family],
    shapes: &[Shape],
    lists: &[Items<Integral>],
) -> Result<Items<Integral>, PlanError>
    requires shapes { AllZip IsShapeFor families.now shapes.now }
    requires some { All (λ family. 1 ≤ family.width) families.now }
    requires narrow { All (λ family. family.width ≤ 20) families.now }
    requires fitting { All (IsFitting (shapes_of families.now)) specs.now }
    ensures { Meets (Gathers Selected (IsSelected specs.now (shapes_of families.now) lists.now)) result }
{
    let seeds = seeds_of(alloc, Excess::Selected, specs, families, shapes)?;
    let found = joined(alloc, seeds.as_slice(), lists)?;
    told(Excess::Selected, ascending(found, Order::Standard, MOST))
}

/// The integrals of a job whose list files have these texts: the files are read, the seeds and the selection
/// are gathered, and the terms are counted.
pub fn integrals_of(
    alloc: Global,
    outline: &Outline,
    texts: &[Vec<u8>],
) -> Result<Integrals, PlanError>
    requires texts { length texts.now ≡ length outline.now.select.files }
    requires short { All (λ text. length text.items ≤ 2 ^ 24) texts.now }
    ensures { Meets (AreIntegrals outline.now (map (λ text. text.items) texts.now)) result }
{
    let families = outline.families();
    let Selection { specs, files } = outline.select();
    let lists = read_lists(alloc, families, files.as_slice(), texts)?;
    let shapes = shapes_of(alloc, families)?;
    let reduce = outline.reduce();
    let seeds = seeds_of(alloc, Excess::Seeds, reduce, families, &shapes)?;
    let selection = selection_of(alloc, specs.as_slice(), families, &shapes, lists.as_slice())?;
    test_terms(alloc, outline.kinematics(), families, seeds.as_slice())?;
    Ok(Integrals { seeds, selection })
}
