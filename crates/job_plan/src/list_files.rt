//! Reads the list files of a job.

ghost use Rattle.std.specs.Prelude.{◌≡◌, ◌<◌, ◌≤◌, ◌^◌, All, length, map};
ghost use Rattle.input_schema.specs.Readings.{Gives};
ghost use Rattle.job_point.specs.Steps.{Meets};
ghost use Rattle.job_plan.specs.Faults.{plan_answer};
ghost use Rattle.job_plan.specs.ListFiles.{AreListsRead, IsListRead};

use crate::reader::plan_error;
use family_schema::Family;
use input_schema::SchemaError;
use integral_index::Integral;
use job_point::PlanError;
use job_schema::ListFile;
use list_schema::read_list;
use sqlite_items::Items;
use std::alloc::Global;

/// What the reading of a list file answers, where its fault is one of the input.
fn told(answer: Result<Items<Integral>, SchemaError>) -> Result<Items<Integral>, PlanError>
    ensures { result ≡ plan_answer answer }
{
    match answer {
        Ok(found) => Ok(found),
        Err(refused) => Err(plan_error(refused)),
    }
}

/// The integrals that the list file with this number names, of the family at its place.
fn integrals_of(
    alloc: Global,
    families: &[Family],
    number: u32,
    listed: &ListFile,
    text: &[u8],
) -> Result<Items<Integral>, PlanError>
    requires placed { listed.now.family < length families.now }
    requires some { All (λ family. 1 ≤ family.width) families.now }
    requires narrow { All (λ family. family.width ≤ 20) families.now }
    requires short { length text.now ≤ 2 ^ 24 }
    ensures { Meets (IsListRead families.now number listed.now text.now) result }
{
    let family = &families[listed.family as usize];
    told(read_list(
        alloc,
        number,
        listed.family,
        &family.name,
        family.width,
        text,
    ))
}

/// The integrals that each list file names, the files in order, each with the text at its place.
pub fn read_lists(
    alloc: Global,
    families: &[Family],
    files: &[ListFile],
    texts: &[Vec<u8>],
) -> Result<Items<Items<Integral>>, PlanError>
    requires few { length files.now ≤ 16 }
    requires placed { All (λ file. file.family < length families.now) files.now }
    requires some { All (λ family. 1 ≤ family.width) families.now }
    requires narrow { All (λ family. family.width ≤ 20) families.now }
    requires texts { length texts.now ≡ length files.now }
    requires short { All (λ text. length text.items ≤ 2 ^ 24) texts.now }
    ensures { Meets (AreListsRead families.now files.now (map (λ text. text.items) texts.now)) result }
{
    let mut lists = Items::new(alloc);
    for listed in files {
        let number = lists.len();
        let found = integrals_of(alloc, families, number as u32, listed, &texts[number])?;
        lists.push(found)?;
    }
    Ok(lists)
}
