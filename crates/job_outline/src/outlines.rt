//! What the three files of a job and the words say.

use family_schema::Family;
use job_schema::{NumericPoint, Selection};
use kinematics_schema::Kinematics;
use seed_sets::Spec;
use sqlite_items::Items;
use std::marker::Model;

/// What the three files of a job and the words say, before the list files are read and anything is worked
/// out: the kinematics, the families, the specs, the selection and the numeric point. The project's own.
#[derive(Debug, Drop)]
pub struct Outline {
    pub(crate) kinematics: Kinematics,
    pub(crate) families: Items<Family>,
    pub(crate) reduce: Items<Spec>,
    pub(crate) select: Selection,
    pub(crate) point: NumericPoint,
}

impl Model for Outline {
    ghost use Rattle.job_outline.specs.Outlines.{Outline as OutlineValue, outline_code};

    ghost Value = { OutlineValue };

    ghost coded = { outline_code };

    ghost use Rattle.job_outline.specs.KeptOutline.{shown, IsKept};

    ghost view = { shown };

    ghost invariant = { IsKept };
}

impl Outline {
    ghost use Rattle.std.specs.Prelude.{◌≡◌, ◌<◌, ◌≤◌, ◌^◌, [], length, map, slice_index_or};
    ghost use Rattle.std.specs.Str.{IsAscii};
    ghost use Rattle.job_outline.specs.Outlines.{IsSound};
    ghost use Rattle.job_outline.specs.Readings.{names_of};

    /// How many list files the job selects from, at most 16.
    pub fn list_count(&self) -> u32
        ensures value { result ≡ length self.now.select.files }
        ensures few { result ≤ 16 }
    {
        self.select.files.len() as u32
    }

    /// The name of the list file with this number, counted from 0 in the order in which they are written.
    pub fn list_name(&self, number: u32) -> &str
        requires { number < length self.now.select.files }
        ensures name { result.now ≡ slice_index_or (map (λ file. file.name) self.now.select.files) number [] }
        ensures ascii { IsAscii result.now }
        ensures short { length result.now < 2 ^ 32 }
    {
        self.select.files.as_slice()[number as usize].name.as_str()
    }

    /// How many families the job has, at most 16.
    pub fn family_count(&self) -> u32
        ensures value { result ≡ length self.now.families }
        ensures few { result ≤ 16 }
    {
        self.families.len() as u32
    }

    /// The name of the family with this number, counted from 0 in the order in which they are written.
    pub fn family_name(&self, family: u32) -> &str
        requires { family < length self.now.families }
        ensures name { result.now ≡ slice_index_or (names_of self.now.families) family [] }
        ensures ascii { IsAscii result.now }
        ensures short { length result.now < 2 ^ 32 }
    {
        self.families.as_slice()[family as usize].name.as_str()
    }

    /// The specs whose seeds give the equations.
    pub fn reduce(&self) -> &[Spec]
        ensures { result.now ≡ self.now.reduce }
    {
        self.reduce.as_slice()
    }

    /// What is selected: the seeds of specs, and the integrals that list files name.
    pub fn select(&self) -> &Selection
        ensures { result.now ≡ self.now.select }
    {
        &self.select
    }

    /// The modulus, and the values of the dimension and of the invariants but the one that is replaced by 1.
    pub fn numeric_point(&self) -> &NumericPoint
        ensures { result.now ≡ self.now.point }
    {
        &self.point
    }

    /// What the file of kinematics says.
    pub fn kinematics(&self) -> &Kinematics
        ensures value { result.now ≡ self.now.kinematics }
        ensures sound { IsSound self.now }
    {
        &self.kinematics
    }

    /// What the file of integral families says.
    pub fn families(&self) -> &[Family]
        ensures value { result.now ≡ self.now.families }
        ensures sound { IsSound self.now }
    {
        self.families.as_slice()
    }
}
