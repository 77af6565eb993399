//! The plan of a job at its numeric point.

use field_word::Modulus;
use integral_index::{Integral, Order, ZeroSectors};
use out_of_memory::OutOfMemory;
use propagators::Basis;
use sparse_row::Row;
use sqlite_items::Items;
use std::marker::Model;
use symmetry_maps::Symmetry;
use text_tokens::Name;

/// What a job says at its numeric point, as its equations and its table are made from it: the modulus, the
/// order of the integrals, the dimension, the name, the zero sectors, the denominators and the symmetries of
/// each family, the seeds of the equations, and the selected integrals. The project's own.
#[derive(Debug, Drop)]
pub struct Plan {
    pub(crate) modulus: Modulus,
    pub(crate) order: Order,
    pub(crate) dimension: u64,
    pub(crate) names: Vec<Name>,
    pub(crate) zeros: Items<ZeroSectors>,
    pub(crate) bases: Items<Basis>,
    pub(crate) symmetries: Items<Items<Symmetry>>,
    pub(crate) seeds: Items<Integral>,
    pub(crate) selection: Items<Integral>,
}

impl Model for Plan {
    ghost use Rattle.job_plan.specs.Plans.{Plan as PlanValue};

    ghost Value = { PlanValue };

    ghost use Rattle.job_plan.specs.KeptPlan.{shown, IsKept};

    ghost view = { shown };

    ghost invariant = { IsKept };
}

impl Plan {
    ghost use Rattle.std.specs.Prelude.{◌≡◌, ◌<◌, ◌≤◌, [], Some, All, IfOk, length, slice_get, slice_index_or};
    ghost use Rattle.seed_sets.specs.Seeds.{Ascends};
    ghost use Rattle.sparse_row.specs.Row.{IsRow};
    ghost use Rattle.job_equations.specs.Equations.{AreEquations};
    ghost use Rattle.job_plan.specs.Plans.{IsOfFamily, IsWhole, widths_of};

    /// The modulus p.
    pub fn modulus(&self) -> Modulus
        ensures { result ≡ self.now.modulus }
    {
        self.modulus
    }

    /// The order of the integrals.
    pub fn order(&self) -> Order
        ensures { result ≡ self.now.order }
    {
        self.order
    }

    /// The selected integrals: the seeds of the selected specs and the integrals that the list files name,
    /// ascending, each once. Each is of a family of the plan, with an index for each of its denominators.
    pub fn selection(&self) -> &[Integral]
        ensures value { result.now ≡ self.now.selection }
        ensures ascends { Ascends self.now.order self.now.selection }
        ensures families { All (λ x. x.family < length self.now.zeros) self.now.selection }
        ensures widths { All (IsOfFamily self.now.bases) self.now.selection }
    {
        self.selection.as_slice()
    }

    /// How many families the job has, at most 16.
    pub fn family_count(&self) -> u32
        ensures value { result ≡ length self.now.names }
        ensures few { result ≤ 16 }
    {
        self.names.len() as u32
    }

    /// The name of the family with this number, counted from 0 in the order in which they are written.
    pub fn family_name(&self, family: u32) -> &str
        requires { family < length self.now.names }
        ensures { result.now ≡ slice_index_or self.now.names family [] }
    {
        self.names[family as usize].as_str()
    }

    /// The names of all families, in their order.
    pub fn names(&self) -> &[Name]
        ensures { result.now ≡ self.now.names }
    {
        self.names.as_slice()
    }

    /// The zero sectors of the family with this number, counted from 0.
    pub fn zeros(&self, family: u32) -> &ZeroSectors
        requires { family < length self.now.names }
        ensures { result.now ≡ slice_index_or self.now.zeros family [] }
    {
        &self.zeros.as_slice()[family as usize]
    }

    /// The zero sectors of each family, in their order.
    pub fn zero_lists(&self) -> &[ZeroSectors]
        ensures value { result.now ≡ self.now.zeros }
        ensures whole { IsWhole self.now }
    {
        self.zeros.as_slice()
    }

    /// How many denominators the family with this number has, counted from 0: so many indices have its
    /// integrals.
    pub fn width(&self, family: u32) -> u32
        requires { family < length self.now.names }
        ensures value { result ≡ slice_index_or (widths_of self.now.bases) family 0 }
        ensures some { 1 ≤ result }
        ensures narrow { result ≤ 20 }
    {
        self.basis(family).width()
    }

    /// The denominators of the family with this number, counted from 0, at the numeric point.
    pub(crate) fn basis(&self, family: u32) -> &Basis
        requires { family < length self.now.names }
        ensures value { slice_get self.now.bases family ≡ Some result.now }
        ensures modulus { result.now.point.modulus ≡ self.now.modulus }
    {
        &self.bases.as_slice()[family as usize]
    }

    /// How many seeds the equations have.
    pub fn seed_count(&self) -> u64
        ensures { result ≡ length self.now.seeds }
    {
        self.seeds.len() as u64
    }

    /// The equations of the seeds, which ascend: for each seed first those of all pairs of a loop momentum and
    /// a momentum, the loop momentum outer, and then those of its family's symmetries, in the order of their
    /// file. An equation in which all cancels or vanishes is there as the empty row. Source: arXiv:1705.05610.
    ///
    /// # Errors
    ///
    /// `OutOfMemory` where memory was refused.
    pub fn equations(&self) -> Result<Vec<Row>, OutOfMemory>
        ensures equations { IfOk result (λ rows. AreEquations self.now.bases self.now.symmetries self.now.zeros self.now.dimension self.now.order self.now.seeds rows.items) }
        ensures rows { IfOk result (λ rows. All (IsRow self.now.modulus self.now.order) rows.items) }
    {
        job_equations::equations(
            *self.names.allocator(),
            self.bases.as_slice(),
            self.symmetries.as_slice(),
            self.zeros.as_slice(),
            self.dimension,
            self.seeds.as_slice(),
            self.order,
            &self.modulus,
        )
    }
}
