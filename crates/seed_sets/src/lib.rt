//! The seeds of a job: the integrals for which equations are written.
#![tactic(auto)]

ghost use Rattle.std.specs.Prelude.{◌≡◌, ◌↔◌, ◌≤◌, ◌^◌, ℕ, All, Contains, length, IfOk, IfErr};
ghost use Rattle.integral_index.specs.Integral.{Integral as IntegralValue};
ghost use Rattle.seed_sets.specs.Seeds.{Ascends, IsCause, IsFitting, IsSeedOfSome, IsWide};

pub use faults::SeedFault;
use gathering::{Limit, settle};
use integral_index::{Integral, Order, ZeroSectors};
use specs::add_spec;
use std::alloc::Global;

mod endings;
mod faults;
mod gathering;
pub mod laws;
mod specs;

/// One item of what a job seeds: all integrals of a family whose sector is the named one or a
/// subsector of it and isn't zero, up to these sums and dots. Source: arXiv:1705.05610.
#[derive(Clone, Copy, Debug, PartialEq, Eq)]
pub struct Spec {
    /// The place of the family in the job, from 0.
    pub family: u32,
    /// The sector number, below 2 to the power of the family's width.
    pub sector: u32,
    /// The most that the positive indices may add up to; at most 100.
    pub r: u32,
    /// The most that the negative indices may add up to, without the sign; at most 100.
    pub s: u32,
    /// The most dots, where there is such a bound; at most 100.
    pub d: Option<u32>,
}

/// What the seeds need to know of a family.
#[derive(Debug, Drop)]
pub struct Shape {
    /// How many indices its integrals have, from 1 to 20.
    pub width: u32,
    /// The sectors that are zero.
    pub zeros: ZeroSectors,
}

/// The seeds of the specs, ascending in the order, each once. The spec's family is the place of its
/// shape. Where there are more than `most` seeds the answer is `TooMany`, and no more than about
/// twice as many are held at any time. Source of the rule for seeds: arXiv:1705.05610.
pub fn list(
    alloc: Global,
    specs: &[Spec],
    shapes: &[Shape],
    order: Order,
    most: u64,
) -> Result<Vec<Integral>, SeedFault>
    requires widths { All IsWide shapes.now }
    requires fitting { All (IsFitting shapes.now) specs.now }
    requires most { most ≤ 2 ^ 17 }
    ensures ascends { IfOk result (λ seeds. Ascends order seeds.items) }
    ensures members { IfOk result (λ seeds. (x : IntegralValue) → Contains seeds.items x ↔ IsSeedOfSome specs.now shapes.now x) }
    ensures few { IfOk result (λ seeds. length seeds.items ≤ most) }
    ensures many { IfErr result (IsCause order most (IsSeedOfSome specs.now shapes.now)) }
{
    let limit = Limit { order, most };
    let mut found = Vec::new(alloc);
    for spec in specs {
        add_spec(
            alloc,
            &mut found,
            spec,
            &shapes[spec.family as usize],
            limit,
        )?;
    }
    settle(&mut found, limit)?;
    Ok(found)
}

/// These integrals, ascending in the order, each once. Where there are more than `most` different ones the
/// answer is `TooMany`, as `list` says it. It takes no memory.
pub fn ascending(found: Vec<Integral>, order: Order, most: u64) -> Result<Vec<Integral>, SeedFault>
    requires { most ≤ 2 ^ 17 }
    ensures ascends { IfOk result (λ kept. Ascends order kept.items) }
    ensures members { IfOk result (λ kept. (x : IntegralValue) → Contains kept.items x ↔ Contains found.items x) }
    ensures few { IfOk result (λ kept. length kept.items ≤ most) }
    ensures many { IfErr result (IsCause order most (Contains found.items)) }
{
    let mut kept = found;
    settle(&mut kept, Limit { order, most })?;
    Ok(kept)
}
