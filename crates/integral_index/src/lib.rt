//! Integrals, units, their order, and the sectors that are zero.
#![tactic(auto)]

ghost use Rattle.std.specs.Prelude.{◌≡◌};

pub use index_lists::{dots, is_index_list, r, s, sector, t};
pub use integrals::Integral;
use std::cmp::Ordering;
pub use zeros::ZeroSectors;

mod index_lists;
mod integrals;
pub mod laws;
mod zeros;

/// The orders of complexity in which a job can be reduced. An order is chosen at run time.
#[derive(Clone, Copy, Debug, PartialEq, Eq)]
pub enum Order {
    /// By t, family, sector, r, s, and then the indices.
    Standard,
}

impl Order {
    ghost use Rattle.std.specs.Prelude.{◌≡◌};
    ghost use Rattle.integral_index.specs.Order.{compare};

    /// Compares two integrals: the greater is the more complex. It answers `Equal` exactly where the
    /// two are the same integral, also for integrals of one family whose indices differ in number.
    pub fn compare(&self, x: &Integral, y: &Integral) -> Ordering
        ensures { result ≡ compare self.now x.now y.now }
    {
        match self {
            Order::Standard => x.standard_compare(y),
        }
    }
}

/// A family and one of its sectors: the integrals that are eliminated together.
#[derive(Clone, Copy, Debug, PartialEq, Eq)]
pub struct Unit {
    /// The place of the family in the job, from 0.
    pub family: u32,
    /// The sector number.
    pub sector: u32,
}

impl Unit {
    ghost use Rattle.std.specs.Prelude.{◌≡◌};
    ghost use Rattle.integral_index.specs.Order.{unit_compare};

    /// Compares two units by t of the sector, then by family, then by sector. It answers `Equal`
    /// exactly where the two are the same unit.
    pub fn compare(&self, other: &Unit) -> Ordering
        ensures { result ≡ unit_compare self.now other.now }
    {
        self.sector
            .count_ones()
            .cmp(&other.sector.count_ones())
            .then(self.family.cmp(&other.family))
            .then(self.sector.cmp(&other.sector))
    }
}
