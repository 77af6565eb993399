//! The sectors that are zero.

ghost use Rattle.std.specs.Prelude.{◌≡◌, ◌↔◌, ℕ, Contains, IfOk};
ghost use Rattle.std.specs.List.Sorted.{IsStrictlyIncreasing};
ghost use Rattle.std.specs.List.{list_any};
ghost use Rattle.integral_index.specs.ZeroSectors.{is_subsector, is_zero_sector};

use out_of_memory::OutOfMemory;
use std::alloc::Global;
use std::marker::Model;

/// The sectors of a family that are listed as zero, ascending and each once. A subsector of one
/// of them is zero too, and so is sector 0.
#[derive(Debug, Drop)]
pub struct ZeroSectors {
    listed: Vec<u32>,
}

// Clauses see the ascending list.
impl Model for ZeroSectors {
    ghost use Rattle.std.specs.Prelude.{List, ℕ};
    ghost use Rattle.std.specs.List.Sorted.{IsStrictlyIncreasing};

    ghost Value = { List ℕ };

    ghost view = { λ z. z.listed.items };

    ghost invariant = { λ z. IsStrictlyIncreasing z.listed.items };
}

impl ZeroSectors {
    /// Keeps the listed sectors, which may come in any order and more than once.
    pub fn new(alloc: Global, listed: &[u32]) -> Result<ZeroSectors, OutOfMemory>
        ensures ascending { IfOk result (λ zeros. IsStrictlyIncreasing zeros) }
        ensures members { IfOk result
            (λ zeros. (sector : ℕ) → Contains zeros sector ↔ Contains listed.now sector) }
        ensures same_zeros { IfOk result
            (λ zeros. (sector : ℕ) → is_zero_sector zeros sector ≡ is_zero_sector listed.now sector) }
    {
        let mut kept = Vec::from_slice(alloc, listed)?;
        kept.sort_unstable();
        kept.dedup();
        Ok(ZeroSectors { listed: kept })
    }

    /// Whether the sector is 0, is listed, or has only bits of a listed one.
    pub fn is_zero(&self, sector: u32) -> bool
        ensures { result ≡ is_zero_sector self.now sector }
    {
        sector == 0 || has_superset(&self.listed, sector)
    }

    /// The listed sectors, ascending, each once.
    pub fn listed(&self) -> &[u32]
        ensures value { result.now ≡ self.now }
        ensures ascending { IsStrictlyIncreasing result.now }
    {
        self.listed.as_slice()
    }
}

// Whether the sector is a subsector of a listed one.
fn has_superset(listed: &[u32], sector: u32) -> bool
    ensures { result ≡ list_any (λ other. is_subsector sector other) listed.now }
{
    listed.iter().any(|other| sector & *other == sector)
}
