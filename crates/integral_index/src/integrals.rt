//! An integral: a family and a list of indices, with the numbers by which it is compared.

ghost use Rattle.std.specs.Prelude.{◌≡◌, Ok};

use crate::Unit;
use crate::index_lists::{r, s, sector, t};
use out_of_memory::OutOfMemory;
use std::alloc::Global;
use std::cmp::Ordering;
use std::marker::Model;

// The most indices that a family has.
const MOST: usize = 20;

/// The loop integral over the product of the denominators of a family, each to the power of minus
/// its index. A family has 1 to 20 indices, each from -101 to 101.
///
/// The indices lie in place, with zeros behind, so that a copy takes no memory. The numbers by which
/// integrals are compared are kept beside them, so that a comparison mostly reads no index.
#[derive(Clone, Copy, Debug, PartialEq, Eq)]
pub struct Integral {
    family: u32,
    sector: u32,
    r: u16,
    s: u16,
    t: u8,
    length: u8,
    indices: [i8; MOST],
}

// Clauses see the family and the list of indices.
impl Model for Integral {
    ghost use Rattle.integral_index.specs.Integral.{Integral as IntegralValue, integral_code};

    ghost Value = { IntegralValue };

    ghost coded = { integral_code };

    ghost use Rattle.integral_index.specs.KeptIntegral.{shown, IsKept, kept, kept-shown};

    ghost view = { shown };

    ghost invariant = { IsKept };

    ghost inverse = { kept };

    ghost inverse_ok = { kept-shown };
}

impl Integral {
    ghost use Rattle.std.specs.Prelude.{◌≡◌, Ok};
    ghost use Rattle.integral_index.specs.Integral.{IsIndexList};
    ghost use Rattle.integral_index.specs.Order.{unit_of, standard_compare};

    /// The integral of this family, by its place in the job from 0, with these indices. It takes no
    /// memory, since the indices lie in place, and is never refused.
    pub fn new(_alloc: Global, family: u32, indices: &[i8]) -> Result<Integral, OutOfMemory>
        requires { IsIndexList indices.now }
        ensures { result ≡ Ok (record { family = family; indices = indices.now }) }
    {
        let mut kept = [0; MOST];
        kept[..indices.len()].copy_from_slice(indices);
        Ok(Integral {
            family,
            sector: sector(indices),
            r: r(indices) as u16,
            s: s(indices) as u16,
            t: t(indices) as u8,
            length: indices.len() as u8,
            indices: kept,
        })
    }

    /// The same integral. It takes no memory and is never refused.
    pub fn copy(&self) -> Result<Integral, OutOfMemory>
        ensures { result ≡ Ok self.now }
    {
        Ok(*self)
    }

    /// The place of the family in the job, from 0.
    pub fn family(&self) -> u32
        ensures { result ≡ self.now.family }
    {
        self.family
    }

    /// The indices: 1 to 20, each from -101 to 101.
    pub fn indices(&self) -> &[i8]
        ensures value { result.now ≡ self.now.indices }
        ensures listed { IsIndexList result.now }
    {
        &self.indices[..self.length as usize]
    }

    /// The family and the sector.
    pub fn unit(&self) -> Unit
        ensures { result ≡ unit_of self.now }
    {
        Unit {
            family: self.family,
            sector: self.sector,
        }
    }

    // by t, family, sector, r, s, and then the indices
    pub(crate) fn standard_compare(&self, other: &Integral) -> Ordering
        ensures { result ≡ standard_compare self.now other.now }
    {
        let numbers = self
            .t
            .cmp(&other.t)
            .then(self.family.cmp(&other.family))
            .then(self.sector.cmp(&other.sector))
            .then(self.r.cmp(&other.r))
            .then(self.s.cmp(&other.s));
        if numbers.is_ne() {
            return numbers;
        }
        self.indices().cmp(&other.indices())
    }
}
