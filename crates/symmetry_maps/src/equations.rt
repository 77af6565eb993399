//! The equation of a seed and a symmetry.

ghost use Rattle.std.specs.Prelude.{◌≡◌, ◌<◌, length, IfOk, OnOk};
ghost use Rattle.sparse_row.specs.Row.{IsRow};
ghost use Rattle.symmetry_maps.specs.Equation.{IsSymmetryEquation};
ghost use Rattle.symmetry_maps.specs.Steps.{IsWithTerm};

use crate::moving::moved;
use crate::symmetries::Symmetry;
use field_word::Modulus;
use integral_index::{Integral, Order, ZeroSectors};
use out_of_memory::OutOfMemory;
use sparse_row::Row;
use std::alloc::Global;

/// The equation of a seed: its integral minus the one that the symmetry makes of it vanishes. Integrals
/// whose sector is zero are left out. Where the symmetry leaves the seed as it is, the row is empty.
/// Source: Kira, arXiv:1705.05610.
pub fn equation(
    alloc: Global,
    symmetry: &Symmetry,
    seed: &Integral,
    zeros: &ZeroSectors,
    order: Order,
    modulus: &Modulus,
) -> Result<Row, OutOfMemory>
    requires { length seed.now.indices ≡ length symmetry.now }
    ensures { IfOk result (IsSymmetryEquation modulus.now symmetry.now seed.now zeros.now order) }
{
    let moved = moved(alloc, symmetry, seed)?;
    let mut row = Row::new(alloc, order);
    // A modulus is above 1, so 1 is a residue.
    let _p = modulus.value();
    add_unless_zero(&mut row, seed, 1, zeros, modulus)?;
    add_unless_zero(&mut row, &moved, modulus.neg(1), zeros, modulus)?;
    Ok(row)
}

// Adds a term, unless its sector is zero.
fn add_unless_zero(
    row: &mut Row,
    integral: &Integral,
    coefficient: u64,
    zeros: &ZeroSectors,
    modulus: &Modulus,
) -> Result<(), OutOfMemory>
    requires row { IsRow modulus.now row.old.order row.old }
    requires residue { coefficient < modulus.now }
    ensures row { OnOk result (IsRow modulus.now row.old.order row.new) }
    ensures sums { OnOk result (IsWithTerm modulus.now zeros.now row.old
        (record { integral = integral.now; coefficient = coefficient }) row.new) }
{
    if zeros.is_zero(integral.unit().sector) {
        return Ok(());
    }
    row.add_term(integral, coefficient, modulus)
}
