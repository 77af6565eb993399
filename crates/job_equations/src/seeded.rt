//! The equations of seeds, one after another.

ghost use Rattle.std.specs.Prelude.{◌≡◌, ◌≤◌, ◌<◌, ℕ, All, length, map, IfOk, OnOk};
ghost use Rattle.std.specs.List.{AllZip};
ghost use Rattle.propagators.specs.Basis.{momenta_of};
ghost use Rattle.sparse_row.specs.Row.{IsRow};
ghost use Rattle.ibp_generator.specs.Shifts.{IsSeedIndex};
ghost use Rattle.symmetry_maps.specs.Equation.{IsSymmetryEquation};
ghost use Rattle.job_equations.specs.Places.{Derivative, numbers_to, derivatives_of, origins_of};
ghost use Rattle.job_equations.specs.Equations.{AreEquations, AreSymmetriesOf, IsEquationFrom, IsSeedOf};
ghost use Rattle.job_equations.specs.Appending.{Appends};

use field_word::Modulus;
use ibp_generator::equation;
use integral_index::{Integral, Order, ZeroSectors};
use out_of_memory::OutOfMemory;
use propagators::Basis;
use sparse_row::Row;
use sqlite_items::Items;
use std::alloc::Global;
use symmetry_maps::Symmetry;

/// The equations of the seeds, in their order: for each seed first those of all pairs of a loop momentum and
/// a momentum, the loop momentum outer, and then those of the symmetries, in their order; by the basis, the
/// symmetries and the zero sectors that stand at the place of its family. Each has a row, also where the row
/// is empty. The dimension is a residue. Source: arXiv:1705.05610.
pub fn equations(
    alloc: Global,
    bases: &[Basis],
    symmetries: &[Items<Symmetry>],
    zeros: &[ZeroSectors],
    dimension: u64,
    seeds: &[Integral],
    order: Order,
    modulus: &Modulus,
) -> Result<Vec<Row>, OutOfMemory>
    requires moduli { All (λ basis. basis.point.modulus ≡ modulus.now) bases.now }
    requires symmetries { AllZip AreSymmetriesOf bases.now symmetries.now }
    requires zeros { length zeros.now ≡ length bases.now }
    requires dimension { dimension < modulus.now }
    requires seeds { All (IsSeedOf bases.now) seeds.now }
    ensures equations { IfOk result (λ rows.
        AreEquations bases.now symmetries.now zeros.now dimension order seeds.now rows.items) }
    ensures rows { IfOk result (λ rows. All (IsRow modulus.now order) rows.items) }
{
    let mut rows = Vec::new(alloc);
    for seed in seeds {
        let family = seed.family() as usize;
        push_of_seed(
            alloc,
            &mut rows,
            &bases[family],
            symmetries[family].as_slice(),
            dimension,
            seed,
            &zeros[family],
            order,
            modulus,
        )?;
    }
    Ok(rows)
}

// Appends the equations of a seed.
fn push_of_seed(
    alloc: Global,
    rows: &mut Vec<Row>,
    basis: &Basis,
    symmetries: &[Symmetry],
    dimension: u64,
    seed: &Integral,
    zeros: &ZeroSectors,
    order: Order,
    modulus: &Modulus,
) -> Result<(), OutOfMemory>
    requires modulus { basis.now.point.modulus ≡ modulus.now }
    requires symmetries { AreSymmetriesOf basis.now symmetries.now }
    requires dimension { dimension < modulus.now }
    requires width { length seed.now.indices ≡ length basis.now.denominators }
    requires seed { All IsSeedIndex seed.now.indices }
    ensures { OnOk result (Appends
        (IsEquationFrom basis.now dimension seed.now zeros.now order)
        (origins_of basis.now symmetries.now) rows.old.items rows.new.items) }
{
    push_of_derivatives(alloc, rows, basis, dimension, seed, zeros, order, modulus)?;
    push_of_symmetries(alloc, rows, symmetries, seed, zeros, order, modulus)
}

// Appends the equations of a seed by the derivatives.
fn push_of_derivatives(
    alloc: Global,
    rows: &mut Vec<Row>,
    basis: &Basis,
    dimension: u64,
    seed: &Integral,
    zeros: &ZeroSectors,
    order: Order,
    modulus: &Modulus,
) -> Result<(), OutOfMemory>
    requires modulus { basis.now.point.modulus ≡ modulus.now }
    requires dimension { dimension < modulus.now }
    requires width { length seed.now.indices ≡ length basis.now.denominators }
    requires seed { All IsSeedIndex seed.now.indices }
    ensures { OnOk result (Appends
        (IsEquationFrom basis.now dimension seed.now zeros.now order)
        (derivatives_of basis.now) rows.old.items rows.new.items) }
{
    for place in 0..basis.loops() {
        let loop_number = place + 1;
        push_of_loop(
            alloc,
            rows,
            basis,
            dimension,
            seed,
            loop_number,
            zeros,
            order,
            modulus,
        )?;
    }
    Ok(())
}

// Appends the equations of a seed by one loop momentum.
fn push_of_loop(
    alloc: Global,
    rows: &mut Vec<Row>,
    basis: &Basis,
    dimension: u64,
    seed: &Integral,
    loop_number: u32,
    zeros: &ZeroSectors,
    order: Order,
    modulus: &Modulus,
) -> Result<(), OutOfMemory>
    requires modulus { basis.now.point.modulus ≡ modulus.now }
    requires dimension { dimension < modulus.now }
    requires width { length seed.now.indices ≡ length basis.now.denominators }
    requires seed { All IsSeedIndex seed.now.indices }
    requires loop_from_1 { 1 ≤ loop_number }
    requires loop_within { loop_number ≤ basis.now.loops }
    ensures { OnOk result (Appends
        (IsEquationFrom basis.now dimension seed.now zeros.now order)
        (map (λ q. Derivative loop_number q) (numbers_to (momenta_of basis.now))) rows.old.items rows.new.items) }
{
    for place in 0..momenta(basis) {
        let momentum_number = place + 1;
        let row = equation(
            alloc,
            basis,
            dimension,
            seed,
            loop_number,
            momentum_number,
            zeros,
            order,
            modulus,
        )?;
        rows.push(row)?;
    }
    Ok(())
}

// Appends the equations of a seed by symmetries.
fn push_of_symmetries(
    alloc: Global,
    rows: &mut Vec<Row>,
    symmetries: &[Symmetry],
    seed: &Integral,
    zeros: &ZeroSectors,
    order: Order,
    modulus: &Modulus,
) -> Result<(), OutOfMemory>
    requires { All (λ places. length places ≡ length seed.now.indices) symmetries.now }
    ensures { OnOk result (Appends
        (λ places row. IsSymmetryEquation modulus.now places seed.now zeros.now order row)
        symmetries.now rows.old.items rows.new.items) }
{
    for symmetry in symmetries {
        let row = symmetry_maps::equation(alloc, symmetry, seed, zeros, order, modulus)?;
        rows.push(row)?;
    }
    Ok(())
}

// The number of momenta: loop momenta and independent external ones.
fn momenta(basis: &Basis) -> u32
    ensures { result ≡ momenta_of basis.now }
{
    // A basis has few momenta, so their number fits.
    let _width = basis.width();
    basis.loops() + basis.externals()
}
