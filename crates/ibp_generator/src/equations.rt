//! The equation of a seed, a loop momentum and a momentum.

ghost use Rattle.std.specs.Prelude.{◌≡◌, ◌≤◌, ◌<◌, ◌==◌, if◌then◌else◌, All, length, IfOk, OnOk};
ghost use Rattle.propagators.specs.Basis.{momenta_of};
ghost use Rattle.sparse_row.specs.Terms.{AllBelow};
ghost use Rattle.ibp_generator.specs.Shifts.{IsSeedIndex};
ghost use Rattle.ibp_generator.specs.Equation.{IsEquation};
ghost use Rattle.ibp_generator.specs.Collecting.{AreAppended};

use crate::collecting::collected;
use crate::terms::{push_denominator, push_term};
use field_word::Modulus;
use integral_index::{Integral, Order, ZeroSectors};
use out_of_memory::OutOfMemory;
use propagators::Basis;
use sparse_row::{Row, Term};
use std::alloc::Global;

/// The equation of a seed: the integral over the derivative by a loop momentum, times a momentum,
/// vanishes. The numbers are from 1, those of the momenta with the loop momenta first; the dimension is
/// a residue. Integrals whose sector is zero are left out. Source: arXiv:1705.05610.
pub fn equation(
    alloc: Global,
    basis: &Basis,
    dimension: u64,
    seed: &Integral,
    loop_number: u32,
    momentum_number: u32,
    zeros: &ZeroSectors,
    order: Order,
    modulus: &Modulus,
) -> Result<Row, OutOfMemory>
    requires modulus { basis.now.point.modulus ≡ modulus.now }
    requires dimension { dimension < modulus.now }
    requires width { length seed.now.indices ≡ length basis.now.denominators }
    requires seed { All IsSeedIndex seed.now.indices }
    requires loop_from_1 { 1 ≤ loop_number }
    requires loop_within { loop_number ≤ basis.now.loops }
    requires momentum_from_1 { 1 ≤ momentum_number }
    requires momentum_within { momentum_number ≤ momenta_of basis.now }
    ensures { IfOk result (IsEquation basis.now dimension loop_number momentum_number seed.now zeros.now order) }
{
    let mut terms = Vec::new(alloc);
    let coefficient = seed_coefficient(dimension, loop_number, momentum_number);
    push_term(&mut terms, *seed, coefficient, zeros)?;
    push_denominators(
        alloc,
        &mut terms,
        basis,
        seed,
        loop_number,
        momentum_number,
        zeros,
        modulus,
    )?;
    collected(alloc, terms, order, modulus)
}

// The coefficient of the seed itself: the dimension where the momentum is the loop momentum.
fn seed_coefficient(dimension: u64, loop_number: u32, momentum_number: u32) -> u64
    ensures { result ≡ (if momentum_number == loop_number then dimension else 0) }
{
    if momentum_number == loop_number {
        dimension
    } else {
        0
    }
}

// Appends the terms of all denominators.
fn push_denominators(
    alloc: Global,
    terms: &mut Vec<Term>,
    basis: &Basis,
    seed: &Integral,
    loop_number: u32,
    momentum_number: u32,
    zeros: &ZeroSectors,
    modulus: &Modulus,
) -> Result<(), OutOfMemory>
    requires modulus { basis.now.point.modulus ≡ modulus.now }
    requires width { length seed.now.indices ≡ length basis.now.denominators }
    requires seed { All IsSeedIndex seed.now.indices }
    requires loop_from_1 { 1 ≤ loop_number }
    requires loop_within { loop_number ≤ basis.now.loops }
    requires momentum_from_1 { 1 ≤ momentum_number }
    requires momentum_within { momentum_number ≤ momenta_of basis.now }
    requires below { AllBelow modulus.now terms.old.items }
    ensures below { OnOk result (AllBelow modulus.now terms.new.items) }
    ensures appended { OnOk result (AreAppended basis.now loop_number momentum_number seed.now zeros.now
        (length basis.now.denominators) terms.old.items terms.new.items) }
{
    for place in 0..basis.width() {
        let residues = basis.derivative(loop_number, momentum_number, place + 1);
        push_denominator(alloc, terms, seed, place as usize, residues, zeros, modulus)?;
    }
    Ok(())
}
