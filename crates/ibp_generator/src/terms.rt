//! The terms of an equation.

ghost use Rattle.std.specs.Prelude.{◌≡◌, ◌+◌, ◌<◌, ℕ, All, length, OnOk};
ghost use Rattle.integral_index.specs.Integral.{Integral as IntegralValue};
ghost use Rattle.field_word.specs.Residues.{product_of};
ghost use Rattle.sparse_row.specs.Terms.{coefficient_at, AllBelow};
ghost use Rattle.propagators.specs.Sums.{sum_to};
ghost use Rattle.ibp_generator.specs.Shifts.{lowered, IsRaisedIndex, IsSeedIndex};
ghost use Rattle.ibp_generator.specs.Equation.{denominator_sum, minus, residue_at, term_of};
ghost use Rattle.ibp_generator.specs.Collecting.{Gains};

use crate::shifts::shifted;
use field_word::Modulus;
use integral_index::{Integral, ZeroSectors};
use out_of_memory::OutOfMemory;
use sparse_row::Term;
use std::alloc::Global;

/// Appends the term, unless its coefficient or its sector is zero.
pub(crate) fn push_term(
    terms: &mut Vec<Term>,
    integral: Integral,
    coefficient: u64,
    zeros: &ZeroSectors,
) -> Result<(), OutOfMemory>
    ensures below { OnOk result ((p : ℕ) → coefficient < p → AllBelow p terms.old.items → AllBelow p terms.new.items) }
    ensures gains { OnOk result (Gains zeros.now terms.old.items terms.new.items
        (λ x. coefficient_at x (record { integral = integral; coefficient = coefficient }))) }
{
    if coefficient == 0 || zeros.is_zero(integral.unit().sector) {
        return Ok(());
    }
    terms.push(Term {
        integral,
        coefficient,
    })?;
    Ok(())
}

/// Appends the terms of the denominator at a place, from 0, whose derivative has these residues.
pub(crate) fn push_denominator(
    alloc: Global,
    terms: &mut Vec<Term>,
    seed: &Integral,
    place: usize,
    residues: &[u64],
    zeros: &ZeroSectors,
    modulus: &Modulus,
) -> Result<(), OutOfMemory>
    requires place { place < length seed.now.indices }
    requires residues { length residues.now ≡ length seed.now.indices + 1 }
    requires below_p { All (λ c. c < modulus.now) residues.now }
    requires seed { All IsSeedIndex seed.now.indices }
    requires below { AllBelow modulus.now terms.old.items }
    ensures below { OnOk result (AllBelow modulus.now terms.new.items) }
    ensures gains { OnOk result (Gains zeros.now terms.old.items terms.new.items
        (denominator_sum modulus.now seed.now (length seed.now.indices) residues.now (place + 1))) }
{
    let multiplier = minus(seed.indices()[place], modulus);
    let raised = shifted(alloc, seed, place, 1)?;
    push_term(terms, raised, modulus.mul(multiplier, residues[0]), zeros)?;
    push_lowered(alloc, terms, &raised, multiplier, residues, zeros, modulus)
}

// Appends the terms of a raised integral, lowered at each place in turn: a multiple of each residue
// from the second on.
fn push_lowered(
    alloc: Global,
    terms: &mut Vec<Term>,
    raised: &Integral,
    multiplier: u64,
    residues: &[u64],
    zeros: &ZeroSectors,
    modulus: &Modulus,
) -> Result<(), OutOfMemory>
    requires residues { length residues.now ≡ length raised.now.indices + 1 }
    requires below_p { All (λ c. c < modulus.now) residues.now }
    requires multiplier { multiplier < modulus.now }
    requires raised { All IsRaisedIndex raised.now.indices }
    requires below { AllBelow modulus.now terms.old.items }
    ensures below { OnOk result (AllBelow modulus.now terms.new.items) }
    ensures gains { OnOk result (Gains zeros.now terms.old.items terms.new.items
        (λ x. sum_to (length raised.now.indices) (λ k. coefficient_at x (term_of raised.now (lowered raised.now.indices k)
        (product_of modulus.now multiplier (residue_at residues.now k)))))) }
{
    for k in 0..raised.indices().len() {
        let coefficient = modulus.mul(multiplier, residues[k + 1]);
        push_lowered_term(alloc, terms, raised, k, coefficient, zeros)?;
    }
    Ok(())
}

// Appends the term of an integral lowered at a place, from 0, unless its coefficient or sector is zero.
fn push_lowered_term(
    alloc: Global,
    terms: &mut Vec<Term>,
    raised: &Integral,
    place: usize,
    coefficient: u64,
    zeros: &ZeroSectors,
) -> Result<(), OutOfMemory>
    requires place { place < length raised.now.indices }
    requires raised { All IsRaisedIndex raised.now.indices }
    ensures below { OnOk result ((p : ℕ) → coefficient < p → AllBelow p terms.old.items → AllBelow p terms.new.items) }
    ensures gains { OnOk result (Gains zeros.now terms.old.items terms.new.items
        (λ x. coefficient_at x (term_of raised.now (lowered raised.now.indices (place + 1)) coefficient))) }
{
    if coefficient == 0 {
        return Ok(());
    }
    push_term(
        terms,
        shifted(alloc, raised, place, -1)?,
        coefficient,
        zeros,
    )
}

// Minus an index, as a residue.
fn minus(index: i8, modulus: &Modulus) -> u64
    ensures value { result ≡ minus modulus.now index }
    ensures below { result < modulus.now }
{
    let size = modulus.reduce(u128::from(index.unsigned_abs()));
    if index < 0 { size } else { modulus.neg(size) }
}
