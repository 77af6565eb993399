//! Sums of multiples of forms.

ghost use Rattle.std.specs.Prelude.{◌≡◌, ◌+◌, ◌%◌, ◌<◌, ℕ, ◌∷◌, All, Some, IfOk, IfSome, length, slice_index};
ghost use Rattle.std.specs.List.{slice_index_or};
ghost use Rattle.matrix_elimination.specs.declared.elimination.Solved.{Solved as SolvedValue};
ghost use Rattle.matrix_elimination.specs.Vectors.{IsVector, dot};
ghost use Rattle.matrix_elimination.specs.Elimination.{multiplier_at, multipliers_at, HasSum};
ghost use Rattle.propagators.specs.Combinations.{IsCombination, constants_of};
ghost use Rattle.propagators.specs.Inverses.{IsInverted};

use crate::forms::Form;
use field_word::Modulus;
use matrix_elimination::{Eliminated, Solved};
use out_of_memory::OutOfMemory;
use std::alloc::Global;
use std::marker::Model;

/// The residues `c_0 .. c_N` of a sum `c_0 + c_1 D_1 + .. + c_N D_N` of multiples of the denominators of a
/// family. Contracts see the list.
#[derive(Debug, Drop)]
pub struct Combination {
    values: Vec<u64>,
}

impl Model for Combination {
    ghost use Rattle.std.specs.Prelude.{ℕ, List};

    ghost Value = { List ℕ };

    ghost view = { λ c. c.values.items };
}

impl Combination {
    /// The residues `c_0 .. c_N`.
    pub fn values(&self) -> &[u64]
        ensures { result.now ≡ self.now }
    {
        self.values.as_slice()
    }

    /// The combination of the forms that is this form.
    pub(crate) fn of_form(
        alloc: Global,
        form: &Form,
        forms: &[Form],
        elimination: &Eliminated,
        modulus: &Modulus,
    ) -> Result<Combination, OutOfMemory>
        requires inverted { IsInverted modulus.now forms.now elimination.now }
        requires size { length form.now.products ≡ length forms.now }
        requires products { All (λ c. c < modulus.now) form.now.products }
        requires constant { form.now.constant < modulus.now }
        ensures { IfOk result (λ c. IsCombination modulus.now forms.now form.now c) }
    {
        let weights = weights(alloc, form.products(), &elimination.solved, modulus)?;
        let constant = constant_of(&weights, forms, modulus);
        let values = joined(alloc, modulus.sub(form.constant(), constant), &weights)?;
        Ok(Combination { values })
    }
}

// How often the form has each denominator.
fn weights(
    alloc: Global,
    form: &[u64],
    solved: &[Option<Solved>],
    modulus: &Modulus,
) -> Result<Vec<u64>, OutOfMemory>
    requires form { IsVector modulus.now (length solved.now) form.now }
    requires sums { (c : ℕ) (sum : SolvedValue) → HasSum solved.now c sum → IsVector modulus.now (length solved.now) sum.multipliers }
    ensures vector { IfOk result (λ w. IsVector modulus.now (length solved.now) w.items) }
    ensures value { IfOk result (λ w. (k : ℕ) → k < length solved.now →
        slice_index w.items k ≡ dot form.now (multipliers_at k solved.now) % modulus.now) }
{
    let mut weights = Vec::new(alloc);
    for place in 0..solved.len() {
        weights.push(weight(form, solved, place, modulus))?;
    }
    Ok(weights)
}

// How often the form has the denominator at a place.
fn weight(form: &[u64], solved: &[Option<Solved>], place: usize, modulus: &Modulus) -> u64
    requires form { IsVector modulus.now (length solved.now) form.now }
    requires sums { (c : ℕ) (sum : SolvedValue) → HasSum solved.now c sum → IsVector modulus.now (length solved.now) sum.multipliers }
    requires place { place < length solved.now }
    ensures value { result ≡ dot form.now (multipliers_at place solved.now) % modulus.now }
    ensures below { result < modulus.now }
{
    let p = modulus.value();
    prove!(p > 0);
    let mut weight = 0;
    for x in 0..solved.len() {
        let multiplier = multiplier(&solved[x], place);
        weight = modulus.add(weight, modulus.mul(form[x], multiplier));
    }
    weight
}

// The multiplier of a row in what a column has; 0 where the column is open.
fn multiplier(sum: &Option<Solved>, place: usize) -> u64
    requires { IfSome sum.now (λ s. place < length s.multipliers) }
    ensures { result ≡ multiplier_at place sum.now }
{
    match sum {
        Some(sum) => sum.multipliers.entries()[place],
        None => 0,
    }
}

// The sum of the constants of the forms, each times its weight.
fn constant_of(weights: &[u64], forms: &[Form], modulus: &Modulus) -> u64
    requires weights { IsVector modulus.now (length forms.now) weights.now }
    requires constants { All (λ c. c < modulus.now) (constants_of forms.now) }
    ensures value { result ≡ dot weights.now (constants_of forms.now) % modulus.now }
    ensures below { result < modulus.now }
{
    let p = modulus.value();
    prove!(p > 0);
    let mut sum = 0;
    for place in 0..forms.len() {
        let constant = forms[place].constant();
        sum = modulus.add(sum, modulus.mul(weights[place], constant));
    }
    sum
}

// The first number and then the rest.
fn joined(alloc: Global, first: u64, rest: &[u64]) -> Result<Vec<u64>, OutOfMemory>
    ensures { IfOk result (λ v. v.items ≡ first ∷ rest.now) }
{
    let mut values = Vec::new(alloc);
    values.push(first)?;
    values.extend_from_slice(rest)?;
    Ok(values)
}
