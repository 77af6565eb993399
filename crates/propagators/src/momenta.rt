//! Momenta as lists of residues, one for each loop momentum and then one for each external momentum.

ghost use Rattle.std.specs.Prelude.{◌≡◌, ◌+◌, ◌<◌, ◌≤◌, ℕ, ℤ, List, All, IfOk, length, map};
ghost use Rattle.propagators.specs.Sums.{entry};
ghost use Rattle.propagators.specs.Momenta.{residues_of, unit};

use field_word::Modulus;
use kinematics::residue;
use momentum_sums::Momentum;
use out_of_memory::OutOfMemory;
use std::alloc::Global;

/// The residues of the coefficients.
pub(crate) fn residues(
    alloc: Global,
    momentum: &Momentum,
    modulus: &Modulus,
) -> Result<Vec<u64>, OutOfMemory>
    ensures value { IfOk result (λ v. v.items ≡ residues_of modulus.now momentum.now) }
    ensures below { IfOk result (λ v. All (λ c. c < modulus.now) v.items) }
{
    let coefficients = momentum.coefficients();
    let mut residues = Vec::new(alloc);
    for coefficient in coefficients {
        residues.push(residue(i64::from(*coefficient), modulus))?;
    }
    Ok(residues)
}

/// The momentum with this number alone.
pub(crate) fn unit(alloc: Global, width: usize, number: usize) -> Result<Vec<u64>, OutOfMemory>
    ensures value { IfOk result (λ v. v.items ≡ unit width number) }
    ensures below { IfOk result (λ v. (p : ℕ) → 1 < p → All (λ c. c < p) v.items) }
{
    let mut unit = Vec::new(alloc);
    for place in 0..width {
        unit.push(u64::from(place + 1 == number))?;
    }
    Ok(unit)
}

/// The coefficient of the momentum with this number.
pub(crate) fn coefficient(momentum: &[u64], number: usize) -> u64
    requires from_1 { 1 ≤ number }
    requires within { number ≤ length momentum.now }
    ensures { result ≡ entry momentum.now number }
{
    momentum[number - 1]
}
