//! Momenta after each loop momentum was replaced by its image.

ghost use Rattle.std.specs.Prelude.{◌≡◌, ◌+◌, ◌*◌, ◌%◌, ◌<◌, ◌≤◌, ℕ, All, IfOk, length, map};
ghost use Rattle.matrix_elimination.specs.Vectors.{IsVector};
ghost use Rattle.propagators.specs.Sums.{sum_to, entry};
ghost use Rattle.propagators.specs.Momenta.{residues_of, replacement, replaced};

use crate::momenta::residues;
use field_word::Modulus;
use matrix_elimination::Vector;
use momentum_sums::Momentum;
use out_of_memory::OutOfMemory;
use std::alloc::Global;

/// The residues of the images.
pub(crate) fn image_residues(
    alloc: Global,
    images: &[Momentum],
    width: usize,
    modulus: &Modulus,
) -> Result<Vec<Vector>, OutOfMemory>
    requires { All (λ image. length image ≡ width) images.now }
    ensures value { IfOk result (λ v. v.items ≡ map (residues_of modulus.now) images.now) }
    ensures vectors { IfOk result (λ v. All (IsVector modulus.now width) v.items) }
{
    let mut vectors = Vec::new(alloc);
    for image in images {
        vectors.push(Vector::from_vec(residues(alloc, image, modulus)?))?;
    }
    Ok(vectors)
}

/// The momentum after each loop momentum was replaced by its image.
pub(crate) fn replaced(
    alloc: Global,
    momentum: &Momentum,
    images: &[Vector],
    width: usize,
    modulus: &Modulus,
) -> Result<Vec<u64>, OutOfMemory>
    requires momentum { length momentum.now ≡ width }
    requires images { All (IsVector modulus.now width) images.now }
    ensures value { IfOk result (λ v. v.items ≡
        replaced modulus.now images.now (residues_of modulus.now momentum.now)) }
    ensures vector { IfOk result (λ v. IsVector modulus.now width v.items) }
{
    let momentum = residues(alloc, momentum, modulus)?;
    let mut coefficients = Vec::new(alloc);
    for place in 0..width {
        coefficients.push(replaced_at(&momentum, images, place + 1, modulus))?;
    }
    Ok(coefficients)
}

// The coefficient of the momentum with this number after the replacement.
fn replaced_at(momentum: &[u64], images: &[Vector], number: usize, modulus: &Modulus) -> u64
    requires momentum { All (λ c. c < modulus.now) momentum.now }
    requires images { All (IsVector modulus.now (length momentum.now)) images.now }
    requires from_1 { 1 ≤ number }
    requires within { number ≤ length momentum.now }
    ensures value { result ≡ sum_to (length momentum.now)
        (λ n. entry momentum.now n * replacement images.now n number) % modulus.now }
    ensures below { result < modulus.now }
{
    let p = modulus.value();
    prove!(p > 1);
    let mut sum = 0;
    for place in 0..momentum.len() {
        let factor = replacement(images, place + 1, number);
        prove!(factor < p);
        sum = modulus.add(sum, modulus.mul(momentum[place], factor));
    }
    sum
}

// How often what stands for the momentum with the first number has the momentum with the second.
fn replacement(images: &[Vector], number: usize, other: usize) -> u64
    requires from_1 { 1 ≤ number }
    requires other_from_1 { 1 ≤ other }
    requires images { All (λ image. other ≤ length image) images.now }
    ensures value { result ≡ replacement images.now number other }
    ensures below { (p : ℕ) → 1 < p → All (λ image. All (λ c. c < p) image) images.now → result < p }
{
    if number <= images.len() {
        let image = &images[number - 1];
        image.entries()[other - 1]
    } else {
        u64::from(number == other)
    }
}
