//! The replacement of the conserved momentum.

ghost use Rattle.std.specs.Prelude.{◌≡◌, ◌<◌, ◌+◌, ◌+ℤ◌, ◌*ℤ◌, ◌≤ℤ◌, pos, negsuc, length, true, false, All, IfOk, IfErr, IfSome, MatchOption};
ghost use Rattle.momentum_sums.specs.Momenta.{IsCoefficient};
ghost use Rattle.input_schema.specs.Momenta as spec;
ghost use Rattle.input_schema.specs.Readings.{Gives, Is, Refuses};

use crate::faults::{File, InputKind, SchemaError, fault};
use momentum_sums::Momentum;
use std::alloc::Global;

/// The product of two coefficients.
fn times(left: i16, right: i16) -> i32
    requires left { IsCoefficient left }
    requires right { IsCoefficient right }
    ensures value { result ≡ left *ℤ right }
    ensures low { negsuc 999999 ≤ℤ result }
    ensures high { result ≤ℤ pos 1000000 }
{
    left as i32 * right as i32
}

/// A coefficient, and a factor times another.
fn plus_product(coefficient: i16, factor: i16, other: i16) -> i32
    requires coefficient { IsCoefficient coefficient }
    requires factor { IsCoefficient factor }
    requires other { IsCoefficient other }
    ensures { result ≡ coefficient +ℤ (factor *ℤ other) }
{
    coefficient as i32 + times(factor, other)
}

/// The same, where it is a coefficient of a momentum: from -1000 to 1000.
fn small_sum(coefficient: i16, factor: i16, other: i16) -> Option<i16>
    requires coefficient { IsCoefficient coefficient }
    requires factor { IsCoefficient factor }
    requires other { IsCoefficient other }
    ensures sum { MatchOption result (spec.is_small (coefficient +ℤ (factor *ℤ other)) ≡ false) (λ sum. sum ≡ coefficient +ℤ (factor *ℤ other)) }
    ensures small { IfSome result (λ sum. spec.is_small sum ≡ true) }
    ensures coefficient { IfSome result IsCoefficient }
{
    let sum = plus_product(coefficient, factor, other);
    if -1000 <= sum && sum <= 1000 {
        Some(sum as i16)
    } else {
        None
    }
}

/// The first coefficients, with a factor times the second ones.
fn plus_times(
    alloc: Global,
    file: File,
    line: u32,
    factor: i16,
    coefficients: &[i16],
    image: &[i16],
) -> Result<Vec<i16>, SchemaError>
    requires factor { IsCoefficient factor }
    requires coefficients { All IsCoefficient coefficients.now }
    requires image { All IsCoefficient image.now }
    requires same { length image.now ≡ length coefficients.now }
    ensures sums { IfOk result (λ sums. spec.checked file line (spec.plus_times factor coefficients.now image.now) ≡ Ok sums.items) }
    ensures refused { IfErr result (Refuses (Is (spec.checked file line (spec.plus_times factor coefficients.now image.now)))) }
    ensures small { IfOk result (λ sums. All IsCoefficient sums.items) }
    ensures counted { IfOk result (λ sums. length sums.items ≡ length coefficients.now) }
{
    let mut sums = Vec::new(alloc);
    for i in 0..coefficients.len() {
        match small_sum(coefficients[i], factor, image[i]) {
            Some(sum) => sums.push(sum)?,
            None => return Err(fault(file, line, InputKind::OutOfRange)),
        }
    }
    Ok(sums)
}

/// A momentum without the one at this place, counted from 0: the image comes in its stead, as often as it
/// stood there. The image is over the other momenta, in their order.
///
/// # Errors
///
/// OutOfRange at this line, where a coefficient is then below -1000 or above 1000.
pub fn replaced(
    alloc: Global,
    file: File,
    line: u32,
    place: usize,
    image: &Momentum,
    momentum: &Momentum,
) -> Result<Momentum, SchemaError>
    requires place { place < length momentum.now }
    requires image { length image.now + 1 ≡ length momentum.now }
    ensures value { Gives (spec.replaced file line place image.now momentum.now) result }
    ensures counted { IfOk result (λ momentum. length momentum ≡ length image.now) }
{
    let coefficients = momentum.coefficients();
    let mut others = Vec::from_slice(alloc, coefficients)?;
    others.remove(place);
    let sums = plus_times(
        alloc,
        file,
        line,
        coefficients[place],
        &others,
        image.coefficients(),
    )?;
    Ok(Momentum::new(alloc, &sums)?)
}
