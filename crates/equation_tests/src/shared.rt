//! What the tests of equations share: momenta, points and bases of small numbers, and rows.

ghost use Rattle.std.specs.Prelude.{◌≡◌, ◌≤◌, IfOk, length};
ghost use Rattle.propagators.specs.Forms.{product_total};

use field_word::Modulus;
use integral_index::{Integral, is_index_list};
use kinematics::{Momentum, Point, Rule, are_coefficients, are_wide, point, rules_fit};
use out_of_memory::OutOfMemory;
use propagators::{Basis, Denominator, denominators_fit, family};
use sparse_row::{Row, Term};
use std::alloc::{AllocError, AllocFailed, Global};
use symmetry_maps::{MapFault, Symmetry, check};

/// What a helper of the tests may answer.
#[derive(Debug, Drop)]
pub(crate) enum Wrong {
    Momentum,
    Rules,
    Denominators,
    Seed,
    Shape,
    Point,
    Basis,
    Symmetry,
    Map(MapFault),
    OutOfMemory,
}

impl From<OutOfMemory> for Wrong {
    fn from(_refused: OutOfMemory) -> Wrong {
        Wrong::OutOfMemory
    }
}

impl From<AllocError> for Wrong {
    fn from(_refused: AllocError) -> Wrong {
        Wrong::OutOfMemory
    }
}

impl<T: Drop> From<AllocFailed<T>> for Wrong {
    fn from(_refused: AllocFailed<T>) -> Wrong {
        Wrong::OutOfMemory
    }
}

/// The momentum with these coefficients.
pub(crate) fn momentum(alloc: Global, coefficients: &[i16]) -> Result<Momentum, Wrong> {
    if !are_coefficients(coefficients) {
        return Err(Wrong::Momentum);
    }
    Ok(Momentum::new(alloc, coefficients)?)
}

/// The square of a momentum less a mass.
pub(crate) fn square(alloc: Global, coefficients: &[i16], mass: u64) -> Result<Denominator, Wrong> {
    Ok(Denominator::Square {
        momentum: momentum(alloc, coefficients)?,
        mass,
    })
}

/// The rule that the square of a sum of external momenta has this value.
pub(crate) fn rule(alloc: Global, coefficients: &[i16], value: u64) -> Result<Rule, Wrong> {
    Ok(Rule {
        left: momentum(alloc, coefficients)?,
        right: momentum(alloc, coefficients)?,
        value,
    })
}

/// The point of the rules.
pub(crate) fn point_of(
    alloc: Global,
    rules: &[Rule],
    externals: u32,
    modulus: &Modulus,
) -> Result<Point, Wrong>
    requires { externals ≤ 6 }
    ensures modulus { IfOk result (λ point. point.modulus ≡ modulus.now) }
    ensures externals { IfOk result (λ point. point.externals ≡ externals) }
{
    if !rules_fit(rules, externals, modulus) {
        return Err(Wrong::Rules);
    }
    match point(alloc, rules, externals, modulus) {
        Ok(found) => Ok(found),
        Err(_) => Err(Wrong::Point),
    }
}

/// The basis of the denominators, with so many loop momenta.
pub(crate) fn basis_of(
    alloc: Global,
    loops: u32,
    denominators: &[Denominator],
    point: &Point,
    modulus: &Modulus,
) -> Result<Basis, Wrong>
    requires modulus { point.now.modulus ≡ modulus.now }
    requires loops_from_1 { 1 ≤ loops }
    requires few_loops { loops ≤ 6 }
    requires count { length denominators.now ≡ product_total loops point.now.externals }
    requires few { length denominators.now ≤ 20 }
    ensures { IfOk result (λ basis. basis.point.modulus ≡ modulus.now) }
{
    let width = loops as usize + point.externals() as usize;
    if !denominators_fit(denominators, width, modulus) {
        return Err(Wrong::Denominators);
    }
    match family(alloc, loops, denominators, point, modulus) {
        Ok(basis) => Ok(basis),
        Err(_) => Err(Wrong::Basis),
    }
}

/// A basis, and the symmetry by these images of the loop momenta.
pub(crate) fn symmetric(
    alloc: Global,
    images: &[Momentum],
    denominators: &[Denominator],
    point: &Point,
    modulus: &Modulus,
) -> Result<(Basis, Symmetry), Wrong>
    requires { point.now.modulus ≡ modulus.now }
    ensures { IfOk result (λ both. both.0.point.modulus ≡ modulus.now) }
{
    if images.is_empty() || images.len() > 6 || denominators.len() > 20 {
        return Err(Wrong::Denominators);
    }
    let loops = images.len() as u32;
    let width = images.len() + point.externals() as usize;
    let total = loops * (loops + 1) / 2 + loops * point.externals();
    if denominators.len() != total as usize
        || !denominators_fit(denominators, width, modulus)
        || !are_wide(images, width)
    {
        return Err(Wrong::Denominators);
    }
    match family(alloc, loops, denominators, point, modulus) {
        Ok(basis) => match check(alloc, images, denominators, point, modulus) {
            Ok(symmetry) => Ok((basis, symmetry)),
            Err(fault) => Err(Wrong::Map(fault)),
        },
        Err(_) => Err(Wrong::Basis),
    }
}

/// The integral of this family with these indices.
pub(crate) fn integral(alloc: Global, family: u32, indices: &[i8]) -> Result<Integral, Wrong> {
    if !is_index_list(indices) {
        return Err(Wrong::Seed);
    }
    Ok(Integral::new(alloc, family, indices)?)
}

/// The terms of a row, from the greatest integral to the least: indices and coefficients.
pub(crate) type Terms = &'static [(&'static [i8], u64)];

fn is_term(term: &Term, family: u32, indices: &[i8], coefficient: u64) -> bool {
    term.integral.family() == family
        && term.integral.indices() == indices
        && term.coefficient == coefficient
}

/// Whether the row has just these terms, all of this family.
pub(crate) fn has_terms(row: &Row, family: u32, terms: &[(&[i8], u64)]) -> bool {
    let found = row.terms();
    if found.len() != terms.len() {
        return false;
    }
    for k in 0..found.len() {
        if !is_term(&found[k], family, terms[k].0, terms[k].1) {
            return false;
        }
    }
    true
}
