//! The denominators and the symmetries of the families at the numeric point.

ghost use Rattle.std.specs.Prelude.{◌≡◌, ◌<◌, ◌≤◌, ◌+◌, length, map, All, IfOk, OnOk};
ghost use Rattle.std.specs.List.{AllZip};
ghost use Rattle.propagators.specs.Denominators.{form_of, IsDenominator};
ghost use Rattle.propagators.specs.Combinations.{AreIndependent};
ghost use Rattle.propagators.specs.Forms.{product_total};
ghost use Rattle.family_schema.specs.Sound.{HasMomenta, HasImages, IsOver};
ghost use Rattle.job_point.specs.Steps.{Meets};
ghost use Rattle.job_point.specs.Point.{denominator_of, IsDenominatorAt, AreDenominatorsAt, IsBasisFor, IsSymmetryAt, AreSymmetriesAt, IsFamilyAt, AreFamiliesAt, IsBasisOf, AreSymmetriesOf};

use crate::faults::{PlanError, basis_error, map_error};
use crate::values::value_at;
use family_schema::{Family, Momenta, Propagator, Symmetry as Map};
use field_word::Modulus;
use input_schema::File;
use kinematics::Point;
use momentum_sums::Momentum;
use out_of_memory::OutOfMemory;
use propagators::{Basis, Denominator, family};
use sqlite_items::Items;
use std::alloc::Global;
use symmetry_maps::{Symmetry, check};

/// The denominator of these momenta and this mass, a residue.
fn denominator_of(alloc: Global, momenta: &Momenta, mass: u64) -> Result<Denominator, OutOfMemory>
    ensures { IfOk result (λ denominator. denominator ≡ denominator_of momenta.now mass) }
{
    Ok(match momenta {
        Momenta::Square(momentum) => Denominator::Square {
            momentum: Momentum::new(alloc, momentum.coefficients())?,
            mass,
        },
        Momenta::Product(left, right) => Denominator::Bilinear {
            left: Momentum::new(alloc, left.coefficients())?,
            right: Momentum::new(alloc, right.coefficients())?,
            mass,
        },
    })
}

/// The denominator of a propagator, whose momenta have `width` coefficients.
fn denominator_at(
    alloc: Global,
    propagator: &Propagator,
    width: u32,
    residues: &[u64],
    modulus: &Modulus,
) -> Result<Denominator, PlanError>
    requires residues { All (λ v. v < modulus.now) residues.now }
    requires momenta { HasMomenta width propagator.now.momenta }
    ensures denominator { Meets (IsDenominatorAt modulus.now residues.now propagator.now) result }
    ensures is { IfOk result (IsDenominator modulus.now width) }
{
    let mass = value_at(
        File::Families,
        propagator.line,
        &propagator.mass,
        residues,
        modulus,
    )?;
    Ok(denominator_of(alloc, &propagator.momenta, mass)?)
}

/// The denominators of propagators, whose momenta have `width` coefficients.
fn denominators_at(
    alloc: Global,
    propagators: &[Propagator],
    width: u32,
    residues: &[u64],
    modulus: &Modulus,
) -> Result<Items<Denominator>, PlanError>
    requires residues { All (λ v. v < modulus.now) residues.now }
    requires momenta { All (λ propagator. HasMomenta width propagator.momenta) propagators.now }
    ensures denominators { Meets (AreDenominatorsAt modulus.now residues.now propagators.now) result }
    ensures size { IfOk result (λ denominators. length denominators ≡ length propagators.now) }
    ensures each { IfOk result (All (IsDenominator modulus.now width)) }
{
    let mut denominators = Items::new(alloc);
    for propagator in propagators {
        let denominator = denominator_at(alloc, propagator, width, residues, modulus)?;
        denominators.push(denominator)?;
    }
    Ok(denominators)
}

/// The basis of these denominators, which are those of the family with this number, counted from 0.
fn basis_of(
    alloc: Global,
    number: u32,
    loops: u32,
    denominators: &[Denominator],
    point: &Point,
    modulus: &Modulus,
) -> Result<Basis, PlanError>
    requires modulus { point.now.modulus ≡ modulus.now }
    requires loops_from_1 { 1 ≤ loops }
    requires few_loops { loops ≤ 6 }
    requires count { length denominators.now ≡ product_total loops point.now.externals }
    requires few { length denominators.now ≤ 20 }
    requires denominators { All (IsDenominator modulus.now (loops + point.now.externals)) denominators.now }
    ensures basis { Meets (IsBasisFor modulus.now point.now number loops denominators.now) result }
    ensures value { IfOk result (λ basis. basis ≡ record { loops = loops; denominators = denominators.now; point = point.now }) }
    ensures independent { OnOk result (AreIndependent modulus.now (map (form_of loops point.now) denominators.now)) }
{
    match family(alloc, loops, denominators, point, modulus) {
        Ok(basis) => Ok(basis),
        Err(fault) => Err(basis_error(number, fault)),
    }
}

/// The symmetry of a map, where the denominators are those of a basis over `loops` loop momenta.
fn symmetry_at(
    alloc: Global,
    symmetry: &Map,
    loops: u32,
    denominators: &[Denominator],
    point: &Point,
    modulus: &Modulus,
) -> Result<Symmetry, PlanError>
    requires modulus { point.now.modulus ≡ modulus.now }
    requires few_loops { loops ≤ 6 }
    requires few { length denominators.now ≤ 20 }
    requires images { HasImages loops (loops + point.now.externals) symmetry.now }
    requires denominators { All (IsDenominator modulus.now (loops + point.now.externals)) denominators.now }
    requires independent { AreIndependent modulus.now (map (form_of loops point.now) denominators.now) }
    ensures symmetry { Meets (IsSymmetryAt (record { loops = loops; denominators = denominators.now; point = point.now }) symmetry.now) result }
    ensures width { IfOk result (λ places. length places ≡ length denominators.now) }
{
    match check(
        alloc,
        symmetry.images.as_slice(),
        denominators,
        point,
        modulus,
    ) {
        Ok(found) => Ok(found),
        Err(fault) => Err(map_error(symmetry.line, fault)),
    }
}

/// The symmetries of maps, in their order, where the denominators are those of a basis over `loops` loop
/// momenta.
fn symmetries_at(
    alloc: Global,
    symmetries: &[Map],
    loops: u32,
    denominators: &[Denominator],
    point: &Point,
    modulus: &Modulus,
) -> Result<Items<Symmetry>, PlanError>
    requires modulus { point.now.modulus ≡ modulus.now }
    requires few_loops { loops ≤ 6 }
    requires few { length denominators.now ≤ 20 }
    requires images { All (HasImages loops (loops + point.now.externals)) symmetries.now }
    requires denominators { All (IsDenominator modulus.now (loops + point.now.externals)) denominators.now }
    requires independent { AreIndependent modulus.now (map (form_of loops point.now) denominators.now) }
    ensures symmetries { Meets (AreSymmetriesAt (record { loops = loops; denominators = denominators.now; point = point.now }) symmetries.now) result }
    ensures widths { IfOk result (λ found. All (λ places. length places ≡ length denominators.now) found) }
{
    let mut found = Items::new(alloc);
    for symmetry in symmetries {
        let next = symmetry_at(alloc, symmetry, loops, denominators, point, modulus)?;
        found.push(next)?;
    }
    Ok(found)
}

/// A family at the numeric point.
#[derive(Drop)]
pub struct FamilyAt {
    /// Its denominators.
    pub basis: Basis,
    /// Its symmetries, in the order of the file.
    pub symmetries: Items<Symmetry>,
}

/// The family with this number, counted from 0, where each invariant has its residue.
fn family_at(
    alloc: Global,
    number: u32,
    family: &Family,
    residues: &[u64],
    point: &Point,
    modulus: &Modulus,
) -> Result<FamilyAt, PlanError>
    requires residues { All (λ v. v < modulus.now) residues.now }
    requires modulus { point.now.modulus ≡ modulus.now }
    requires few { point.now.externals ≤ 6 }
    requires family { IsOver point.now.externals family.now }
    ensures family { Meets (IsFamilyAt modulus.now residues.now point.now number family.now) result }
    ensures basis { IfOk result (λ at. IsBasisOf modulus.now point.now.externals family.now at.basis) }
    ensures widths { IfOk result (λ at. AreSymmetriesOf at.basis at.symmetries) }
{
    let loops = family.loops.len() as u32;
    let width = loops + point.externals();
    let propagators = family.propagators.as_slice();
    let found = denominators_at(alloc, propagators, width, residues, modulus)?;
    let denominators = found.as_slice();
    let basis = basis_of(alloc, number, loops, denominators, point, modulus)?;
    let maps = family.symmetries.as_slice();
    let symmetries = symmetries_at(alloc, maps, loops, denominators, point, modulus)?;
    Ok(FamilyAt { basis, symmetries })
}

/// All families at the numeric point, in their order.
#[derive(Drop)]
pub struct FamiliesAt {
    /// The denominators of each family.
    pub bases: Items<Basis>,
    /// The symmetries of each family.
    pub symmetries: Items<Items<Symmetry>>,
}

/// All families, in their order, where each invariant has its residue.
pub fn families_at(
    alloc: Global,
    families: &[Family],
    residues: &[u64],
    point: &Point,
    modulus: &Modulus,
) -> Result<FamiliesAt, PlanError>
    requires few_families { length families.now ≤ 16 }
    requires residues { All (λ v. v < modulus.now) residues.now }
    requires modulus { point.now.modulus ≡ modulus.now }
    requires few { point.now.externals ≤ 6 }
    requires families { All (IsOver point.now.externals) families.now }
    ensures families { Meets (AreFamiliesAt modulus.now residues.now point.now families.now) result }
    ensures bases { IfOk result (λ at. AllZip (IsBasisOf modulus.now point.now.externals) families.now at.bases) }
    ensures widths { IfOk result (λ at. AllZip AreSymmetriesOf at.bases at.symmetries) }
{
    let mut bases = Items::new(alloc);
    let mut symmetries = Items::new(alloc);
    for family in families {
        let number = bases.len() as u32;
        let found = family_at(alloc, number, family, residues, point, modulus)?;
        bases.push(found.basis)?;
        symmetries.push(found.symmetries)?;
    }
    Ok(FamiliesAt { bases, symmetries })
}
