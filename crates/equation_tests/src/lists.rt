//! Equations modulo 101, worked by hand: those of the one-loop tadpole and bubble, whose lines a symmetry
//! exchanges, and of a two-loop vacuum diagram; and bounds on terms.

ghost use Rattle.std.specs.Prelude.{◌≡◌, ◌≤◌, ◌<◌, All, IsTrue, IfOk, OnOk, length};
ghost use Rattle.std.specs.List.{AllZip};
ghost use Rattle.propagators.specs.Forms.{product_total};
ghost use Rattle.job_equations.specs.Equations.{AreSymmetriesOf, IsSeedOf};
ghost use Rattle.job_equations.specs.Bounds.{IsEquationShape};

use crate::shared::{
    Terms, Wrong, basis_of, has_terms, integral, momentum, point_of, rule, square, symmetric,
};
use field_word::Modulus;
use ibp_generator::are_seed_indices;
use integral_index::{Integral, Order, ZeroSectors};
use job_equations::{EquationShape, equations, term_bound};
use propagators::{Basis, Denominator};
use sparse_row::Row;
use sqlite_items::Items;
use std::alloc::Global;
use std::test::Fail;
use symmetry_maps::Symmetry;

// The tadpole: k1 with this squared mass.
fn tadpole(alloc: Global, mass: u64, modulus: &Modulus) -> Result<Basis, Wrong>
    ensures { IfOk result (λ basis. basis.point.modulus ≡ modulus.now) }
{
    let point = point_of(alloc, &[], 0, modulus)?;
    basis_of(alloc, 1, &[square(alloc, &[1], mass)?], &point, modulus)
}

// The bubble: k1 and k1 + p1, massless, with p1 p1 = 5.
fn bubble(alloc: Global, modulus: &Modulus) -> Result<Basis, Wrong>
    ensures { IfOk result (λ basis. basis.point.modulus ≡ modulus.now) }
{
    let point = point_of(alloc, &[rule(alloc, &[1], 5)?], 1, modulus)?;
    let denominators = [square(alloc, &[1, 0], 0)?, square(alloc, &[1, 1], 0)?];
    basis_of(alloc, 1, &denominators, &point, modulus)
}

// The vacuum diagram: k1 with the squared mass 3, k2, and the bilinear k1 (k1 + k2).
fn vacuum(alloc: Global, modulus: &Modulus) -> Result<Basis, Wrong>
    ensures { IfOk result (λ basis. basis.point.modulus ≡ modulus.now) }
{
    let point = point_of(alloc, &[], 0, modulus)?;
    let denominators = [
        square(alloc, &[1, 0], 3)?,
        square(alloc, &[0, 1], 0)?,
        Denominator::Bilinear {
            left: momentum(alloc, &[1, 0])?,
            right: momentum(alloc, &[1, 1])?,
            mass: 0,
        },
    ];
    basis_of(alloc, 2, &denominators, &point, modulus)
}

// The bubble, and the symmetry by this image of k1.
fn bubble_with(alloc: Global, image: &[i16], modulus: &Modulus) -> Result<(Basis, Symmetry), Wrong>
    ensures { IfOk result (λ both. both.0.point.modulus ≡ modulus.now) }
{
    let point = point_of(alloc, &[rule(alloc, &[1], 5)?], 1, modulus)?;
    let denominators = [square(alloc, &[1, 0], 0)?, square(alloc, &[1, 1], 0)?];
    let images = [momentum(alloc, image)?];
    symmetric(alloc, &images, &denominators, &point, modulus)
}

fn are_symmetries_of(basis: &Basis, symmetries: &[Symmetry]) -> bool
    ensures { IsTrue result → AreSymmetriesOf basis.now symmetries.now }
{
    let width = basis.width() as usize;
    symmetries
        .iter()
        .all(|symmetry| symmetry.places().len() == width)
}

// The families of a job, with one modulus, and the symmetries of each.
fn push_family(
    bases: &mut Vec<Basis>,
    symmetries: &mut Vec<Items<Symmetry>>,
    basis: Basis,
    found: Items<Symmetry>,
    modulus: &Modulus,
) -> Result<(), Wrong>
    requires all { All (λ basis. basis.point.modulus ≡ modulus.now) bases.old.items }
    requires pairs { AllZip AreSymmetriesOf bases.old.items symmetries.old.items }
    requires one { basis.point.modulus ≡ modulus.now }
    ensures all { OnOk result (All (λ basis. basis.point.modulus ≡ modulus.now) bases.new.items) }
    ensures pairs { OnOk result (AllZip AreSymmetriesOf bases.new.items symmetries.new.items) }
{
    if !are_symmetries_of(&basis, found.as_slice()) {
        return Err(Wrong::Symmetry);
    }
    bases.push(basis)?;
    symmetries.push(found)?;
    Ok(())
}

fn is_seed_of(bases: &[Basis], seed: &Integral) -> bool
    ensures { IsTrue result → IsSeedOf bases.now seed.now }
{
    let family = seed.family() as usize;
    family < bases.len()
        && seed.indices().len() == bases[family].width() as usize
        && are_seed_indices(seed.indices())
}

fn are_seeds_of(bases: &[Basis], seeds: &[Integral]) -> bool
    ensures { IsTrue result → All (IsSeedOf bases.now) seeds.now }
{
    seeds.iter().all(|seed| is_seed_of(bases, seed))
}

fn integrals(alloc: Global, named: &[(u32, &[i8])]) -> Result<Vec<Integral>, Wrong> {
    let mut seeds = Vec::new(alloc);
    for (family, indices) in named {
        seeds.push(integral(alloc, *family, indices)?)?;
    }
    Ok(seeds)
}

fn zeros_of(alloc: Global, listed: &[&[u32]]) -> Result<Vec<ZeroSectors>, Wrong> {
    let mut zeros = Vec::new(alloc);
    for sectors in listed {
        zeros.push(ZeroSectors::new(alloc, sectors)?)?;
    }
    Ok(zeros)
}

// The equations of seeds, each named by its family and its indices.
fn rows_of(
    alloc: Global,
    bases: &[Basis],
    symmetries: &[Items<Symmetry>],
    listed: &[&[u32]],
    dimension: u128,
    named: &[(u32, &[i8])],
    modulus: &Modulus,
) -> Result<Vec<Row>, Wrong>
    requires all { All (λ basis. basis.point.modulus ≡ modulus.now) bases.now }
    requires pairs { AllZip AreSymmetriesOf bases.now symmetries.now }
{
    let zeros = zeros_of(alloc, listed)?;
    let seeds = integrals(alloc, named)?;
    if zeros.len() != bases.len() || !are_seeds_of(bases, &seeds) {
        return Err(Wrong::Seed);
    }
    Ok(equations(
        alloc,
        bases,
        symmetries,
        &zeros,
        modulus.reduce(dimension),
        &seeds,
        Order::Standard,
        modulus,
    )?)
}

// The terms of a row, each with the indices of its integral and the coefficient.
// A family of the jobs below, and which symmetries it has.
enum Known {
    // With this squared mass.
    Tadpole(u64),
    Bubble,
    // With the map that leaves k1, and with the one that exchanges the lines.
    SymmetricBubble,
    Vacuum,
}

struct Job {
    first: Known,
    second: Option<Known>,
    zero_sectors: &'static [&'static [u32]],
    dimension: u128,
    // Each with the number of its family.
    seeds: &'static [(u32, &'static [i8])],
    // The equations, each of a family.
    rows: &'static [(u32, Terms)],
}

fn symmetric_bubble(alloc: Global, modulus: &Modulus) -> Result<(Basis, Items<Symmetry>), Wrong>
    ensures { IfOk result (λ both. both.0.point.modulus ≡ modulus.now) }
{
    let (_other, stay) = bubble_with(alloc, &[1, 0], modulus)?;
    let (basis, exchange) = bubble_with(alloc, &[-1, -1], modulus)?;
    let mut found = Items::new(alloc);
    found.push(stay)?;
    found.push(exchange)?;
    Ok((basis, found))
}

fn basis_and_symmetries(
    alloc: Global,
    family: &Known,
    modulus: &Modulus,
) -> Result<(Basis, Items<Symmetry>), Wrong>
    ensures { IfOk result (λ both. both.0.point.modulus ≡ modulus.now) }
{
    match family {
        Known::Tadpole(mass) => Ok((tadpole(alloc, *mass, modulus)?, Items::new(alloc))),
        Known::Bubble => Ok((bubble(alloc, modulus)?, Items::new(alloc))),
        Known::SymmetricBubble => symmetric_bubble(alloc, modulus),
        Known::Vacuum => Ok((vacuum(alloc, modulus)?, Items::new(alloc))),
    }
}

fn push_known(
    alloc: Global,
    bases: &mut Vec<Basis>,
    symmetries: &mut Vec<Items<Symmetry>>,
    family: &Known,
    modulus: &Modulus,
) -> Result<(), Wrong>
    requires all { All (λ basis. basis.point.modulus ≡ modulus.now) bases.old.items }
    requires pairs { AllZip AreSymmetriesOf bases.old.items symmetries.old.items }
    ensures all { OnOk result (All (λ basis. basis.point.modulus ≡ modulus.now) bases.new.items) }
    ensures pairs { OnOk result (AllZip AreSymmetriesOf bases.new.items symmetries.new.items) }
{
    let (basis, found) = basis_and_symmetries(alloc, family, modulus)?;
    push_family(bases, symmetries, basis, found, modulus)
}

fn rows_of_families(
    alloc: Global,
    job: &Job,
    bases: &[Basis],
    symmetries: &[Items<Symmetry>],
    modulus: &Modulus,
) -> Result<Vec<Row>, Wrong>
    requires all { All (λ basis. basis.point.modulus ≡ modulus.now) bases.now }
    requires pairs { AllZip AreSymmetriesOf bases.now symmetries.now }
{
    rows_of(
        alloc,
        bases,
        symmetries,
        job.zero_sectors,
        job.dimension,
        job.seeds,
        modulus,
    )
}

fn rows_of_job(alloc: Global, job: &Job, modulus: &Modulus) -> Result<Vec<Row>, Wrong> {
    let mut bases = Vec::new(alloc);
    let mut symmetries = Vec::new(alloc);
    push_known(alloc, &mut bases, &mut symmetries, &job.first, modulus)?;
    match &job.second {
        None => rows_of_families(alloc, job, &bases, &symmetries, modulus),
        Some(second) => {
            push_known(alloc, &mut bases, &mut symmetries, second, modulus)?;
            rows_of_families(alloc, job, &bases, &symmetries, modulus)
        }
    }
}

// Whether these are the rows, each of a family and with these terms.
fn are_rows(rows: &[Row], wanted: &[(u32, Terms)]) -> bool {
    if rows.len() != wanted.len() {
        return false;
    }
    for k in 0..rows.len() {
        if !has_terms(&rows[k], wanted[k].0, wanted[k].1) {
            return false;
        }
    }
    true
}

// Whether the job has just its equations, modulo 101.
fn has_its_equations(alloc: Global, job: &Job) -> Result<bool, Fail> {
    let modulus = Modulus::new(101)?;
    let rows = rows_of_job(alloc, job, &modulus)?;
    Ok(are_rows(&rows, job.rows))
}

// The derivative times k1 is 2 D1 and D1 + D2 - 5, that times p1 is D2 - D1 - 5 and D2 - D1 + 5.
const OF_THE_BUBBLE: Job = Job {
    first: Known::Bubble,
    second: None,
    zero_sectors: &[&[]],
    dimension: 7,
    seeds: &[(0, &[2, -1]), (0, &[1, 1])],
    rows: &[
        (0, &[(&[2, -1], 4), (&[2, 0], 96), (&[1, 0], 1)]),
        (
            0,
            &[
                (&[3, -2], 99),
                (&[3, -1], 10),
                (&[2, -1], 3),
                (&[2, 0], 5),
                (&[1, 0], 100),
            ],
        ),
        (0, &[(&[1, 2], 5), (&[1, 1], 4), (&[0, 2], 100)]),
        (
            0,
            &[(&[2, 1], 5), (&[1, 2], 96), (&[0, 2], 1), (&[2, 0], 100)],
        ),
    ],
};

#[test]
fn equations_of_the_bubble(rt: HostRuntime) -> Result<(), Fail> {
    assert!(rt; has_its_equations(rt.alloc(), &OF_THE_BUBBLE)?);
    Ok(())
}

// The tadpole with the squared mass 3 has (d - 2a) I(a) - 6a I(a + 1). The bubble's sectors 1 and 2 are zero,
// and the tadpole's sector 1 isn't.
const OF_TWO_FAMILIES: Job = Job {
    first: Known::Tadpole(3),
    second: Some(Known::Bubble),
    zero_sectors: &[&[], &[1, 2]],
    dimension: 7,
    seeds: &[(0, &[1]), (1, &[1, 1]), (0, &[2])],
    rows: &[
        (0, &[(&[2], 95), (&[1], 5)]),
        (1, &[(&[1, 2], 5), (&[1, 1], 4)]),
        (1, &[(&[2, 1], 5), (&[1, 2], 96)]),
        (0, &[(&[3], 89), (&[2], 3)]),
    ],
};

#[test]
fn the_family_of_a_seed_decides(rt: HostRuntime) -> Result<(), Fail> {
    assert!(rt; has_its_equations(rt.alloc(), &OF_TWO_FAMILIES)?);
    Ok(())
}

// The two maps of the bubble are the one that leaves k1, by which all cancels, and k1 -> -k1 - p1, which
// exchanges the lines. The tadpole has no symmetry.
const WITH_SYMMETRIES: Job = Job {
    first: Known::Tadpole(3),
    second: Some(Known::SymmetricBubble),
    zero_sectors: &[&[], &[]],
    dimension: 7,
    seeds: &[(0, &[1]), (1, &[2, -1])],
    rows: &[
        (0, &[(&[2], 95), (&[1], 5)]),
        (1, &[(&[2, -1], 4), (&[2, 0], 96), (&[1, 0], 1)]),
        (
            1,
            &[
                (&[3, -2], 99),
                (&[3, -1], 10),
                (&[2, -1], 3),
                (&[2, 0], 5),
                (&[1, 0], 100),
            ],
        ),
        (1, &[]),
        (1, &[(&[-1, 2], 100), (&[2, -1], 1)]),
    ],
};

#[test]
fn symmetries_come_behind_the_derivatives(rt: HostRuntime) -> Result<(), Fail> {
    assert!(rt; has_its_equations(rt.alloc(), &WITH_SYMMETRIES)?);
    Ok(())
}

// The massless tadpole has (d - 2a) I(a): nothing for d = 2 and a = 1.
const WITH_AN_EMPTY_ROW: Job = Job {
    first: Known::Tadpole(0),
    second: None,
    zero_sectors: &[&[]],
    dimension: 2,
    seeds: &[(0, &[1]), (0, &[2])],
    rows: &[(0, &[]), (0, &[(&[2], 99)])],
};

const WITHOUT_SEEDS: Job = Job {
    first: Known::Tadpole(0),
    second: None,
    zero_sectors: &[&[]],
    dimension: 2,
    seeds: &[],
    rows: &[],
};

#[test]
fn an_empty_row_stays(rt: HostRuntime) -> Result<(), Fail> {
    assert!(rt; has_its_equations(rt.alloc(), &WITH_AN_EMPTY_ROW)?);
    assert!(rt; has_its_equations(rt.alloc(), &WITHOUT_SEEDS)?);
    Ok(())
}

// With k1 k2 = D3 - D1 - 3, the derivatives by k1 are 2 D1 + 6, 0, D3 + D1 + 3 times k1, and
// 2 D3 - 2 D1 - 6, 0, 2 D3 - 2 D1 - 6 + D2 times k2; those by k2 are 0, 2 D3 - 2 D1 - 6, D1 + 3 times k1, and
// 0, 2 D2, D3 - D1 - 3 times k2.
const OF_THE_VACUUM: Job = Job {
    first: Known::Vacuum,
    second: None,
    zero_sectors: &[&[]],
    dimension: 7,
    seeds: &[(0, &[1, 1, 1])],
    rows: &[
        (
            0,
            &[
                (&[2, 1, 1], 95),
                (&[1, 1, 2], 98),
                (&[1, 1, 1], 4),
                (&[0, 1, 2], 100),
            ],
        ),
        (
            0,
            &[
                (&[2, 1, 1], 6),
                (&[1, 1, 2], 6),
                (&[0, 1, 2], 2),
                (&[1, 0, 2], 100),
                (&[2, 1, 0], 99),
            ],
        ),
        (
            0,
            &[
                (&[1, 2, 1], 6),
                (&[1, 1, 2], 98),
                (&[0, 2, 1], 2),
                (&[0, 1, 2], 100),
                (&[1, 2, 0], 99),
            ],
        ),
        (0, &[(&[1, 1, 2], 3), (&[1, 1, 1], 4), (&[0, 1, 2], 1)]),
    ],
};

#[test]
fn the_loop_momentum_is_the_outer_one(rt: HostRuntime) -> Result<(), Fail> {
    assert!(rt; has_its_equations(rt.alloc(), &OF_THE_VACUUM)?);
    Ok(())
}

fn is_shape(shape: &EquationShape) -> bool
    ensures { IsTrue result → IsEquationShape shape.now }
{
    1 <= shape.loops
        && shape.loops <= 6
        && shape.externals <= 6
        && shape.width <= 20
        && shape.symmetries <= 64
}

fn are_shapes(shapes: &[EquationShape]) -> bool
    ensures { IsTrue result → All IsEquationShape shapes.now }
{
    shapes.iter().all(is_shape)
}

fn are_of_families(seeds: &[Integral], count: usize) -> bool
    ensures { IsTrue result → All (λ seed. seed.family < count) seeds.now }
{
    seeds.iter().all(|seed| (seed.family() as usize) < count)
}

// The bound on the terms of seeds of these families.
fn bound_of(alloc: Global, shapes: &[EquationShape], families: &[u32]) -> Result<u64, Wrong> {
    let mut seeds = Vec::new(alloc);
    for family in families {
        seeds.push(integral(alloc, *family, &[1])?)?;
    }
    if !are_shapes(shapes) || !are_of_families(&seeds, shapes.len()) || seeds.len() > 1 << 17 {
        return Err(Wrong::Shape);
    }
    Ok(term_bound(shapes, &seeds))
}

const TADPOLE_BOX_AND_DOUBLE_BOX: &[EquationShape] = &[
    EquationShape {
        loops: 1,
        externals: 0,
        width: 1,
        symmetries: 0,
    },
    EquationShape {
        loops: 1,
        externals: 3,
        width: 4,
        symmetries: 0,
    },
    EquationShape {
        loops: 2,
        externals: 3,
        width: 9,
        symmetries: 0,
    },
];

const SYMMETRIC_BOX: &[EquationShape] = &[EquationShape {
    loops: 1,
    externals: 3,
    width: 4,
    symmetries: 2,
}];

const GREATEST: &[EquationShape] = &[EquationShape {
    loops: 6,
    externals: 6,
    width: 20,
    symmetries: 64,
}];

// Shapes, the families of the seeds, and the bound. The tadpole, the box and the double box have 1 · 3, 4 · 21 and
// 10 · 91 terms a seed; with two symmetries the box has 6 · 21.
const BOUNDS: &[(&[EquationShape], &[u32], u64)] = &[
    (TADPOLE_BOX_AND_DOUBLE_BOX, &[], 0),
    (TADPOLE_BOX_AND_DOUBLE_BOX, &[0], 3),
    (TADPOLE_BOX_AND_DOUBLE_BOX, &[1], 84),
    (TADPOLE_BOX_AND_DOUBLE_BOX, &[2], 910),
    (TADPOLE_BOX_AND_DOUBLE_BOX, &[0, 0, 1, 2, 2, 2], 2820),
    (TADPOLE_BOX_AND_DOUBLE_BOX, &[2, 1, 2, 0, 2, 0], 2820),
    (SYMMETRIC_BOX, &[0, 0], 252),
    (GREATEST, &[0], 57256),
];

fn all_are_bounded(alloc: Global) -> Result<bool, Wrong> {
    for (shapes, families, bound) in BOUNDS {
        if bound_of(alloc, shapes, families)? != *bound {
            return Ok(false);
        }
    }
    Ok(true)
}

#[test]
fn bounds_on_terms(rt: HostRuntime) -> Result<(), Fail> {
    assert!(rt; all_are_bounded(rt.alloc())?);
    Ok(())
}
