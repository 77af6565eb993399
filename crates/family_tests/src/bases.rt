ghost use Rattle.std.specs.Prelude.{◌≡◌, IfOk};

use field_word::{Composite, Modulus};
use kinematics::{
    Momentum, Point, PointFault, Rule, are_coefficients, are_wide, point, residue, rules_fit,
};
use out_of_memory::OutOfMemory;
use propagators::{
    Basis, BasisFault, Denominator, Form, denominators_fit, family, form, image, product,
};
use std::alloc::Global;
use std::test::Fail;

// The momentum with these coefficients.
pub(crate) fn momentum(alloc: Global, coefficients: &[i16]) -> Result<Momentum, OutOfMemory>
    ensures { IfOk result (λ m. m ≡ coefficients.now) }
{
    if are_coefficients(coefficients) {
        Momentum::new(alloc, coefficients)
    } else {
        Err(OutOfMemory)
    }
}

fn square(alloc: Global, coefficients: &[i16], mass: u64) -> Result<Denominator, OutOfMemory> {
    let momentum = momentum(alloc, coefficients)?;
    Ok(Denominator::Square { momentum, mass })
}

fn bilinear(
    alloc: Global,
    left: &[i16],
    right: &[i16],
    mass: u64,
) -> Result<Denominator, OutOfMemory> {
    let left = momentum(alloc, left)?;
    let right = momentum(alloc, right)?;
    Ok(Denominator::Bilinear { left, right, mass })
}

// The rule that the square of a sum of external momenta has this value.
fn rule(alloc: Global, coefficients: &[i16], value: u64) -> Result<Rule, OutOfMemory> {
    Ok(Rule {
        left: momentum(alloc, coefficients)?,
        right: momentum(alloc, coefficients)?,
        value,
    })
}

fn point_of(
    alloc: Global,
    rules: &[Rule],
    externals: u32,
    modulus: &Modulus,
) -> Result<Point, PointFault>
    ensures { IfOk result (λ point. point.modulus ≡ modulus.now) }
{
    if externals <= 6 && rules_fit(rules, externals, modulus) {
        point(alloc, rules, externals, modulus)
    } else {
        Err(PointFault::OutOfMemory)
    }
}

// Rules that the squares of these sums of external momenta have these values.
fn rules_of(alloc: Global, listed: &[(&[i16], u64)], modulus: &Modulus) -> Result<Vec<Rule>, Fail> {
    let mut rules = Vec::new(alloc);
    for (coefficients, value) in listed {
        rules.push(rule(alloc, coefficients, modulus.reduce(*value as u128))?)?;
    }
    Ok(rules)
}

fn point_by(
    alloc: Global,
    listed: &[(&[i16], u64)],
    externals: u32,
    modulus: &Modulus,
) -> Result<Point, Fail>
    ensures { IfOk result (λ point. point.modulus ≡ modulus.now) }
{
    let rules = rules_of(alloc, listed, modulus)?;
    Ok(point_of(alloc, &rules, externals, modulus)?)
}

// The point p1·p1 = 7.
fn one_external(alloc: Global, modulus: &Modulus) -> Result<Point, Fail>
    ensures { IfOk result (λ point. point.modulus ≡ modulus.now) }
{
    point_by(alloc, &[(&[1], 7)], 1, modulus)
}

// A denominator by its coefficients and its mass.
#[derive(Clone, Copy)]
enum Line {
    Square(&'static [i16], u64),
    Bilinear(&'static [i16], &'static [i16], u64),
}

fn reduced(line: &Line, modulus: &Modulus) -> Line {
    match line {
        Line::Square(coefficients, mass) => {
            Line::Square(coefficients, modulus.reduce(*mass as u128))
        }
        Line::Bilinear(left, right, mass) => {
            Line::Bilinear(left, right, modulus.reduce(*mass as u128))
        }
    }
}

fn denominator(alloc: Global, line: &Line) -> Result<Denominator, OutOfMemory> {
    match line {
        Line::Square(coefficients, mass) => square(alloc, coefficients, *mass),
        Line::Bilinear(left, right, mass) => bilinear(alloc, left, right, *mass),
    }
}

// The denominators with the residues of their masses.
fn denominators_of(
    alloc: Global,
    lines: &[Line],
    modulus: &Modulus,
) -> Result<Vec<Denominator>, Fail> {
    let mut denominators = Vec::new(alloc);
    for line in lines {
        denominators.push(denominator(alloc, &reduced(line, modulus))?)?;
    }
    Ok(denominators)
}

fn family_of(
    alloc: Global,
    loops: u32,
    denominators: &[Denominator],
    point: &Point,
    modulus: &Modulus,
) -> Result<Basis, BasisFault>
    requires { point.now.modulus ≡ modulus.now }
{
    let momenta = loops as usize + point.externals() as usize;
    if loops < 1 || loops > 6 || denominators.len() > 20 {
        return Err(BasisFault::OutOfMemory);
    }
    let total = loops * (loops + 1) / 2 + loops * point.externals();
    if denominators.len() != total as usize || !denominators_fit(denominators, momenta, modulus) {
        return Err(BasisFault::OutOfMemory);
    }
    family(alloc, loops, denominators, point, modulus)
}

// Whether the values are the residues of the numbers, one for each.
fn are_residues_of(values: &[u64], numbers: &[i64], modulus: &Modulus) -> bool {
    if values.len() != numbers.len() {
        return false;
    }
    for (value, number) in values.iter().zip(numbers) {
        if *value != residue(*number, modulus) {
            return false;
        }
    }
    true
}

// The loop momentum, the momentum and the denominator, by their numbers, and whole numbers whose residues the derivative has.
type Derivative = (u32, u32, u32, &'static [i64]);

// Whether the derivative of the denominator j by the loop momentum i, times the momentum q, has the
// residues of these whole numbers.
fn derives(basis: &Basis, i: u32, q: u32, j: u32, wanted: &[i64], modulus: &Modulus) -> bool {
    let width = basis.width();
    let momenta = basis.loops() as usize + basis.externals() as usize;
    if i < 1 || i > basis.loops() || q < 1 || q as usize > momenta || j < 1 || j > width {
        return false;
    }
    are_residues_of(basis.derivative(i, q, j), wanted, modulus)
}

fn has_all(basis: &Basis, derivatives: &[Derivative], modulus: &Modulus) -> bool {
    for (i, q, j, wanted) in derivatives {
        if !derives(basis, *i, *q, *j, wanted, modulus) {
            return false;
        }
    }
    true
}

// A family at a point.
struct Known {
    loops: u32,
    externals: u32,
    rules: &'static [(&'static [i16], u64)],
    lines: &'static [Line],
}

fn basis_of(alloc: Global, known: &Known, modulus: &Modulus) -> Result<Basis, Fail> {
    let point = point_by(alloc, known.rules, known.externals, modulus)?;
    let denominators = denominators_of(alloc, known.lines, modulus)?;
    Ok(family_of(alloc, known.loops, &denominators, &point, modulus)?)
}

fn has_size(basis: &Basis, loops: u32, externals: u32, width: usize) -> bool {
    basis.loops() == loops && basis.externals() == externals && basis.width() as usize == width
}

fn has_derivatives(
    alloc: Global,
    known: &Known,
    derivatives: &[Derivative],
    p: u64,
) -> Result<bool, Fail> {
    let modulus = Modulus::new(p)?;
    let basis = basis_of(alloc, known, &modulus)?;
    Ok(
        has_size(&basis, known.loops, known.externals, known.lines.len())
            && has_all(&basis, derivatives, &modulus),
    )
}

fn has_derivatives_by_each(
    alloc: Global,
    known: &Known,
    derivatives: &[Derivative],
) -> Result<bool, Fail> {
    for p in [101, 3, 15] {
        if !has_derivatives(alloc, known, derivatives, p)? {
            return Ok(false);
        }
    }
    Ok(true)
}

// The massless triangle at (p1 + p2)^2 = 2.
const TRIANGLE: Known = Known {
    loops: 1,
    externals: 2,
    rules: &[(&[1, 0], 0), (&[0, 1], 0), (&[1, 1], 2)],
    lines: &[
        Line::Square(&[1, 0, 0], 0),
        Line::Square(&[1, 1, 0], 0),
        Line::Square(&[1, 0, -1], 0),
    ],
};

// Worked by hand: D2 - D1 = 2 k1·p1 and D1 - D3 = 2 k1·p2.
const OF_THE_TRIANGLE: &[Derivative] = &[
    (1, 1, 1, &[0, 2, 0, 0]),
    (1, 1, 2, &[0, 1, 1, 0]),
    (1, 1, 3, &[0, 1, 0, 1]),
    (1, 2, 1, &[0, -1, 1, 0]),
    (1, 2, 2, &[0, -1, 1, 0]),
    (1, 2, 3, &[-2, -1, 1, 0]),
    (1, 3, 1, &[0, 1, 0, -1]),
    (1, 3, 2, &[2, 1, 0, -1]),
    (1, 3, 3, &[0, 1, 0, -1]),
];

#[test]
fn the_massless_triangle_has_its_derivatives(rt: HostRuntime) -> Result<(), Fail> {
    assert!(rt; has_derivatives_by_each(rt.alloc(), &TRIANGLE, OF_THE_TRIANGLE)?);
    Ok(())
}

// The massless box at s = 2 and t = 6.
const FOUR_LEGS: Known = Known {
    loops: 1,
    externals: 3,
    rules: &[
        (&[1, 0, 0], 0),
        (&[0, 1, 0], 0),
        (&[0, 0, 1], 0),
        (&[1, 1, 0], 2),
        (&[0, 1, 1], 6),
        (&[1, 1, 1], 0),
    ],
    lines: &[
        Line::Square(&[1, 0, 0, 0], 0),
        Line::Square(&[1, 1, 0, 0], 0),
        Line::Square(&[1, 1, 1, 0], 0),
        Line::Square(&[1, 1, 1, 1], 0),
    ],
};

// Worked by hand: p1·p2 = 1, p2·p3 = 3 and p1·p3 = -4.
const OF_FOUR_LEGS: &[Derivative] = &[
    (1, 4, 3, &[0, 0, 0, -1, 1]),
    (1, 4, 1, &[2, 0, 0, -1, 1]),
    (1, 3, 4, &[6, 0, -1, 1, 0]),
];

#[test]
fn the_massless_box_has_its_derivatives(rt: HostRuntime) -> Result<(), Fail> {
    assert!(rt; has_derivatives_by_each(rt.alloc(), &FOUR_LEGS, OF_FOUR_LEGS)?);
    Ok(())
}

// Two loops with k1^2, k2^2, (k1 - k2)^2 - 5, (k1 + p1)^2 and k2·p1 - 3 at p1·p1 = 7.
const TWO_LOOPS: Known = Known {
    loops: 2,
    externals: 1,
    rules: &[(&[1], 7)],
    lines: &[
        Line::Square(&[1, 0, 0], 0),
        Line::Square(&[0, 1, 0], 0),
        Line::Square(&[1, -1, 0], 5),
        Line::Square(&[1, 0, 1], 0),
        Line::Bilinear(&[0, 1, 0], &[0, 0, 1], 3),
    ],
};

// Worked by hand: D4 - D1 - 7 = 2 k1·p1.
const OF_TWO_LOOPS: &[Derivative] = &[
    (1, 1, 3, &[5, 1, -1, 1, 0, 0]),
    (2, 3, 3, &[13, 1, 0, 0, -1, 2]),
    (2, 3, 5, &[7, 0, 0, 0, 0, 0]),
    (1, 2, 5, &[0, 0, 0, 0, 0, 0]),
];

// The derivative that has 1/2, -1/2 and -7/2, by their residues modulo 101, 3 and 15.
const BY_101: &[Derivative] = &[(2, 1, 5, &[47, 50, 0, 0, 51, 0])];

const BY_3: &[Derivative] = &[(2, 1, 5, &[1, 1, 0, 0, 2, 0])];

const BY_15: &[Derivative] = &[(2, 1, 5, &[4, 7, 0, 0, 8, 0])];

#[test]
fn two_loops_with_a_bilinear_denominator(rt: HostRuntime) -> Result<(), Fail> {
    let alloc = rt.alloc();
    assert!(rt; has_derivatives_by_each(alloc, &TWO_LOOPS, OF_TWO_LOOPS)?);
    assert!(rt; has_derivatives(alloc, &TWO_LOOPS, BY_101, 101)?);
    assert!(rt; has_derivatives(alloc, &TWO_LOOPS, BY_3, 3)?);
    assert!(rt; has_derivatives(alloc, &TWO_LOOPS, BY_15, 15)?);
    Ok(())
}

// k1^2 and k1·(k1 + p1) - 3 at p1·p1 = 7.
const SQUARE_AND_BILINEAR: Known = Known {
    loops: 1,
    externals: 1,
    rules: &[(&[1], 7)],
    lines: &[
        Line::Square(&[1, 0], 0),
        Line::Bilinear(&[1, 0], &[1, 1], 3),
    ],
};

// Worked by hand.
const BOTH_TERMS: &[Derivative] = &[(1, 1, 2, &[3, 1, 1]), (1, 2, 2, &[13, -2, 2])];

#[test]
fn a_bilinear_denominator_has_both_terms(rt: HostRuntime) -> Result<(), Fail> {
    assert!(rt; has_derivatives_by_each(rt.alloc(), &SQUARE_AND_BILINEAR, BOTH_TERMS)?);
    Ok(())
}

// How one loop and these denominators are refused at p1·p1 = 7, if they are.
fn refusal(alloc: Global, lines: &[Line], modulus: &Modulus) -> Result<Option<BasisFault>, Fail> {
    let point = one_external(alloc, modulus)?;
    let denominators = denominators_of(alloc, lines, modulus)?;
    Ok(family_of(alloc, 1, &denominators, &point, modulus).err())
}

// Whether the fault shows the dependence by this vector.
fn shows(fault: Option<BasisFault>, wanted: &[u64]) -> bool {
    match fault {
        Some(BasisFault::NotBasis { vector }) => vector.entries() == wanted,
        _ => false,
    }
}

// Whether the difference of the two denominators is shown as no denominator, by each modulus.
fn are_dependent(alloc: Global, lines: &[Line]) -> Result<bool, Fail> {
    for p in [101, 3, 15] {
        if !shows(refusal(alloc, lines, &Modulus::new(p)?)?, &[1, p - 1]) {
            return Ok(false);
        }
    }
    Ok(true)
}

#[test]
fn a_mass_alone_makes_no_basis(rt: HostRuntime) -> Result<(), Fail> {
    let lines = [Line::Square(&[1, 0], 0), Line::Square(&[1, 0], 2)];
    assert!(rt; are_dependent(rt.alloc(), &lines)?);
    Ok(())
}

#[test]
fn one_denominator_twice_makes_no_basis(rt: HostRuntime) -> Result<(), Fail> {
    let lines = [Line::Square(&[1, 1], 0), Line::Square(&[1, 1], 0)];
    assert!(rt; are_dependent(rt.alloc(), &lines)?);
    Ok(())
}

fn names(fault: Option<BasisFault>, wanted: u64) -> bool {
    match fault {
        Some(BasisFault::Composite(Composite { divisor })) => divisor == wanted,
        _ => false,
    }
}

// k1·3p1 has no other coefficient than 3, which divides 15.
#[test]
fn a_divisor_of_the_modulus_is_named(rt: HostRuntime) -> Result<(), Fail> {
    let lines = [
        Line::Square(&[1, 0], 0),
        Line::Bilinear(&[1, 0], &[0, 3], 0),
    ];
    assert!(rt; names(refusal(rt.alloc(), &lines, &Modulus::new(15)?)?, 3));
    Ok(())
}

fn form_of(
    alloc: Global,
    denominator: &Denominator,
    point: &Point,
    modulus: &Modulus,
) -> Result<Form, OutOfMemory>
    requires { point.now.modulus ≡ modulus.now }
    ensures loops { IfOk result (λ form. form.loops ≡ 1) }
    ensures externals { IfOk result (λ form. form.externals ≡ point.now.externals) }
{
    let momenta = 1 + point.externals() as usize;
    if denominator.fits(momenta, modulus) {
        form(alloc, denominator, 1, point, modulus)
    } else {
        Err(OutOfMemory)
    }
}

fn image_of(
    alloc: Global,
    denominator: &Denominator,
    image_of_loop: Momentum,
    point: &Point,
    modulus: &Modulus,
) -> Result<Form, OutOfMemory>
    requires { point.now.modulus ≡ modulus.now }
    ensures loops { IfOk result (λ form. form.loops ≡ 1) }
    ensures externals { IfOk result (λ form. form.externals ≡ point.now.externals) }
{
    let momenta = 1 + point.externals() as usize;
    let images = [image_of_loop];
    if denominator.fits(momenta, modulus) && are_wide(&images, momenta) {
        image(alloc, denominator, &images, 1, point, modulus)
    } else {
        Err(OutOfMemory)
    }
}

// Whether the square of the first sum goes by this image of k1 over into that of the second, both with the squared
// mass 4 at p1·p1 = 7.
fn goes_over(
    alloc: Global,
    from: &[i16],
    image_of_k1: &[i16],
    to: &[i16],
    modulus: &Modulus,
) -> Result<bool, Fail> {
    let point = one_external(alloc, modulus)?;
    let wanted = form_of(alloc, &square(alloc, to, 4)?, &point, modulus)?;
    let image_of_k1 = momentum(alloc, image_of_k1)?;
    let found = image_of(
        alloc,
        &square(alloc, from, 4)?,
        image_of_k1,
        &point,
        modulus,
    )?;
    Ok(found.equals(&wanted))
}

// The bubble under k1 -> -k1 - p1: its two denominators change places.
#[test]
fn the_bubble_turns_round(rt: HostRuntime) -> Result<(), Fail> {
    let alloc = rt.alloc();
    let p = Modulus::new(101)?;
    assert!(rt; goes_over(alloc, &[1, 0], &[-1, -1], &[1, 1], &p)?);
    assert!(rt; goes_over(alloc, &[1, 1], &[-1, -1], &[1, 0], &p)?);
    assert!(rt; !goes_over(alloc, &[1, 0], &[-1, -1], &[1, 0], &p)?);
    Ok(())
}

// 1000 k1 under k1 -> 1000 k1 + 1000 p1 is 10^6 (k1 + p1), and 10^6 is -1 modulo 101.
#[test]
fn an_image_may_pass_a_thousand(rt: HostRuntime) -> Result<(), Fail> {
    let p = Modulus::new(101)?;
    assert!(rt; goes_over(rt.alloc(), &[1000, 0], &[1000, 1000], &[1, 1], &p)?);
    Ok(())
}

fn bubble(alloc: Global, point: &Point, modulus: &Modulus) -> Result<Basis, Fail>
    requires one { point.now.externals ≡ 1 }
    requires modulus { point.now.modulus ≡ modulus.now }
    ensures point { IfOk result (λ basis. basis.point ≡ point.now) }
    ensures loops { IfOk result (λ basis. basis.loops ≡ 1) }
{
    let lines = [Line::Square(&[1, 0], 0), Line::Square(&[1, 1], 0)];
    let denominators = denominators_of(alloc, &lines, modulus)?;
    if denominators.len() != 2 || !denominators_fit(&denominators, 2, modulus) {
        return Err("not two denominators")?;
    }
    Ok(family(alloc, 1, &denominators, point, modulus)?)
}

fn has_values(
    alloc: Global,
    basis: &Basis,
    point: &Point,
    wanted: &[u64],
    modulus: &Modulus,
) -> Result<bool, Fail>
    requires one { point.now.externals ≡ 1 }
    requires modulus { point.now.modulus ≡ modulus.now }
    requires point { basis.now.point ≡ point.now }
    requires loops { basis.now.loops ≡ 1 }
{
    let left = momentum(alloc, &[1, 0])?;
    let right = momentum(alloc, &[1, 1])?;
    let form = product(alloc, &left, &right, 1, point, modulus)?;
    let combination = basis.in_denominators(alloc, &form)?;
    Ok(combination.values() == wanted)
}

fn is_written(alloc: Global, p: u64, wanted: &[u64]) -> Result<bool, Fail> {
    let modulus = Modulus::new(p)?;
    let point = one_external(alloc, &modulus)?;
    if point.externals() != 1 {
        return Ok(false);
    }
    let basis = bubble(alloc, &point, &modulus)?;
    has_values(alloc, &basis, &point, wanted, &modulus)
}

// k1·(k1 + p1) in k1^2 and (k1 + p1)^2 at p1·p1 = 7: (D1 + D2 - 7) / 2, by the residues of -7/2 and 1/2.
#[test]
fn a_product_is_written_in_denominators(rt: HostRuntime) -> Result<(), Fail> {
    assert!(rt; is_written(rt.alloc(), 101, &[47, 51, 51])?);
    assert!(rt; is_written(rt.alloc(), 3, &[1, 2, 2])?);
    assert!(rt; is_written(rt.alloc(), 15, &[4, 8, 8])?);
    Ok(())
}

// These don't stand beside two momenta modulo 101.
const UNFIT: &[Line] = &[
    Line::Square(&[1, 0], 101),
    Line::Bilinear(&[1, 0], &[0, 1], 101),
    Line::Bilinear(&[1], &[0, 1], 0),
    Line::Bilinear(&[1, 0], &[1], 0),
];

fn none_fits(alloc: Global, lines: &[Line], modulus: &Modulus) -> Result<bool, Fail> {
    for line in lines {
        if denominator(alloc, line)?.fits(2, modulus) {
            return Ok(false);
        }
    }
    Ok(true)
}

#[test]
fn tells_which_denominators_a_family_takes(rt: HostRuntime) -> Result<(), Fail> {
    let p = Modulus::new(101)?;
    let lines = [
        Line::Square(&[1, 0], 100),
        Line::Bilinear(&[1, 0], &[0, 1], 100),
    ];
    let denominators = denominators_of(rt.alloc(), &lines, &p)?;
    assert!(rt; denominators.len() == 2 && denominators_fit(&denominators, 2, &p));
    assert!(rt; !denominators_fit(&denominators, 1, &p) && !denominators_fit(&denominators, 3, &p));
    assert!(rt; none_fits(rt.alloc(), UNFIT, &p)?);
    Ok(())
}
