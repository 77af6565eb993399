//! Points worked by hand: the massless triangle and box, and rules that have none.

use crate::bases::momentum;
use field_word::{Composite, Modulus};
use kinematics::{
    Momentum, Point, PointFault, Rule, are_coefficients, are_wide, point, residue, rules_fit,
};
use std::alloc::Global;
use std::test::Fail;

// Adds the rule that the product of two sums of momenta has this value.
fn add(
    alloc: Global,
    rules: &mut Vec<Rule>,
    left: &[i16],
    right: &[i16],
    value: u64,
) -> Result<(), Fail> {
    let left = momentum(alloc, left)?;
    let right = momentum(alloc, right)?;
    rules.push(Rule { left, right, value })?;
    Ok(())
}

// The rules that products of two sums of momenta have these values.
type Given = (&'static [i16], &'static [i16], u64);

fn rules_of(alloc: Global, given: &[Given]) -> Result<Vec<Rule>, Fail> {
    let mut rules = Vec::new(alloc);
    for (left, right, value) in given {
        add(alloc, &mut rules, left, right, *value)?;
    }
    Ok(rules)
}

fn point_of(
    alloc: Global,
    given: &[Given],
    externals: u32,
    p: u64,
) -> Result<Result<Point, PointFault>, Fail> {
    let modulus = Modulus::new(p)?;
    let rules = rules_of(alloc, given)?;
    if externals > 6 || !rules_fit(&rules, externals, &modulus) {
        return Err("not such rules")?;
    }
    Ok(point(alloc, &rules, externals, &modulus))
}

// Whether the point has just these products, in the order of the tables.
fn has_products(point: &Point, wanted: &[u64]) -> bool {
    let externals = point.externals();
    let mut place = 0;
    for x in 0..externals {
        for y in x..externals {
            if place >= wanted.len() || point.product(x + 1, y + 1) != wanted[place] {
                return false;
            }
            place += 1;
        }
    }
    place == wanted.len()
}

fn gives(
    alloc: Global,
    given: &[Given],
    externals: u32,
    p: u64,
    wanted: &[u64],
) -> Result<bool, Fail> {
    match point_of(alloc, given, externals, p)? {
        Ok(point) => Ok(has_products(&point, wanted)),
        Err(_) => Ok(false),
    }
}

// Whether the rules clash, shown by these multipliers, whose combination says that 0 is the residue.
fn clash(
    alloc: Global,
    given: &[Given],
    externals: u32,
    p: u64,
    wanted: &[u64],
    left: u64,
) -> Result<bool, Fail> {
    match point_of(alloc, given, externals, p)? {
        Err(
            PointFault::RulesClash {
                multipliers,
                residue,
            },
        ) => Ok(multipliers.entries() == wanted && residue == left),
        _ => Ok(false),
    }
}

fn is_open(
    alloc: Global,
    given: &[Given],
    externals: u32,
    p: u64,
    wanted: &[u64],
) -> Result<bool, Fail> {
    match point_of(alloc, given, externals, p)? {
        Err(PointFault::RulesOpen { vector }) => Ok(vector.entries() == wanted),
        _ => Ok(false),
    }
}

fn names(
    alloc: Global,
    given: &[Given],
    externals: u32,
    p: u64,
    wanted: u64,
) -> Result<bool, Fail> {
    match point_of(alloc, given, externals, p)? {
        Err(PointFault::Composite(Composite { divisor })) => Ok(divisor == wanted),
        _ => Ok(false),
    }
}

// p1 and p2 are massless, and the square of their sum is 5.
const TRIANGLE: &[Given] = &[
    (&[1, 0], &[1, 0], 0),
    (&[0, 1], &[0, 1], 0),
    (&[1, 1], &[1, 1], 5),
];

// The same with 2 for 5.
const TRIANGLE_BY_3: &[Given] = &[
    (&[1, 0], &[1, 0], 0),
    (&[0, 1], &[0, 1], 0),
    (&[1, 1], &[1, 1], 2),
];

// p1 p2 is half of it.
#[test]
fn gives_the_points_of_the_triangle(rt: HostRuntime) -> Result<(), Fail> {
    assert!(rt; gives(rt.alloc(), TRIANGLE, 2, 101, &[0, 53, 0])?);
    assert!(rt; gives(rt.alloc(), TRIANGLE_BY_3, 2, 3, &[0, 1, 0])?);
    assert!(rt; gives(rt.alloc(), TRIANGLE, 2, 15, &[0, 10, 0])?);
    Ok(())
}

// p1, p2, p3 and -p1-p2-p3 are massless; the squares s of p1 + p2 and t of p2 + p3 are 5 and 11.
const SQUARE: &[Given] = &[
    (&[1, 0, 0], &[1, 0, 0], 0),
    (&[0, 1, 0], &[0, 1, 0], 0),
    (&[0, 0, 1], &[0, 0, 1], 0),
    (&[-1, -1, -1], &[-1, -1, -1], 0),
    (&[1, 1, 0], &[1, 1, 0], 5),
    (&[0, 1, 1], &[0, 1, 1], 11),
];

// The same with 2 and 2.
const SQUARE_BY_3: &[Given] = &[
    (&[1, 0, 0], &[1, 0, 0], 0),
    (&[0, 1, 0], &[0, 1, 0], 0),
    (&[0, 0, 1], &[0, 0, 1], 0),
    (&[-1, -1, -1], &[-1, -1, -1], 0),
    (&[1, 1, 0], &[1, 1, 0], 2),
    (&[0, 1, 1], &[0, 1, 1], 2),
];

// p1 p2 is s / 2, p2 p3 is t / 2, and p1 p3 is -(s + t) / 2.
#[test]
fn gives_the_points_of_the_box(rt: HostRuntime) -> Result<(), Fail> {
    assert!(rt; gives(rt.alloc(), SQUARE, 3, 101, &[0, 53, 93, 0, 56, 0])?);
    assert!(rt; gives(rt.alloc(), SQUARE_BY_3, 3, 3, &[0, 1, 1, 0, 1, 0])?);
    assert!(rt; gives(rt.alloc(), SQUARE, 3, 15, &[0, 10, 7, 0, 13, 0])?);
    Ok(())
}

const NOTHING_IS_0: &[Given] = &[(&[], &[], 0)];

const NOTHING_IS_1: &[Given] = &[(&[], &[], 0), (&[], &[], 0), (&[], &[], 1)];

#[test]
fn needs_no_rule_without_momenta(rt: HostRuntime) -> Result<(), Fail> {
    assert!(rt; gives(rt.alloc(), &[], 0, 101, &[])?);
    assert!(rt; gives(rt.alloc(), NOTHING_IS_0, 0, 101, &[])?);
    assert!(rt; clash(rt.alloc(), NOTHING_IS_1, 0, 101, &[0, 0, 1], 1)?);
    Ok(())
}

const ONE_AND_TWO: &[Given] = &[(&[1], &[1], 1), (&[1], &[1], 2)];

// The square of p1 is 1 and 2: the first rule minus the second says 0 = -1.
#[test]
fn tells_rules_that_clash(rt: HostRuntime) -> Result<(), Fail> {
    for p in [101, 3, 15] {
        assert!(rt; clash(rt.alloc(), ONE_AND_TWO, 1, p, &[1, p - 1], p - 1)?);
    }
    Ok(())
}

const ONE_AND_TWO_BESIDE_AN_OPEN_PRODUCT: &[Given] = &[
    (&[1, 0], &[1, 0], 1),
    (&[1, 0], &[1, 0], 2),
];

#[test]
fn tells_a_clash_before_an_open_product(rt: HostRuntime) -> Result<(), Fail> {
    let given = ONE_AND_TWO_BESIDE_AN_OPEN_PRODUCT;
    assert!(rt; clash(rt.alloc(), given, 2, 101, &[1, 100], 100)?);
    Ok(())
}

// 2 p1 p2 + p2 p2 is known alone: (0, 1, -2) is the only vector that begins with 1.
const ONE_SUM_IS_5: &[Given] = &[(&[1, 0], &[1, 0], 0), (&[1, 1], &[1, 1], 5)];

const ONE_SUM_IS_2: &[Given] = &[(&[1, 0], &[1, 0], 0), (&[1, 1], &[1, 1], 2)];

#[test]
fn tells_a_product_that_stays_open(rt: HostRuntime) -> Result<(), Fail> {
    assert!(rt; is_open(rt.alloc(), ONE_SUM_IS_5, 2, 101, &[0, 1, 99])?);
    assert!(rt; is_open(rt.alloc(), ONE_SUM_IS_2, 2, 3, &[0, 1, 1])?);
    assert!(rt; is_open(rt.alloc(), ONE_SUM_IS_5, 2, 15, &[0, 1, 13])?);
    Ok(())
}

const THREE_TIMES_THE_SQUARE: &[Given] = &[(&[3], &[1], 0)];

// 3 has an inverse modulo 101, and none modulo 15.
#[test]
fn names_a_divisor_of_15(rt: HostRuntime) -> Result<(), Fail> {
    assert!(rt; names(rt.alloc(), THREE_TIMES_THE_SQUARE, 1, 15, 3)?);
    assert!(rt; gives(rt.alloc(), THREE_TIMES_THE_SQUARE, 1, 101, &[0])?);
    Ok(())
}

// Numbers and their residues modulo 15.
const RESIDUES: &[(i64, u64)] = &[
    (0, 0),
    (14, 14),
    (15, 0),
    (-1, 14),
    (-15, 0),
    (-16, 14),
    (i64::MIN, 7),
];

fn all_are_residues(modulus: &Modulus) -> bool {
    for (number, value) in RESIDUES {
        if residue(*number, modulus) != *value {
            return false;
        }
    }
    true
}

#[test]
fn gives_residues_of_whole_numbers(rt: HostRuntime) -> Result<(), Fail> {
    assert!(rt; all_are_residues(&Modulus::new(15)?));
    Ok(())
}

fn fit(alloc: Global, given: &[Given], externals: u32) -> Result<bool, Fail> {
    let rules = rules_of(alloc, given)?;
    Ok(rules_fit(&rules, externals, &Modulus::new(101)?))
}

// The last rule of each doesn't fit two momenta modulo 101.
const UNFIT: &[&[Given]] = &[
    &[(&[1, 0], &[1, 0], 0), (&[1, 0], &[0, 1], 101)],
    &[(&[1, 0], &[1, 0], 0), (&[1], &[0, 1], 0)],
    &[(&[1, 0], &[1, 0], 0), (&[1, 0], &[1], 0)],
];

fn none_fits(alloc: Global) -> Result<bool, Fail> {
    for given in UNFIT {
        if fit(alloc, given, 2)? {
            return Ok(false);
        }
    }
    Ok(true)
}

const FIT: &[Given] = &[(&[1, 0], &[0, 1], 100)];

#[test]
fn tells_which_rules_a_point_takes(rt: HostRuntime) -> Result<(), Fail> {
    assert!(rt; fit(rt.alloc(), FIT, 2)?);
    assert!(rt; !fit(rt.alloc(), FIT, 1)? && !fit(rt.alloc(), FIT, 3)?);
    assert!(rt; none_fits(rt.alloc())?);
    Ok(())
}

#[test]
fn tells_which_momenta_there_are(rt: HostRuntime) -> Result<(), Fail> {
    assert!(rt; are_coefficients(&[1000, 0, -1000]) && are_coefficients(&[]));
    assert!(rt; !are_coefficients(&[0, 1001]) && !are_coefficients(&[-1001, 0]));
    let momenta = [
        momentum(rt.alloc(), &[1, 0])?,
        momentum(rt.alloc(), &[0, 1])?,
    ];
    assert!(rt; are_wide(&momenta, 2) && are_wide(&[], 7));
    assert!(rt; !are_wide(&momenta, 1) && !are_wide(&momenta, 3));
    Ok(())
}
