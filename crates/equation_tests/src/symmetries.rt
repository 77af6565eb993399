//! Maps of the one-loop bubble, the one-loop box, the two-loop sunrise and a two-loop vacuum diagram, and the
//! equations of the first and the last, worked by hand.

ghost use Rattle.std.specs.Prelude.{◌≡◌, ◌≤◌, IfOk};

use crate::shared::{Wrong, has_terms, integral, momentum, point_of, rule, symmetric};
use field_word::Modulus;
use integral_index::{Order, ZeroSectors};
use kinematics::{Momentum, Point, Rule};
use propagators::Denominator;
use sparse_row::Row;
use std::alloc::Global;
use std::test::Fail;
use symmetry_maps::{MapFault, Symmetry, equation};

// The squares of momenta, the first `width` coefficients each, minus one squared mass.
fn squares(
    alloc: Global,
    momenta: &[[i16; 4]],
    width: usize,
    mass: u64,
) -> Result<Vec<Denominator>, Wrong> {
    let mut denominators = Vec::new(alloc);
    for coefficients in momenta {
        if width > 4 {
            return Err(Wrong::Momentum);
        }
        let momentum = momentum(alloc, &coefficients[..width])?;
        denominators.push(Denominator::Square { momentum, mass })?;
    }
    Ok(denominators)
}

fn bilinear(alloc: Global, left: &[i16], right: &[i16]) -> Result<Denominator, Wrong> {
    Ok(Denominator::Bilinear {
        left: momentum(alloc, left)?,
        right: momentum(alloc, right)?,
        mass: 0,
    })
}

fn rules(alloc: Global, squares: &[([i16; 3], u64)], width: usize) -> Result<Vec<Rule>, Wrong> {
    let mut rules = Vec::new(alloc);
    for square in squares {
        if width > 3 {
            return Err(Wrong::Rules);
        }
        rules.push(rule(alloc, &square.0[..width], square.1)?)?;
    }
    Ok(rules)
}

fn symmetry_of(
    alloc: Global,
    images: &[Momentum],
    denominators: &[Denominator],
    point: &Point,
    modulus: &Modulus,
) -> Result<Symmetry, Wrong>
    requires { point.now.modulus ≡ modulus.now }
{
    let (_basis, symmetry) = symmetric(alloc, images, denominators, point, modulus)?;
    Ok(symmetry)
}

// The number of the denominator that an answer names as at fault, and 0 where it names none.
fn fault_of(answer: Result<Symmetry, Wrong>) -> u32 {
    match answer {
        Err(Wrong::Map(MapFault::NotAPermutation { denominator })) => denominator,
        _ => 0,
    }
}

fn equation_of(
    alloc: Global,
    symmetry: &Symmetry,
    seed: &[i8],
    zeros: &[u32],
    modulus: &Modulus,
) -> Result<Row, Wrong> {
    let zeros = ZeroSectors::new(alloc, zeros)?;
    let seed = integral(alloc, 4, seed)?;
    if seed.indices().len() != symmetry.places().len() {
        return Err(Wrong::Seed);
    }
    Ok(equation(alloc, symmetry, &seed, &zeros, Order::Standard, modulus)?)
}

// Whether the equation has just these terms, from the greatest integral to the least.
fn gives(
    alloc: Global,
    symmetry: &Symmetry,
    seed: &[i8],
    zeros: &[u32],
    modulus: &Modulus,
    terms: &[(&[i8], u64)],
) -> Result<bool, Wrong> {
    let row = equation_of(alloc, symmetry, seed, zeros, modulus)?;
    Ok(has_terms(&row, 4, terms))
}

// The map of the bubble by this image of k1: k1 and k1 + p1, massless, with p1 p1 = 5.
fn bubble(alloc: Global, image: &[i16], modulus: &Modulus) -> Result<Symmetry, Wrong> {
    let point = point_of(alloc, &rules(alloc, &[([1, 0, 0], 5)], 1)?, 1, modulus)?;
    let denominators = squares(alloc, &[[1, 0, 0, 0], [1, 1, 0, 0]], 2, 0)?;
    let images = [momentum(alloc, image)?];
    symmetry_of(alloc, &images, &denominators, &point, modulus)
}

// k1 -> -k1 - p1 makes (k1 + p1)² of k1², and k1² of (k1 + p1)².
#[test]
fn the_bubble_turns_round(rt: HostRuntime) -> Result<(), Fail> {
    let alloc = rt.alloc();
    let p = Modulus::new(101)?;
    let turn = bubble(alloc, &[-1, -1], &p)?;
    assert_eq!(rt; turn.places(), [2, 1].as_slice());
    assert!(rt;
        gives(
            alloc,
            &turn,
            &[1, 2],
            &[],
            &p,
            &[(&[2, 1], 100), (&[1, 2], 1)]
        )?
    );
    assert!(rt; gives(alloc, &turn, &[1, 1], &[], &p, &[])?);
    assert!(rt; gives(alloc, &turn, &[2, 0], &[1], &p, &[(&[0, 2], 100)])?);
    assert!(rt; gives(alloc, &turn, &[2, -1], &[2], &p, &[(&[2, -1], 1)])?);
    Ok(())
}

// 100 is -1 modulo 101, and isn't modulo 103.
#[test]
fn a_map_may_be_one_only_modulo_p(rt: HostRuntime) -> Result<(), Fail> {
    let alloc = rt.alloc();
    let turn = bubble(alloc, &[100, 100], &Modulus::new(101)?)?;
    assert_eq!(rt; turn.places(), [2, 1].as_slice());
    assert_eq!(rt;
        fault_of(bubble(alloc, &[100, 100], &Modulus::new(103)?)),
        1
    );
    Ok(())
}

// The map of a vacuum diagram by these images of k1 and k2: k1, k2 and k1 + k2, massless.
fn vacuum(
    alloc: Global,
    first: &[i16],
    second: &[i16],
    modulus: &Modulus,
) -> Result<Symmetry, Wrong> {
    let point = point_of(alloc, &[], 0, modulus)?;
    let denominators = squares(alloc, &[[1, 0, 0, 0], [0, 1, 0, 0], [1, 1, 0, 0]], 2, 0)?;
    let images = [momentum(alloc, first)?, momentum(alloc, second)?];
    symmetry_of(alloc, &images, &denominators, &point, modulus)
}

// k1 -> k2 and k2 -> -k1 - k2 makes k2² of k1², (k1 + k2)² of k2², and k1² of (k1 + k2)².
#[test]
fn a_vacuum_diagram_goes_round(rt: HostRuntime) -> Result<(), Fail> {
    let alloc = rt.alloc();
    let p = Modulus::new(101)?;
    let round = vacuum(alloc, &[0, 1], &[-1, -1], &p)?;
    assert_eq!(rt; round.places(), [2, 3, 1].as_slice());
    assert!(rt;
        gives(
            alloc,
            &round,
            &[1, 2, 3],
            &[],
            &p,
            &[(&[3, 1, 2], 100), (&[1, 2, 3], 1)]
        )?
    );
    Ok(())
}

// k1 -> k1 and k2 -> k1 makes k1² of k1² and of k2².
#[test]
fn two_denominators_may_go_to_one(rt: HostRuntime) -> Result<(), Fail> {
    let answer = vacuum(rt.alloc(), &[1, 0], &[1, 0], &Modulus::new(101)?);
    assert_eq!(rt; fault_of(answer), 2);
    Ok(())
}

// The map of the sunrise by these images of k1 and k2: k1, k2 and k1 + k2 - p1, of one mass, with k1 p1 and
// k2 p1, and p1 p1 = 5.
fn sunrise(
    alloc: Global,
    first: &[i16],
    second: &[i16],
    modulus: &Modulus,
) -> Result<Symmetry, Wrong> {
    let point = point_of(alloc, &rules(alloc, &[([1, 0, 0], 5)], 1)?, 1, modulus)?;
    let mut denominators = squares(alloc, &[[1, 0, 0, 0], [0, 1, 0, 0], [1, 1, -1, 0]], 3, 3)?;
    denominators.push(bilinear(alloc, &[1, 0, 0], &[0, 0, 1])?)?;
    denominators.push(bilinear(alloc, &[0, 1, 0], &[0, 0, 1])?)?;
    let images = [momentum(alloc, first)?, momentum(alloc, second)?];
    symmetry_of(alloc, &images, &denominators, &point, modulus)
}

// The loop momenta may be exchanged. k1 -> p1 - k1 - k2 exchanges the first propagator with the third, and
// makes 5 - k1 p1 - k2 p1 of k1 p1.
#[test]
fn the_sunrise_keeps_one_exchange(rt: HostRuntime) -> Result<(), Fail> {
    let alloc = rt.alloc();
    let p = Modulus::new(101)?;
    let exchange = sunrise(alloc, &[0, 1, 0], &[1, 0, 0], &p)?;
    assert_eq!(rt; exchange.places(), [2, 1, 3, 5, 4].as_slice());
    assert_eq!(rt; fault_of(sunrise(alloc, &[-1, -1, 1], &[0, 1, 0], &p)), 4);
    Ok(())
}

// The map of the massless box at s = 2 and t = 6 by this image of k1.
fn box_of(alloc: Global, image: &[i16], modulus: &Modulus) -> Result<Symmetry, Wrong> {
    let squares_of_sums = [
        ([1, 0, 0], 0),
        ([0, 1, 0], 0),
        ([0, 0, 1], 0),
        ([1, 1, 0], 2),
        ([0, 1, 1], 6),
        ([1, 1, 1], 0),
    ];
    let momenta = [[1, 0, 0, 0], [1, 1, 0, 0], [1, 1, 1, 0], [1, 1, 1, 1]];
    let point = point_of(alloc, &rules(alloc, &squares_of_sums, 3)?, 3, modulus)?;
    let denominators = squares(alloc, &momenta, 4, 0)?;
    let images = [momentum(alloc, image)?];
    symmetry_of(alloc, &images, &denominators, &point, modulus)
}

// k1 -> -k1 - p1 - p2 makes (k1 + p1 + p2)² of k1², and (k1 + p2)² of (k1 + p1)², which is no denominator.
#[test]
fn the_box_has_no_reflection(rt: HostRuntime) -> Result<(), Fail> {
    let answer = box_of(rt.alloc(), &[-1, -1, -1, 0], &Modulus::new(101)?);
    assert_eq!(rt; fault_of(answer), 2);
    Ok(())
}
