//! Equations of the one-loop bubble, the one-loop triangle and a two-loop vacuum diagram modulo 101. The
//! bubble's were worked by hand, the others by a script that solves for the denominators on its own.

ghost use Rattle.std.specs.Prelude.{◌≡◌, ◌≤◌, IfOk, length};
ghost use Rattle.propagators.specs.Forms.{product_total};

use crate::shared::{Terms, Wrong, basis_of, has_terms, momentum, point_of, rule, square};
use field_word::Modulus;
use ibp_generator::{are_seed_indices, equation};
use integral_index::{Integral, Order, ZeroSectors, is_index_list};
use propagators::{Basis, Denominator};
use sparse_row::Row;
use std::alloc::Global;
use std::test::Fail;

// The equation of a seed of family 4 for dimension 7: its integrals, with one loop momentum and one momentum.
#[derive(Clone, Copy)]
struct Asked<'a> {
    seed: &'a [i8],
    loop_number: u32,
    momentum_number: u32,
    zeros: &'a [u32],
}

fn equation_of(alloc: Global, basis: &Basis, asked: &Asked, modulus: &Modulus) -> Result<Row, Wrong>
    requires { basis.now.point.modulus ≡ modulus.now }
{
    let zeros = ZeroSectors::new(alloc, asked.zeros)?;
    if !is_index_list(asked.seed)
        || !are_seed_indices(asked.seed)
        || asked.seed.len() != basis.width() as usize
        || asked.loop_number < 1
        || basis.loops() < asked.loop_number
        || asked.momentum_number < 1
        || basis.loops() as usize + (basis.externals() as usize) < asked.momentum_number as usize
    {
        return Err(Wrong::Seed);
    }
    Ok(equation(
        alloc,
        basis,
        modulus.reduce(7),
        &Integral::new(alloc, 4, asked.seed)?,
        asked.loop_number,
        asked.momentum_number,
        &zeros,
        Order::Standard,
        modulus,
    )?)
}

type Wanted = (&'static [i8], u32, &'static [u32], Terms);

fn gives(
    alloc: Global,
    basis: &Basis,
    asked: Asked,
    modulus: &Modulus,
    terms: &[(&[i8], u64)],
) -> Result<bool, Wrong>
    requires { basis.now.point.modulus ≡ modulus.now }
{
    Ok(has_terms(&equation_of(alloc, basis, &asked, modulus)?, 4, terms))
}

fn ask<'a>(seed: &'a [i8], loop_number: u32, momentum_number: u32, zeros: &'a [u32]) -> Asked<'a> {
    Asked {
        seed,
        loop_number,
        momentum_number,
        zeros,
    }
}

// Seeds of the bubble, each with the momentum, the zero sectors, and the terms of its equation.
const BUBBLE: [Wanted; 7] = [
    (
        &[1, 1],
        1,
        &[],
        &[(&[1, 2], 5), (&[1, 1], 4), (&[0, 2], 100)],
    ),
    (&[1, 1], 1, &[1, 2], &[(&[1, 2], 5), (&[1, 1], 4)]),
    // the two terms of I(1,1) cancel
    (
        &[1, 1],
        2,
        &[],
        &[(&[2, 1], 5), (&[1, 2], 96), (&[0, 2], 1), (&[2, 0], 100)],
    ),
    (&[1, 1], 2, &[1, 2], &[(&[2, 1], 5), (&[1, 2], 96)]),
    (
        &[2, -1],
        1,
        &[],
        &[(&[2, -1], 4), (&[2, 0], 96), (&[1, 0], 1)],
    ),
    (
        &[100, -100],
        2,
        &[],
        &[
            (&[101, -101], 1),
            (&[101, -100], 96),
            (&[100, -100], 99),
            (&[100, -99], 96),
            (&[99, -99], 1),
        ],
    ),
    (&[1, 1], 2, &[3], &[]),
];

// k1 and k1 + p1, massless, with p1 p1 = 5: the derivative times k1 is 2 D1 and D1 + D2 - 5, that times p1
// is D2 - D1 - 5 and D2 - D1 + 5.
#[test]
fn equations_of_the_bubble(rt: HostRuntime) -> Result<(), Fail> {
    let alloc = rt.alloc();
    let modulus = Modulus::new(101)?;
    let point = point_of(alloc, &[rule(alloc, &[1], 5)?], 1, &modulus)?;
    let denominators = [square(alloc, &[1, 0], 0)?, square(alloc, &[1, 1], 0)?];
    let basis = basis_of(alloc, 1, &denominators, &point, &modulus)?;
    for (seed, momentum, zeros, terms) in BUBBLE {
        assert!(rt;
            gives(
                alloc,
                &basis,
                ask(seed, 1, momentum, zeros),
                &modulus,
                terms
            )?
        );
    }
    Ok(())
}

// Seeds of the triangle, as those of the bubble.
const TRIANGLE: [Wanted; 4] = [
    (
        &[1, 1, 1],
        1,
        &[],
        &[
            (&[1, 1, 2], 5),
            (&[1, 1, 1], 3),
            (&[0, 2, 1], 100),
            (&[0, 1, 2], 100),
        ],
    ),
    (
        &[1, 1, 1],
        2,
        &[],
        &[
            (&[1, 1, 2], 96),
            (&[0, 2, 1], 1),
            (&[0, 1, 2], 1),
            (&[2, 0, 1], 100),
            (&[1, 0, 2], 100),
        ],
    ),
    // sector 4 is zero as a subsector of 5, and so is 1
    (
        &[1, 1, 1],
        3,
        &[5],
        &[(&[2, 1, 1], 5), (&[2, 1, 0], 100), (&[1, 2, 0], 100)],
    ),
    (
        &[2, 0, -1],
        3,
        &[],
        &[
            (&[3, 0, -2], 99),
            (&[3, -1, -1], 2),
            (&[3, 0, -1], 10),
            (&[2, 0, -1], 1),
            (&[2, -1, 0], 100),
        ],
    ),
];

// k1, k1 + p1 and k1 + p1 + p2, massless, with massless p1 and p2, and (p1 + p2)² = 5.
#[test]
fn equations_of_the_triangle(rt: HostRuntime) -> Result<(), Fail> {
    let alloc = rt.alloc();
    let modulus = Modulus::new(101)?;
    let rules = [
        rule(alloc, &[1, 0], 0)?,
        rule(alloc, &[0, 1], 0)?,
        rule(alloc, &[1, 1], 5)?,
    ];
    let point = point_of(alloc, &rules, 2, &modulus)?;
    let denominators = [
        square(alloc, &[1, 0, 0], 0)?,
        square(alloc, &[1, 1, 0], 0)?,
        square(alloc, &[1, 1, 1], 0)?,
    ];
    let basis = basis_of(alloc, 1, &denominators, &point, &modulus)?;
    for (seed, momentum, zeros, terms) in TRIANGLE {
        assert!(rt;
            gives(
                alloc,
                &basis,
                ask(seed, 1, momentum, zeros),
                &modulus,
                terms
            )?
        );
    }
    Ok(())
}

// Seeds of the vacuum diagram, each with the loop momentum, the momentum and the terms of its equation.
const VACUUM: [(&[i8], u32, u32, Terms); 3] = [
    (
        &[1, 1, 1],
        1,
        1,
        &[
            (&[2, 1, 1], 95),
            (&[1, 1, 2], 98),
            (&[1, 1, 1], 4),
            (&[0, 1, 2], 100),
        ],
    ),
    (
        &[1, 1, 1],
        1,
        2,
        &[
            (&[2, 1, 1], 6),
            (&[1, 1, 2], 6),
            (&[0, 1, 2], 2),
            (&[1, 0, 2], 100),
            (&[2, 1, 0], 99),
        ],
    ),
    (
        &[1, 2, -1],
        2,
        1,
        &[
            (&[1, 3, -2], 97),
            (&[1, 3, -1], 12),
            (&[1, 2, 0], 3),
            (&[0, 3, -1], 4),
            (&[0, 2, 0], 1),
        ],
    ),
];

// k1 with the squared mass 3, k2, and the bilinear k1 (k1 + k2), without external momenta.
#[test]
fn equations_of_a_vacuum_diagram(rt: HostRuntime) -> Result<(), Fail> {
    let alloc = rt.alloc();
    let modulus = Modulus::new(101)?;
    let point = point_of(alloc, &[], 0, &modulus)?;
    let denominators = [
        square(alloc, &[1, 0], 3)?,
        square(alloc, &[0, 1], 0)?,
        Denominator::Bilinear {
            left: momentum(alloc, &[1, 0])?,
            right: momentum(alloc, &[1, 1])?,
            mass: 0,
        },
    ];
    let basis = basis_of(alloc, 2, &denominators, &point, &modulus)?;
    for (seed, loop_number, momentum, terms) in VACUUM {
        assert!(rt;
            gives(
                alloc,
                &basis,
                ask(seed, loop_number, momentum, &[]),
                &modulus,
                terms
            )?
        );
    }
    Ok(())
}

#[test]
fn seeds_are_one_off_the_greatest_index(rt: HostRuntime) -> Result<(), Fail> {
    assert!(rt; are_seed_indices(&[100, 0, -100]) && are_seed_indices(&[]));
    assert!(rt; !are_seed_indices(&[0, 101]) && !are_seed_indices(&[-101, 0]));
    Ok(())
}
