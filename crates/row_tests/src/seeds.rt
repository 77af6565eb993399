//! Seeds that a script enumerated apart from the program, over all index lists within the bounds.

ghost use Rattle.std.specs.Prelude.{◌≡◌, ◌<◌, ◌≤◌, ◌^◌, IfSome};

use integral_index::{Integral, Order, ZeroSectors};
use seed_sets::{SeedFault, Shape, Spec, list};
use std::alloc::Global;
use std::test::Fail;

// The seeds of one spec of the first family, which has these zero sectors.
fn seeds_of(
    alloc: Global,
    spec: Spec,
    width: u32,
    zeros: &[u32],
    most: u64,
) -> Result<Vec<Integral>, SeedFault>
    requires family { spec.family ≡ 0 }
    requires some { 1 ≤ width }
    requires wide { width ≤ 20 }
    requires sector { spec.sector < 2 ^ width }
    requires r { spec.r ≤ 100 }
    requires s { spec.s ≤ 100 }
    requires d { IfSome spec.d (λ d. d ≤ 100) }
    requires most { most ≤ 2 ^ 17 }
{
    let shapes = [Shape {
        width,
        zeros: ZeroSectors::new(alloc, zeros)?,
    }];
    list(alloc, &[spec], &shapes, Order::Standard, most)
}

// The spec of the first family with these bounds.
fn spec(sector: u32, r: u32, s: u32, d: Option<u32>) -> Spec
    ensures { result ≡ record { family = 0; sector = sector; r = r; s = s; d = d } }
{
    Spec {
        family: 0,
        sector,
        r,
        s,
        d,
    }
}

// The bubble with r up to 2 and no numerator.
#[test]
fn seeds_of_the_bubble(rt: HostRuntime) -> Result<(), Fail> {
    let seeds = seeds_of(rt.alloc(), spec(3, 2, 0, None), 2, &[], 100)?;
    let expected: [[i8; 2]; 5] = [[1, 0], [2, 0], [0, 1], [0, 2], [1, 1]];
    assert_eq!(rt; seeds.len(), expected.len());
    for (seed, indices) in seeds.iter().zip(expected.iter()) {
        assert_eq!(rt; seed.indices(), indices.as_slice());
    }
    Ok(())
}

// The two-loop vacuum with one numerator. A sector with one propagator is zero.
#[test]
fn seeds_of_the_vacuum(rt: HostRuntime) -> Result<(), Fail> {
    let seeds = seeds_of(rt.alloc(), spec(7, 3, 1, None), 3, &[1, 2, 4], 19)?;
    assert_eq!(rt; seeds.len(), 19);
    assert_eq!(rt; seeds[0].indices(), [1, 1, 0].as_slice());
    assert_eq!(rt; seeds[1].indices(), [1, 1, -1].as_slice());
    assert_eq!(rt; seeds[18].indices(), [1, 1, 1].as_slice());
    Ok(())
}

// How many seeds the one-loop box has, with and without a bound of the dots.
#[test]
fn numbers_of_seeds_of_the_box(rt: HostRuntime) -> Result<(), Fail> {
    let zeros = [3, 6, 12, 9];
    let seeds = seeds_of(rt.alloc(), spec(15, 4, 1, None), 4, &zeros, 1000)?;
    assert_eq!(rt; seeds.len(), 69);
    let seeds = seeds_of(rt.alloc(), spec(15, 5, 2, None), 4, &zeros, 1000)?;
    assert_eq!(rt; seeds.len(), 245);
    let seeds = seeds_of(rt.alloc(), spec(15, 5, 1, Some(0)), 4, &zeros, 1000)?;
    assert_eq!(rt; seeds.len(), 15);
    let seeds = seeds_of(rt.alloc(), spec(15, 6, 1, Some(1)), 4, &zeros, 1000)?;
    assert_eq!(rt; seeds.len(), 55);
    Ok(())
}

// One seed fewer than the 19 of the vacuum is allowed.
#[test]
fn too_many_seeds(rt: HostRuntime) -> Result<(), Fail> {
    match seeds_of(rt.alloc(), spec(7, 3, 1, None), 3, &[1, 2, 4], 18) {
        Err(fault) => assert_eq!(rt; fault, SeedFault::TooMany { count: 19 }),
        Ok(_) => assert!(rt; false, "more than 18 seeds are no fault"),
    }
    Ok(())
}

// The seeds of four specs of a family with three indices and no zero sector.
//
// A sector with t indices has C(r,t) * C(3 - t + s,s) seeds up to r and s. So the first spec has
// 3 * 12 + 3 * 12 + 4 = 76. The second names the subsector 3 with the same r and s: its 36 are among them.
// The third has 18 + 18 + 30 = 66 with larger r, and shares these 36. The fourth has one dot at most, so r is
// t + 1 at most, and 3 * 12 + 3 * 9 + 4 = 67: those without a second numerator, 3 * 6 + 3 * 6 + 4 = 40, are
// among the first 76. Together they are 76 + (66 - 36) + (67 - 40) = 133.
fn overlapping(alloc: Global, most: u64) -> Result<Vec<Integral>, SeedFault>
    requires { most ≤ 2 ^ 17 }
{
    let specs = [
        spec(7, 4, 1, None),
        spec(3, 4, 1, None),
        spec(3, 6, 1, None),
        spec(7, 6, 2, Some(1)),
    ];
    let shapes = [Shape {
        width: 3,
        zeros: ZeroSectors::new(alloc, &[])?,
    }];
    list(alloc, &specs, &shapes, Order::Standard, most)
}

#[test]
fn specs_that_overlap_count_each_seed_once(rt: HostRuntime) -> Result<(), Fail> {
    let seeds = overlapping(rt.alloc(), 133)?;
    assert_eq!(rt; seeds.len(), 133);
    Ok(())
}

#[test]
fn too_many_seeds_of_specs_that_overlap(rt: HostRuntime) -> Result<(), Fail> {
    match overlapping(rt.alloc(), 132) {
        Err(fault) => assert_eq!(rt; fault, SeedFault::TooMany { count: 133 }),
        Ok(_) => assert!(rt; false, "more than 132 seeds are no fault"),
    }
    Ok(())
}
