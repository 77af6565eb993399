use integral_index::{Integral, Order, Unit, ZeroSectors, dots, is_index_list, r, s, sector, t};
use std::test::Fail;

// The numbers of indices of the two-loop vacuum and of the double box, worked by hand.
#[test]
fn numbers_of_index_lists(rt: HostRuntime) -> Result<(), Fail> {
    let vacuum: [i8; 3] = [2, 1, -1];
    assert_eq!(rt; sector(&vacuum), 3);
    assert_eq!(rt; t(&vacuum), 2);
    assert_eq!(rt; r(&vacuum), 3);
    assert_eq!(rt; s(&vacuum), 1);
    assert_eq!(rt; dots(&vacuum), 1);
    let box_with_numerators: [i8; 9] = [1, 1, 0, 1, 3, 0, 1, -2, -1];
    assert_eq!(rt; sector(&box_with_numerators), 91);
    assert_eq!(rt; t(&box_with_numerators), 5);
    assert_eq!(rt; r(&box_with_numerators), 7);
    assert_eq!(rt; s(&box_with_numerators), 3);
    assert_eq!(rt; dots(&box_with_numerators), 2);
    Ok(())
}

// The values of an integral are those that it was made of.
#[test]
fn an_integral_keeps_its_indices(rt: HostRuntime) -> Result<(), Fail> {
    let x = Integral::new(rt.alloc(), 4, &[1, -2, 0, 101])?;
    let y = x.copy()?;
    assert_eq!(rt; y.family(), 4);
    assert_eq!(rt; y.indices(), [1, -2, 0, 101].as_slice());
    assert_eq!(rt;
        y.unit(),
        Unit {
            family: 4,
            sector: 9
        }
    );
    assert!(rt; Order::Standard.compare(&x, &y).is_eq());
    Ok(())
}

// Integrals of two copies of the two-loop vacuum, ascending. The order was worked by a script that
// sorts by the tuple of t, family, sector, r, s and indices.
#[test]
fn two_loop_vacuum_ascends(rt: HostRuntime) -> Result<(), Fail> {
    let ascending: [(u32, [i8; 3]); 21] = [
        (0, [0, 0, 0]),
        (0, [0, -1, 0]),
        (0, [1, 0, 0]),
        (0, [1, -1, 0]),
        (0, [1, 0, -1]),
        (0, [2, 0, 0]),
        (0, [3, 0, 0]),
        (0, [0, 1, 0]),
        (1, [1, 0, 0]),
        (0, [1, 1, 0]),
        (0, [1, 1, -1]),
        (0, [1, 1, -2]),
        (0, [1, 2, -1]),
        (0, [2, 1, -1]),
        (0, [1, 0, 1]),
        (1, [1, 1, 0]),
        (0, [1, 1, 1]),
        (0, [1, 1, 2]),
        (0, [1, 2, 1]),
        (0, [2, 1, 1]),
        (1, [1, 1, 1]),
    ];
    for (i, x) in ascending.iter().enumerate() {
        for (j, y) in ascending.iter().enumerate() {
            assert!(rt; is_index_list(&x.1) && is_index_list(&y.1));
            let x = Integral::new(rt.alloc(), x.0, &x.1)?;
            let y = Integral::new(rt.alloc(), y.0, &y.1)?;
            assert_eq!(rt; Order::Standard.compare(&x, &y), i.cmp(&j), "{i} and {j}");
        }
    }
    Ok(())
}

// Units of two families, ascending: by how many bits their sectors have, then by family.
#[test]
fn units_ascend(rt: HostRuntime) -> Result<(), Fail> {
    let ascending: [(u32, u32); 7] = [(0, 1), (0, 4), (1, 2), (0, 3), (1, 5), (1, 6), (0, 7)];
    for (i, x) in ascending.iter().enumerate() {
        for (j, y) in ascending.iter().enumerate() {
            let x = Unit {
                family: x.0,
                sector: x.1,
            };
            let y = Unit {
                family: y.0,
                sector: y.1,
            };
            assert_eq!(rt; x.compare(&y), i.cmp(&j), "{i} and {j}");
        }
    }
    Ok(())
}

// With sectors 6 and 9 listed, 0 and the subsectors of the two are zero.
#[test]
fn subsectors_of_listed_sectors_are_zero(rt: HostRuntime) -> Result<(), Fail> {
    let zeros = ZeroSectors::new(rt.alloc(), &[9, 6, 9])?;
    assert_eq!(rt; zeros.listed(), [6, 9].as_slice());
    for (sector, zero) in [
        (0, true),
        (1, true),
        (2, true),
        (3, false),
        (4, true),
        (5, false),
        (6, true),
        (7, false),
        (8, true),
        (9, true),
        (10, false),
    ] {
        assert_eq!(rt; zeros.is_zero(sector), zero, "sector {sector}");
    }
    Ok(())
}
