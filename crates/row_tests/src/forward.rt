//! Small units, eliminated by hand or, for the triangle, by a script apart from the program.

ghost use Rattle.std.specs.Prelude.{◌≡◌, ◌<◌, All, IfOk};
ghost use Rattle.integral_index.specs.declared.Order.TheVariants.{Standard};
ghost use Rattle.sparse_row.specs.Row.{IsRow};
ghost use Rattle.sector_forward.specs.Elimination.{IsTaken, order_of};

use crate::shared::{Terms, Wrong, are, row_of};
use field_word::Modulus;
use integral_index::{Order, Unit};
use sector_forward::{Eliminated, ForwardFault, eliminate};
use sparse_row::Row;
use std::alloc::Global;
use std::marker::Brand;
use std::sync::ledger::{Blank, Ledger};
use std::test::Fail;
use step_counter::Steps;

// A row of these terms whose greatest integral is of the unit.
fn taken_row(alloc: Global, terms: Terms, unit: Unit, modulus: &Modulus) -> Result<Row, Wrong>
    ensures { IfOk result (λ row. IsTaken modulus.now Standard unit row) }
{
    let row = row_of(alloc, terms, modulus)?;
    match row.greatest() {
        Some(x) if x.unit() == unit => {}
        _ => return Err(Wrong::Unit),
    }
    Ok(row)
}

fn taken_rows(
    alloc: Global,
    rows: &[Terms],
    unit: Unit,
    modulus: &Modulus,
) -> Result<Vec<Row>, Wrong>
    ensures { IfOk result (λ made. All (IsTaken modulus.now Standard unit) made.items) }
{
    let mut made = Vec::new(alloc);
    for terms in rows {
        let row = taken_row(alloc, terms, unit, modulus)?;
        made.push(row)?;
    }
    Ok(made)
}

fn counted<L: Ledger>(
    alloc: Global,
    blank: Blank,
    unit: Unit,
    rows: Vec<Row>,
    modulus: Modulus,
) -> Result<Eliminated, ForwardFault>
    requires name { blank.name ≡ L.name }
    requires parts { blank.parts ≡ L.parts }
    requires some { 0 < L.parts }
    requires rows { All (IsTaken modulus Standard unit) rows.items }
{
    let (book, share) = blank.open::<L>();
    let mut steps = Steps::new(book, share);
    eliminate(alloc, unit, rows, modulus, &mut steps)
}

fn eliminated(
    alloc: Global,
    rows: &[Terms],
    sector: u32,
    modulus: Modulus,
) -> Result<Eliminated, Wrong> {
    let unit = Unit { family: 0, sector };
    let rows = taken_rows(alloc, rows, unit, &modulus)?;
    match counted::<Brand>(alloc, Blank::new(1), unit, rows, modulus) {
        Ok(made) => Ok(made),
        Err(fault) => Err(Wrong::Refused(fault)),
    }
}

// Three equations of the massless triangle at d = 7, s = 5: no two of them share an integral of the
// sector, so each is divided by 3, 5 or 96, whose inverses are 34, 81 and 20.
#[test]
fn the_top_sector_of_the_triangle(rt: HostRuntime) -> Result<(), Fail> {
    let alloc = rt.alloc();
    let p = Modulus::new(101)?;
    let made = eliminated(
        alloc,
        &[
            &[(&[0, 1, 2], 100), (&[0, 2, 1], 100), (&[1, 2, 1], 96)],
            &[(&[0, 1, 2], 100), (&[0, 2, 1], 100), (&[1, 1, 1], 3)],
            &[(&[0, 1, 2], 1), (&[0, 2, 1], 1), (&[1, 1, 2], 5)],
        ],
        7,
        p,
    )?;
    assert_eq!(rt; made.input().len(), 3);
    assert_eq!(rt; made.rest().len(), 0);
    let wanted: [Terms; 3] = [
        &[(&[1, 1, 1], 1), (&[0, 1, 2], 67), (&[0, 2, 1], 67)],
        &[(&[1, 1, 2], 1), (&[0, 1, 2], 81), (&[0, 2, 1], 81)],
        &[(&[1, 2, 1], 1), (&[0, 1, 2], 81), (&[0, 2, 1], 81)],
    ];
    assert!(rt; are(alloc, made.rows(), &wanted, &p)?);
    Ok(())
}

// The equations of seeds of the triangle in which the first index is 0 or less.
const EQUATIONS: [Terms; 9] = [
    &[(&[0, 1, 1], 5), (&[-1, 1, 2], 100), (&[-1, 2, 1], 100)],
    &[
        (&[0, 1, 1], 100),
        (&[0, 1, 2], 5),
        (&[-1, 1, 2], 1),
        (&[-1, 2, 1], 1),
    ],
    &[
        (&[0, 1, 1], 1),
        (&[0, 2, 1], 96),
        (&[-1, 1, 2], 100),
        (&[-1, 2, 1], 100),
    ],
    &[(&[0, 1, 2], 4), (&[-1, 1, 3], 99), (&[-1, 2, 2], 100)],
    &[
        (&[0, 1, 2], 100),
        (&[0, 1, 3], 10),
        (&[-1, 1, 3], 2),
        (&[-1, 2, 2], 1),
    ],
    &[
        (&[0, 1, 2], 2),
        (&[0, 2, 1], 1),
        (&[0, 2, 2], 96),
        (&[-1, 1, 3], 99),
        (&[-1, 2, 2], 100),
    ],
    &[(&[0, 2, 1], 4), (&[-1, 2, 2], 100), (&[-1, 3, 1], 99)],
    &[
        (&[0, 1, 2], 100),
        (&[0, 2, 1], 99),
        (&[0, 2, 2], 5),
        (&[-1, 2, 2], 1),
        (&[-1, 3, 1], 2),
    ],
    &[
        (&[0, 2, 1], 1),
        (&[0, 3, 1], 91),
        (&[-1, 2, 2], 100),
        (&[-1, 3, 1], 99),
    ],
];

const ELIMINATED: [Terms; 8] = [
    &[(&[0, 1, 2], 1), (&[0, 1, 1], 21)],
    &[(&[0, 2, 1], 1), (&[0, 1, 1], 21)],
    &[(&[-1, 2, 1], 1), (&[-1, 1, 2], 1), (&[0, 1, 1], 96)],
    &[(&[0, 1, 3], 1), (&[0, 1, 1], 24)],
    &[(&[0, 2, 2], 1), (&[0, 1, 1], 16)],
    &[(&[0, 3, 1], 1), (&[0, 1, 1], 24)],
    &[(&[-1, 2, 2], 1), (&[-1, 1, 3], 2), (&[0, 1, 1], 84)],
    &[(&[-1, 3, 1], 1), (&[-1, 1, 3], 100)],
];

// The nine equations of the bubble in the triangle leave one master and a numerator.
#[test]
fn the_bubble_in_the_triangle(rt: HostRuntime) -> Result<(), Fail> {
    let alloc = rt.alloc();
    let p = Modulus::new(101)?;
    let made = eliminated(alloc, &EQUATIONS, 6, p)?;
    assert!(rt; are(alloc, made.rows(), &ELIMINATED, &p)?);
    assert_eq!(rt; made.rest().len(), 0);
    Ok(())
}

// I(1,1) + 2 I(1,0) and I(1,1) + 3 I(0,1) differ by 3 I(0,1) - 2 I(1,0), and 34 is the inverse of 3. The
// rest is cleared out of the rule of I(1,1) too: 3 * 33 is -2 modulo 101.
#[test]
fn a_rest_is_left_to_lesser_units(rt: HostRuntime) -> Result<(), Fail> {
    let alloc = rt.alloc();
    let p = Modulus::new(101)?;
    let made = eliminated(
        alloc,
        &[
            &[(&[1, 1, 0], 1), (&[0, 1, 0], 3)],
            &[(&[1, 1, 0], 1), (&[1, 0, 0], 2)],
        ],
        3,
        p,
    )?;
    let rule: [Terms; 1] = [&[(&[1, 1, 0], 1), (&[1, 0, 0], 2)]];
    let rest: [Terms; 1] = [&[(&[0, 1, 0], 1), (&[1, 0, 0], 33)]];
    assert!(rt; are(alloc, made.rows(), &rule, &p)?);
    assert!(rt; are(alloc, made.rest(), &rest, &p)?);
    let (input, rows, rest) = made.into_parts();
    assert_eq!(rt; (input.len(), rows.len(), rest.len()), (2, 1, 1));
    Ok(())
}

#[test]
fn dependent_rows_vanish(rt: HostRuntime) -> Result<(), Fail> {
    let alloc = rt.alloc();
    let p = Modulus::new(101)?;
    let made = eliminated(
        alloc,
        &[
            &[(&[2, 0, 0], 2), (&[1, 0, 0], 4)],
            &[(&[2, 0, 0], 3), (&[1, 0, 0], 6)],
            &[(&[2, 0, 0], 100), (&[1, 0, 0], 99)],
        ],
        1,
        p,
    )?;
    let wanted: [Terms; 1] = [&[(&[2, 0, 0], 1), (&[1, 0, 0], 2)]];
    assert!(rt; are(alloc, made.rows(), &wanted, &p)?);
    assert_eq!(rt; made.rest().len(), 0);
    assert_eq!(rt; made.unit().sector, 1);
    assert_eq!(rt; made.modulus().value(), 101);
    assert_eq!(rt; made.order(), Order::Standard);
    Ok(())
}

// Modulo 15 the coefficient 9 has no inverse; its greatest common divisor with 15 is 3.
#[test]
fn a_composite_modulus_is_named_by_a_divisor(rt: HostRuntime) -> Result<(), Fail> {
    let alloc = rt.alloc();
    let p = Modulus::new(15)?;
    match eliminated(alloc, &[&[(&[2, 0, 0], 9), (&[1, 0, 0], 5)]], 1, p) {
        Err(Wrong::Refused(ForwardFault::Composite(fault))) => assert_eq!(rt; fault.divisor, 3),
        _ => assert!(rt; false, "no divisor"),
    }
    Ok(())
}

// Modulo 15, where 3, 5 and 10 have no inverse but 2, 8 and 7 have: 8, 2 and 13. Half of 2 u + 5 e is
// u + 10 e. Four of it from 4 u + 3 e + 2 f leave 8 e + 2 f, twice which is e + 4 f, the rest. Three of it
// from 7 v + 3 u + 10 f leave 7 v + 10 f, since 30 e vanishes, and 13 times that is v + 10 f. Ten of the
// rest from u + 10 e leave u + 5 f. Here u, v, e and f are I(1,1), I(2,1), I(0,1) and I(1,0).
#[test]
fn a_unit_is_eliminated_modulo_15(rt: HostRuntime) -> Result<(), Fail> {
    let alloc = rt.alloc();
    let p = Modulus::new(15)?;
    let made = eliminated(
        alloc,
        &[
            &[(&[2, 1, 0], 7), (&[1, 1, 0], 3), (&[1, 0, 0], 10)],
            &[(&[1, 1, 0], 4), (&[0, 1, 0], 3), (&[1, 0, 0], 2)],
            &[(&[1, 1, 0], 2), (&[0, 1, 0], 5)],
        ],
        3,
        p,
    )?;
    let rules: [Terms; 2] = [
        &[(&[1, 1, 0], 1), (&[1, 0, 0], 5)],
        &[(&[2, 1, 0], 1), (&[1, 0, 0], 10)],
    ];
    let rest: [Terms; 1] = [&[(&[0, 1, 0], 1), (&[1, 0, 0], 4)]];
    assert!(rt; are(alloc, made.rows(), &rules, &p)?);
    assert!(rt; are(alloc, made.rest(), &rest, &p)?);
    assert_eq!(rt; made.modulus().value(), 15);
    Ok(())
}

// The tadpole at d = 7 and m2 = 3, 5 I(1) = 6 I(2) and 3 I(2) = 12 I(3). Modulo 25 the inverses of 6 and 12
// are 21 and 23, so I(2) = 105 I(1) = 5 I(1), and I(3) = 69 I(2) = 19 I(2) = 95 I(1) = 20 I(1).
#[test]
fn a_unit_is_eliminated_modulo_25(rt: HostRuntime) -> Result<(), Fail> {
    let alloc = rt.alloc();
    let p = Modulus::new(25)?;
    let made = eliminated(
        alloc,
        &[
            &[(&[1, 0, 0], 5), (&[2, 0, 0], 19)],
            &[(&[2, 0, 0], 3), (&[3, 0, 0], 13)],
        ],
        1,
        p,
    )?;
    let wanted: [Terms; 2] = [
        &[(&[2, 0, 0], 1), (&[1, 0, 0], 20)],
        &[(&[3, 0, 0], 1), (&[1, 0, 0], 5)],
    ];
    assert!(rt; are(alloc, made.rows(), &wanted, &p)?);
    assert_eq!(rt; made.rest().len(), 0);
    Ok(())
}
