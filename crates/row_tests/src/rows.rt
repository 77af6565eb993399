//! Rows of the massless triangle, reduced step by step as by hand.

use crate::shared::{Terms, integral, row_of};
use field_word::Modulus;
use integral_index::{Integral, Order};
use sparse_row::{Row, copies, is_term_list, push_copies};
use std::test::Fail;

// Whether the row has just these terms, from the greatest integral to the least.
fn has_terms(row: &Row, wanted: Terms) -> bool {
    let terms = row.terms();
    if terms.len() != wanted.len() {
        return false;
    }
    for (term, want) in terms.iter().zip(wanted) {
        if term.integral.indices() != want.0 || term.coefficient != want.1 {
            return false;
        }
    }
    true
}

const FIRST: Terms = &[(&[0, 1, 1], 5), (&[-1, 2, 1], 100), (&[-1, 1, 2], 100)];

const SECOND: Terms = &[
    (&[0, 1, 1], 100),
    (&[-1, 2, 1], 1),
    (&[0, 1, 2], 5),
    (&[-1, 1, 2], 1),
];

const THIRD: Terms = &[
    (&[0, 1, 1], 1),
    (&[0, 2, 1], 96),
    (&[-1, 2, 1], 100),
    (&[-1, 1, 2], 100),
];

const TOP: Terms = &[(&[1, 1, 1], 3), (&[0, 2, 1], 100), (&[0, 1, 2], 100)];

const SECOND_DESCENDING: Terms = &[
    (&[-1, 2, 1], 1),
    (&[-1, 1, 2], 1),
    (&[0, 1, 2], 5),
    (&[0, 1, 1], 100),
];

// The rows of the massless triangle at d = 7, s = 5 modulo 101, worked by a script from the derivative
// rule, and reduced to tri[0,1,2] = 80*tri[0,1,1], tri[0,2,1] = 80*tri[0,1,1] and
// tri[1,1,1] = 87*tri[0,1,1] by hand.
#[test]
fn the_massless_triangle_is_reduced(rt: HostRuntime) -> Result<(), Fail> {
    let alloc = rt.alloc();
    let p = Modulus::new(101)?;
    let first = row_of(alloc, FIRST, &p)?;
    let mut second = row_of(alloc, SECOND, &p)?;
    let mut third = row_of(alloc, THIRD, &p)?;
    let mut top = row_of(alloc, TOP, &p)?;
    assert!(rt; has_terms(&second, SECOND_DESCENDING));

    second.add_multiple(&first, 1, &p)?;
    assert!(rt; has_terms(&second, &[(&[0, 1, 2], 5), (&[0, 1, 1], 4)]));
    assert!(rt; !second.is_empty());
    second.normalise(&p)?;
    assert!(rt; has_terms(&second, &[(&[0, 1, 2], 1), (&[0, 1, 1], 21)]));

    third.add_multiple(&first, 100, &p)?;
    assert!(rt; has_terms(&third, &[(&[0, 2, 1], 96), (&[0, 1, 1], 97)]));
    assert!(rt; !third.is_empty());
    third.normalise(&p)?;

    top.add_multiple(&second, 1, &p)?;
    top.add_multiple(&third, 1, &p)?;
    assert!(rt; !top.is_empty());
    top.normalise(&p)?;
    assert!(rt; has_terms(&top, &[(&[1, 1, 1], 1), (&[0, 1, 1], 14)]));
    Ok(())
}

// What a row answers of single integrals.
#[test]
fn a_row_is_looked_up(rt: HostRuntime) -> Result<(), Fail> {
    let alloc = rt.alloc();
    let p = Modulus::new(101)?;
    let row = row_of(
        alloc,
        &[(&[0, 1, 1], 14), (&[1, 1, 1], 1), (&[0, 2, 1], 3)],
        &p,
    )?;
    let greatest = integral(alloc, &[1, 1, 1])?;
    assert!(rt; matches!(row.greatest(), Some(x) if Order::Standard.compare(x, &greatest).is_eq()));
    for (indices, coefficient) in [
        (&[1, 1, 1], 1),
        (&[0, 2, 1], 3),
        (&[0, 1, 2], 0),
        (&[0, 1, 1], 14),
        (&[2, 1, 1], 0),
        (&[0, 0, 0], 0),
    ] {
        assert_eq!(rt; row.coefficient(&integral(alloc, indices)?), coefficient);
    }
    assert!(rt; Row::new(alloc, Order::Standard).greatest().is_none());
    Ok(())
}

// 5 has no inverse modulo 15, and 5 times 3 vanishes.
#[test]
fn a_composite_modulus(rt: HostRuntime) -> Result<(), Fail> {
    let alloc = rt.alloc();
    let p = Modulus::new(15)?;
    let mut row = row_of(
        alloc,
        &[(&[0, 0, 1], 3), (&[0, 1, 1], 5), (&[1, 1, 1], 10)],
        &p,
    )?;
    assert!(rt; !row.is_empty());
    match row.normalise(&p) {
        Ok(()) => assert!(rt; false, "10 has no inverse"),
        Err(fault) => assert_eq!(rt; fault.divisor, 5),
    }
    assert!(rt; has_terms(&row, &[(&[1, 1, 1], 10), (&[0, 1, 1], 5), (&[0, 0, 1], 3)]));
    let before = row.copy()?;
    let other = row_of(alloc, &[(&[0, 1, 1], 3), (&[0, 0, 1], 2)], &p)?;
    row.add_multiple(&other, 5, &p)?;
    assert!(rt; has_terms(&row, &[(&[1, 1, 1], 10), (&[0, 1, 1], 5), (&[0, 0, 1], 13)]));
    assert!(rt; !row.equals(&before));
    Ok(())
}

// A row is taken apart and made again, and a term whose coefficient becomes 0 is shown no more.
#[test]
fn terms_give_the_row(rt: HostRuntime) -> Result<(), Fail> {
    let alloc = rt.alloc();
    let p = Modulus::new(101)?;
    let mut row = row_of(
        alloc,
        &[(&[0, 1, 1], 5), (&[0, 1, 2], 7), (&[0, 1, 1], 96)],
        &p,
    )?;
    assert!(rt; has_terms(&row, &[(&[0, 1, 2], 7)]));
    row.add_term(&integral(alloc, &[0, 1, 1])?, 1, &p)?;
    let copy = row.copy()?;
    let order = row.order();
    let mut terms = row.into_terms();
    terms.reverse();
    assert!(rt; !is_term_list(order, &terms));
    terms.reverse();
    assert!(rt; is_term_list(order, &terms));
    let again = Row::from_terms(order, terms);
    assert!(rt; again.equals(&copy));
    assert!(rt; has_terms(&again, &[(&[0, 1, 2], 7), (&[0, 1, 1], 1)]));
    Ok(())
}

// Whether these are the integrals, one by one.
fn are(integrals: &[Integral], wanted: &[[i8; 3]]) -> bool {
    if integrals.len() != wanted.len() {
        return false;
    }
    for (integral, indices) in integrals.iter().zip(wanted) {
        if integral.indices() != indices.as_slice() {
            return false;
        }
    }
    true
}

// The integrals of a row stand behind those that were there, from the greatest to the least.
#[test]
fn rows_are_copied_and_their_integrals_appended(rt: HostRuntime) -> Result<(), Fail> {
    let alloc = rt.alloc();
    let p = Modulus::new(101)?;
    let rows = [row_of(alloc, TOP, &p)?, row_of(alloc, SECOND, &p)?];
    let mut integrals = Vec::new(alloc);
    for row in &copies(alloc, &rows)? {
        row.push_integrals(&mut integrals)?;
    }
    let wanted = [
        [1, 1, 1],
        [0, 2, 1],
        [0, 1, 2],
        [-1, 2, 1],
        [-1, 1, 2],
        [0, 1, 2],
        [0, 1, 1],
    ];
    assert!(rt; are(&integrals, &wanted));
    let mut made = copies(alloc, &rows[..1])?;
    push_copies(&mut made, &rows)?;
    assert_eq!(rt; made.len(), 3);
    for place in 0..2 {
        assert!(rt; made[place + 1].equals(&rows[place]), "{place}");
    }
    Ok(())
}
