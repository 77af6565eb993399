//! Small units: the massless triangle and vectors of a few integrals by hand, the massless box by a
//! script apart from the program.

ghost use Rattle.std.specs.Prelude.{◌≡◌, ◌≢◌, ℕ, ◌<◌, length, slice_index_or, All, IsTrue, IfOk};
ghost use Rattle.integral_index.specs.declared.Order.TheVariants.{Standard};
ghost use Rattle.integral_index.specs.Integral.{Integral as IntegralValue};
ghost use Rattle.integral_index.specs.Order.{unit_of};
ghost use Rattle.sparse_row.specs.Row.{Row as RowValue, coefficient, Shows, IsRow};
ghost use Rattle.sector_forward.specs.Elimination.{IsRuleOf, AreApart};
ghost use Rattle.back_substitute.specs.Substitution.{AreRules, IsRuleOutside, AreBelow};

use crate::shared::{Terms, Wrong, are, rows_of};
use back_substitute::{Substituted, substitute};
use field_word::Modulus;
use integral_index::{Integral, Order, Unit};
use sparse_row::Row;
use std::alloc::Global;
use std::test::Fail;

// Whether no row shows the integral but the one at this place.
fn is_shown_at_most_at(rows: &[Row], place: usize, x: &Integral) -> bool
    ensures { IsTrue result → (j : ℕ) (d : RowValue) → j < length rows.now → place ≢ j
        → coefficient (slice_index_or rows.now j d) x.now ≡ 0 }
{
    for j in 0..rows.len() {
        if j != place && rows[j].coefficient(x) != 0 {
            return false;
        }
    }
    true
}

// Whether no greatest integral of a row is shown by another.
fn are_apart(rows: &[Row], modulus: &Modulus) -> bool
    requires { All (IsRow modulus.now Standard) rows.now }
    ensures { IsTrue result → AreApart Standard rows.now }
{
    for i in 0..rows.len() {
        if let Some(x) = rows[i].greatest() {
            if !is_shown_at_most_at(rows, i, x) {
                return false;
            }
        }
    }
    true
}

// Whether the row has a pivot of the unit.
fn has_pivot_in(row: &Row, unit: Unit, modulus: &Modulus) -> bool
    requires { IsRow modulus.now Standard row.now }
    ensures { IsTrue result → IsRuleOf modulus.now Standard unit row.now }
{
    match row.greatest() {
        Some(x) => row.coefficient(x) == 1 && x.unit() == unit,
        None => false,
    }
}

fn have_pivots_in(rows: &[Row], unit: Unit, modulus: &Modulus) -> bool
    requires { All (IsRow modulus.now Standard) rows.now }
    ensures { IsTrue result → All (IsRuleOf modulus.now Standard unit) rows.now }
{
    for row in rows {
        if !has_pivot_in(row, unit, modulus) {
            return false;
        }
    }
    true
}

fn are_rules(rows: &[Row], unit: Unit, modulus: &Modulus) -> bool
    requires { All (IsRow modulus.now Standard) rows.now }
    ensures { IsTrue result → AreRules modulus.now Standard unit rows.now }
{
    have_pivots_in(rows, unit, modulus) && are_apart(rows, modulus)
}

// Whether the row shows nothing of the unit.
fn shows_nothing_of(row: &Row, unit: Unit) -> bool
    ensures { IsTrue result → (x : IntegralValue) → Shows row.now x → unit_of x ≢ unit }
{
    let terms = row.terms();
    for term in terms {
        if term.integral.unit() == unit {
            return false;
        }
    }
    true
}

// Whether the row has a pivot, and shows nothing of the unit.
fn is_outside(row: &Row, unit: Unit, modulus: &Modulus) -> bool
    requires { IsRow modulus.now Standard row.now }
    ensures { IsTrue result → IsRuleOutside modulus.now Standard unit row.now }
{
    match row.greatest() {
        Some(x) => row.coefficient(x) == 1 && shows_nothing_of(row, unit),
        None => false,
    }
}

fn all_outside(rows: &[Row], unit: Unit, modulus: &Modulus) -> bool
    requires { All (IsRow modulus.now Standard) rows.now }
    ensures { IsTrue result → All (IsRuleOutside modulus.now Standard unit) rows.now }
{
    for row in rows {
        if !is_outside(row, unit, modulus) {
            return false;
        }
    }
    true
}

fn are_below(rows: &[Row], unit: Unit, modulus: &Modulus) -> bool
    requires { All (IsRow modulus.now Standard) rows.now }
    ensures { IsTrue result → AreBelow modulus.now Standard unit rows.now }
{
    all_outside(rows, unit, modulus) && are_apart(rows, modulus)
}

fn substituted(
    alloc: Global,
    sector: u32,
    rows: &[Terms],
    below: &[Terms],
    modulus: Modulus,
) -> Result<Substituted, Wrong> {
    let unit = Unit { family: 0, sector };
    let rows = rows_of(alloc, rows, &modulus)?;
    let below = rows_of(alloc, below, &modulus)?;
    if !are_rules(&rows, unit, &modulus) || !are_below(&below, unit, &modulus) {
        return Err(Wrong::Conditions);
    }
    Ok(substitute(alloc, unit, rows, below, modulus)?)
}

// The top sector of the massless triangle at d = 7, s = 5: 67 * 21 * 2 is 87 modulo 101, and 81 * 21 * 2
// is 69. The rows below don't ascend.
#[test]
fn the_triangle_comes_down_to_the_bubble(rt: HostRuntime) -> Result<(), Fail> {
    let alloc = rt.alloc();
    let p = Modulus::new(101)?;
    let rows: [Terms; 3] = [
        &[(&[1, 1, 1], 1), (&[0, 1, 2], 67), (&[0, 2, 1], 67)],
        &[(&[1, 1, 2], 1), (&[0, 1, 2], 81), (&[0, 2, 1], 81)],
        &[(&[1, 2, 1], 1), (&[0, 1, 2], 81), (&[0, 2, 1], 81)],
    ];
    let below: [Terms; 2] = [
        &[(&[0, 2, 1], 1), (&[0, 1, 1], 21)],
        &[(&[0, 1, 2], 1), (&[0, 1, 1], 21)],
    ];
    let made = substituted(alloc, 7, &rows, &below, p)?;
    let wanted: [Terms; 3] = [
        &[(&[1, 1, 1], 1), (&[0, 1, 1], 14)],
        &[(&[1, 1, 2], 1), (&[0, 1, 1], 32)],
        &[(&[1, 2, 1], 1), (&[0, 1, 1], 32)],
    ];
    assert!(rt; are(alloc, made.rows(), &wanted, &p)?);
    assert!(rt; are(alloc, made.input(), &rows, &p)?);
    assert!(rt; are(alloc, made.below(), &below, &p)?);
    assert_eq!(rt; made.unit().sector, 7);
    assert_eq!(rt; made.modulus().value(), 101);
    assert_eq!(rt; made.order(), Order::Standard);
    Ok(())
}

// Two dotted boxes at d = 7, s = 2, t = 6: the dotted triangles of two lower sectors come down to the
// bubbles in s and in t.
#[test]
fn the_box_comes_down_to_itself_and_a_bubble(rt: HostRuntime) -> Result<(), Fail> {
    let alloc = rt.alloc();
    let p = Modulus::new(101)?;
    let rows: [Terms; 2] = [
        &[
            (&[1, 1, 1, 2], 1),
            (&[1, 1, 1, 1], 34),
            (&[2, 0, 1, 1], 84),
            (&[1, 0, 2, 1], 84),
            (&[1, 0, 1, 2], 84),
        ],
        &[
            (&[1, 1, 2, 1], 1),
            (&[1, 1, 1, 1], 1),
            (&[0, 2, 1, 1], 50),
            (&[0, 1, 2, 1], 50),
            (&[0, 1, 1, 2], 50),
        ],
    ];
    let below: [Terms; 6] = [
        &[(&[0, 2, 1, 1], 1), (&[0, 1, 0, 1], 11)],
        &[(&[1, 0, 1, 2], 1), (&[1, 0, 1, 0], 97)],
        &[(&[0, 1, 1, 2], 1), (&[0, 1, 0, 1], 11)],
        &[(&[2, 0, 1, 1], 1), (&[1, 0, 1, 0], 99)],
        &[(&[0, 1, 2, 1], 1), (&[0, 1, 0, 1], 22)],
        &[(&[1, 0, 2, 1], 1), (&[1, 0, 1, 0], 99)],
    ];
    let made = substituted(alloc, 15, &rows, &below, p)?;
    let wanted: [Terms; 2] = [
        &[(&[1, 1, 1, 2], 1), (&[1, 1, 1, 1], 34), (&[1, 0, 1, 0], 66)],
        &[(&[1, 1, 2, 1], 1), (&[1, 1, 1, 1], 1), (&[0, 1, 0, 1], 22)],
    ];
    assert!(rt; are(alloc, made.rows(), &wanted, &p)?);
    Ok(())
}

#[test]
fn a_row_without_such_pivots_stays(rt: HostRuntime) -> Result<(), Fail> {
    let alloc = rt.alloc();
    let p = Modulus::new(101)?;
    let rows: [Terms; 2] = [
        &[(&[1, 1, 1], 1), (&[0, 1, 1], 14)],
        &[(&[1, 1, 2], 1), (&[0, 2, 1], 5)],
    ];
    let below: [Terms; 1] = [&[(&[0, 2, 1], 1), (&[0, 1, 1], 21)]];
    let made = substituted(alloc, 7, &rows, &below, p)?;
    let wanted: [Terms; 2] = [
        &[(&[1, 1, 1], 1), (&[0, 1, 1], 14)],
        &[(&[1, 1, 2], 1), (&[0, 1, 1], 97)],
    ];
    assert!(rt; are(alloc, made.rows(), &wanted, &p)?);
    let alone = substituted(alloc, 7, &rows, &[], p)?;
    assert!(rt; are(alloc, alone.rows(), &rows, &p)?);
    Ok(())
}

#[test]
fn a_unit_without_rows_has_none(rt: HostRuntime) -> Result<(), Fail> {
    let alloc = rt.alloc();
    let p = Modulus::new(101)?;
    let below: [Terms; 1] = [&[(&[0, 2, 1], 1), (&[0, 1, 1], 21)]];
    let made = substituted(alloc, 7, &[], &below, p)?;
    assert_eq!(rt; (made.input().len(), made.rows().len()), (0, 0));
    assert!(rt; are(alloc, made.below(), &below, &p)?);
    Ok(())
}

// Modulo 15, 5 * 3 is 0, so that the first row's second term goes without a trace; -7 * 6 is 3 and -7 * 9
// is 12.
#[test]
fn a_composite_modulus_is_no_fault(rt: HostRuntime) -> Result<(), Fail> {
    let alloc = rt.alloc();
    let p = Modulus::new(15)?;
    let rows: [Terms; 2] = [
        &[(&[1, 1, 1], 1), (&[0, 1, 3], 5)],
        &[(&[1, 1, 2], 1), (&[0, 2, 2], 7), (&[0, 1, 1], 14)],
    ];
    let below: [Terms; 2] = [
        &[(&[0, 1, 3], 1), (&[0, 1, 2], 3)],
        &[(&[0, 2, 2], 1), (&[0, 2, 1], 6), (&[0, 1, 2], 9)],
    ];
    let made = substituted(alloc, 7, &rows, &below, p)?;
    let wanted: [Terms; 2] = [
        &[(&[1, 1, 1], 1)],
        &[
            (&[1, 1, 2], 1),
            (&[0, 2, 1], 3),
            (&[0, 1, 2], 12),
            (&[0, 1, 1], 14),
        ],
    ];
    assert!(rt; are(alloc, made.rows(), &wanted, &p)?);
    Ok(())
}

#[test]
fn the_parts_are_handed_out(rt: HostRuntime) -> Result<(), Fail> {
    let alloc = rt.alloc();
    let p = Modulus::new(101)?;
    let rows: [Terms; 1] = [&[(&[1, 1, 1], 1), (&[0, 2, 1], 2)]];
    let below: [Terms; 1] = [&[(&[0, 2, 1], 1), (&[0, 1, 1], 21)]];
    let wanted: [Terms; 1] = [&[(&[1, 1, 1], 1), (&[0, 1, 1], 59)]];
    let (input, lesser, made) = substituted(alloc, 7, &rows, &below, p)?.into_parts();
    assert!(rt; are(alloc, &input, &rows, &p)?);
    assert!(rt; are(alloc, &lesser, &below, &p)?);
    assert!(rt; are(alloc, &made, &wanted, &p)?);
    Ok(())
}
