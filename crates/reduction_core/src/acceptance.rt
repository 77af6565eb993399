//! Tests of rows that were computed elsewhere, or read from a file: all that can be told of them
//! without their spans. Nothing is known of the rows that are tested, and no memory is taken.

ghost use Rattle.std.specs.Prelude.{◌≡◌, ◌≢◌, ◌↔◌, ◌<◌, ◌++◌, length, slice_index_or, All, Contains, IsTrue};
ghost use Rattle.integral_index.specs.Integral.{Integral as IntegralValue};
ghost use Rattle.integral_index.specs.Order.{unit_of};
ghost use Rattle.sparse_row.specs.Row.{Row as RowValue, Shows, IsRow, IsPivot};
ghost use Rattle.sparse_row.specs.Terms.{AllBelow};
ghost use Rattle.sector_forward.specs.Elimination.{IsRuleOf, IsOutside, AreApart, IsShownBySome};
ghost use Rattle.back_substitute.specs.Substitution.{AreRules, ShowsNoPivotOf};
ghost use Rattle.sector_machine.specs.Machine.{HaveThePivots};
ghost use Rattle.sector_machine.specs.Accepted.{ShowNothingNew};
ghost use Rattle.reduction_core.specs.Acceptance.{HasOrder, IsClearOf, IsApartAt, IsPivotOfSome, ShowsOnly, KeepsPivot, FitForward, FitBack};

use crate::checks::is_pivot;
use field_word::Modulus;
use integral_index::{Integral, Order, Unit};
use sparse_row::{Row, Term};

/// Whether the rows and the rest may have come from the rows that a unit took: the rows have distinct
/// pivots of the unit, each 1 and in no other of them, the rest shows nothing of the unit, no row of it
/// is empty, and both show only integrals that the taken rows show.
pub fn fit_forward(
    taken: &[Row],
    rows: &[Row],
    rest: &[Row],
    unit: Unit,
    order: Order,
    modulus: &Modulus,
) -> bool
    ensures { IsTrue result ↔ FitForward modulus.now order unit taken.now rows.now rest.now }
{
    if !are_rules(rows, unit, order, modulus) {
        return false;
    }
    if !are_outside(rest, unit, order, modulus) {
        return false;
    }
    if !show_nothing_new(taken, rows) {
        return false;
    }
    show_nothing_new(taken, rest)
}

/// Whether the rows may be the back rows of a unit with these forward rows, apart from what other
/// units' rows say: they have distinct pivots of the unit, each 1 and in no other of them, and these
/// are the pivots of the forward rows.
pub fn fit_back(forward: &[Row], rows: &[Row], unit: Unit, order: Order, modulus: &Modulus) -> bool
    requires { All (HasOrder order) forward.now }
    ensures { IsTrue result ↔ FitBack modulus.now order unit forward.now rows.now }
{
    if !are_rules(rows, unit, order, modulus) {
        return false;
    }
    have_the_pivots(forward, rows, order)
}

/// Whether the rows have distinct pivots of the unit, each 1 and in no other of them.
pub fn are_rules(rows: &[Row], unit: Unit, order: Order, modulus: &Modulus) -> bool
    ensures { IsTrue result ↔ AreRules modulus.now order unit rows.now }
{
    if !have_pivots_in(rows, unit, order, modulus) {
        return false;
    }
    are_apart(rows, order)
}

/// Whether each row shows something, and nothing of the unit.
pub fn are_outside(rows: &[Row], unit: Unit, order: Order, modulus: &Modulus) -> bool
    ensures { IsTrue result ↔ All (IsOutside modulus.now order unit) rows.now }
{
    for row in rows {
        if !is_outside(row, unit, order, modulus) {
            return false;
        }
    }
    true
}

/// Whether the rows show only integrals that the others show.
pub fn show_nothing_new(others: &[Row], rows: &[Row]) -> bool
    ensures { IsTrue result ↔ ShowNothingNew others.now rows.now }
{
    for row in rows {
        if !shows_only_of(row, others) {
            return false;
        }
    }
    true
}

/// Whether one of the rows shows the integral.
pub fn is_shown_by_some(rows: &[Row], x: &Integral) -> bool
    ensures { IsTrue result ↔ IsShownBySome rows.now x.now }
{
    for row in rows {
        if row.coefficient(x) != 0 {
            return true;
        }
    }
    false
}

/// Whether the rows are as many as the others, and each pivot of the others is one of theirs.
pub fn have_the_pivots(others: &[Row], rows: &[Row], order: Order) -> bool
    requires others { All (HasOrder order) others.now }
    requires rows { All (HasOrder order) rows.now }
    ensures { IsTrue result ↔ HaveThePivots order others.now rows.now }
{
    if rows.len() != others.len() {
        return false;
    }
    for other in others {
        if !keeps_pivot(rows, other, order) {
            return false;
        }
    }
    true
}

/// Whether no row shows a pivot of the rules.
pub fn show_no_pivot_of(rules: &[Row], rows: &[Row], order: Order) -> bool
    requires { All (HasOrder order) rules.now }
    ensures { IsTrue result ↔ All (ShowsNoPivotOf order rules.now) rows.now }
{
    for row in rows {
        if !shows_no_pivot_of(row, rules, order) {
            return false;
        }
    }
    true
}

// Whether the row has the order, and its coefficients are residues. That none is 0 its type keeps.
fn is_row(row: &Row, order: Order, modulus: &Modulus) -> bool
    ensures { IsTrue result ↔ IsRow modulus.now order row.now }
{
    if !has_order(row, order) {
        return false;
    }
    are_residues(row.terms(), modulus)
}

fn has_order(row: &Row, order: Order) -> bool
    ensures { IsTrue result ↔ HasOrder order row.now }
{
    row.order() == order
}

fn is_of_unit(x: &Integral, unit: Unit) -> bool
    ensures { IsTrue result ↔ (unit_of x.now ≡ unit) }
{
    x.unit() == unit
}

fn are_residues(terms: &[Term], modulus: &Modulus) -> bool
    ensures value { IsTrue result ↔ AllBelow modulus.now terms.now }
    ensures positive { 0 < modulus.now }
{
    let p = modulus.value();
    for term in terms {
        if term.coefficient >= p {
            return false;
        }
    }
    true
}

// Whether the row is one of residues with its pivot in the unit.
fn is_rule(row: &Row, unit: Unit, order: Order, modulus: &Modulus) -> bool
    ensures { IsTrue result ↔ IsRuleOf modulus.now order unit row.now }
{
    if !is_row(row, order, modulus) {
        return false;
    }
    match row.greatest() {
        Some(x) => is_of_unit(x, unit) && row.coefficient(x) == 1,
        None => false,
    }
}

fn have_pivots_in(rows: &[Row], unit: Unit, order: Order, modulus: &Modulus) -> bool
    ensures { IsTrue result ↔ All (IsRuleOf modulus.now order unit) rows.now }
{
    for row in rows {
        if !is_rule(row, unit, order, modulus) {
            return false;
        }
    }
    true
}

// Whether the row doesn't show the pivot of the rule. A rule without a pivot has none to show.
fn is_clear_of(row: &Row, rule: &Row, order: Order) -> bool
    requires { HasOrder order rule.now }
    ensures { IsTrue result ↔ IsClearOf order rule.now row.now }
{
    match rule.greatest() {
        Some(x) => rule.coefficient(x) != 1 || row.coefficient(x) == 0,
        None => true,
    }
}

// Whether no other row shows the pivot of the row at the place.
fn is_apart_at(rows: &[Row], place: usize, order: Order) -> bool
    requires place { place < length rows.now }
    requires ordered { All (HasOrder order) rows.now }
    ensures { IsTrue result ↔ IsApartAt order rows.now place }
{
    for k in 0..rows.len() {
        if k != place && !is_clear_of(&rows[k], &rows[place], order) {
            return false;
        }
    }
    true
}

fn are_apart(rows: &[Row], order: Order) -> bool
    requires { All (HasOrder order) rows.now }
    ensures { IsTrue result ↔ AreApart order rows.now }
{
    for k in 0..rows.len() {
        if !is_apart_at(rows, k, order) {
            return false;
        }
    }
    true
}

fn shows_nothing_of(row: &Row, unit: Unit) -> bool
    ensures { IsTrue result ↔ ((x : IntegralValue) → Shows row.now x → unit_of x ≢ unit) }
{
    let terms = row.terms();
    for term in terms {
        if is_of_unit(&term.integral, unit) {
            return false;
        }
    }
    true
}

fn is_outside(row: &Row, unit: Unit, order: Order, modulus: &Modulus) -> bool
    ensures { IsTrue result ↔ IsOutside modulus.now order unit row.now }
{
    if !is_row(row, order, modulus) {
        return false;
    }
    if row.is_empty() {
        return false;
    }
    shows_nothing_of(row, unit)
}

// Whether each integral of the row is shown by one of the others.
fn shows_only_of(row: &Row, others: &[Row]) -> bool
    ensures { IsTrue result ↔ ShowsOnly others.now row.now }
{
    let terms = row.terms();
    for term in terms {
        if !is_shown_by_some(others, &term.integral) {
            return false;
        }
    }
    true
}

// Whether x is the pivot of one of the rows.
fn is_pivot_of_some(rows: &[Row], order: Order, x: &Integral) -> bool
    requires { All (HasOrder order) rows.now }
    ensures { IsTrue result ↔ IsPivotOfSome order rows.now x.now }
{
    for row in rows {
        if is_pivot(row, order, x) {
            return true;
        }
    }
    false
}

// Whether the pivot of the other, if it has one, is that of one of the rows.
fn keeps_pivot(rows: &[Row], other: &Row, order: Order) -> bool
    requires rows { All (HasOrder order) rows.now }
    requires other { HasOrder order other.now }
    ensures { IsTrue result ↔ KeepsPivot order rows.now other.now }
{
    match other.greatest() {
        Some(x) => other.coefficient(x) != 1 || is_pivot_of_some(rows, order, x),
        None => true,
    }
}

fn shows_no_pivot_of(row: &Row, rules: &[Row], order: Order) -> bool
    requires { All (HasOrder order) rules.now }
    ensures { IsTrue result ↔ ShowsNoPivotOf order rules.now row.now }
{
    for rule in rules {
        if !is_clear_of(row, rule, order) {
            return false;
        }
    }
    true
}
