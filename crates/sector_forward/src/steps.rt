//! The steps of the elimination: looking a pivot up, and clearing pivots out of a row.

ghost use Rattle.std.specs.Prelude.{◌≡◌, ℕ, ◌+◌, ◌%◌, ◌<◌, ◌≤◌, length, IsTrue, MatchOption, MatchResult, OnOk};
ghost use Rattle.integral_index.specs.Integral.{Integral as IntegralValue};
ghost use Rattle.integral_index.specs.Order.{compare};
ghost use Rattle.sparse_row.specs.Row.{IsRow, IsPivot, coefficient};
ghost use Rattle.sector_forward.specs.Differences.{DifferBySpan};
ghost use Rattle.sector_forward.specs.Steps.{HasPivot, IsStairs, IsPivotAt, IsPlaceFor, ShowsNoneWithin, IsCleared, IsAboveAll, SameAbove};

use field_word::Modulus;
use integral_index::{Integral, Order};
use out_of_memory::OutOfMemory;
use sparse_row::Row;
use std::cmp::Ordering;

// Compares the pivot of a row with an integral.
fn compare_pivot(row: &Row, order: Order, x: &Integral) -> Ordering
    requires ordered { row.now.order ≡ order }
    requires pivot { HasPivot order row.now }
    ensures { (y : IntegralValue) → IsPivot order row.now y → result ≡ compare order y x.now }
{
    match row.greatest() {
        Some(pivot) => order.compare(pivot, x),
        None => unreachable!(),
    }
}

// Whether all pivots are less than x. It is asked first, since most look-ups are of such an x: the
// terms of a row are taken from the greatest down.
fn is_above_all(rows: &[Row], order: Order, x: &Integral) -> bool
    requires { (p : ℕ) × IsStairs p order rows.now }
    ensures { IsTrue result → IsAboveAll order rows.now x.now }
{
    match rows.last() {
        Some(row) => compare_pivot(row, order, x) == Ordering::Less,
        None => true,
    }
}

/// The place of the row whose pivot is x, or else the place where such a row belongs, in rows whose
/// pivots ascend. It halves the list, and takes no memory.
pub fn place_of_pivot(rows: &[Row], order: Order, x: &Integral) -> Result<usize, usize>
    requires stairs { (p : ℕ) × IsStairs p order rows.now }
    ensures { MatchResult result
        (λ place. (place < length rows.now) × IsPivotAt order rows.now place x.now)
        (λ place. IsPlaceFor order rows.now x.now place) }
{
    if is_above_all(rows, order, x) {
        return Err(rows.len());
    }
    let mut low = 0;
    let mut high = rows.len();
    while low < high {
        let middle = low + (high - low) / 2;
        match compare_pivot(&rows[middle], order, x) {
            Ordering::Less => low = middle + 1,
            Ordering::Equal => return Ok(middle),
            Ordering::Greater => high = middle,
        }
    }
    Err(low)
}

// The place of the greatest pivot that the row shows.
fn last_shown(row: &Row, rows: &[Row], order: Order) -> Option<usize>
    requires ordered { row.now.order ≡ order }
    requires stairs { (p : ℕ) × IsStairs p order rows.now }
    ensures { MatchOption result
        (ShowsNoneWithin order rows.now 0 (length rows.now) row.now)
        (λ place. (place < length rows.now)
        × ShowsNoneWithin order rows.now (place + 1) (length rows.now) row.now) }
{
    let terms = row.terms();
    for term in terms {
        if let Ok(place) = place_of_pivot(rows, order, &term.integral) {
            return Some(place);
        }
    }
    None
}

// The same, among the rows before a place.
fn last_shown_before(bound: usize, row: &Row, rows: &[Row], order: Order) -> Option<usize>
    requires within { bound ≤ length rows.now }
    requires ordered { row.now.order ≡ order }
    requires stairs { (p : ℕ) × IsStairs p order rows.now }
    ensures { MatchOption result
        (ShowsNoneWithin order rows.now 0 bound row.now)
        (λ place. (place < bound) × ShowsNoneWithin order rows.now (place + 1) bound row.now) }
{
    last_shown(row, &rows[..bound], order)
}

// The multiple of the rule in whose sum with the row the pivot of the rule has the coefficient 0.
fn clearing_factor(row: &Row, rule: &Row, order: Order, modulus: &Modulus) -> u64
    requires row { IsRow modulus.now order row.now }
    requires rule { IsRow modulus.now order rule.now }
    requires pivot { HasPivot order rule.now }
    ensures below { result < modulus.now }
    ensures clears { (x : IntegralValue) → IsPivot order rule.now x →
        (coefficient row.now x + result) % modulus.now ≡ 0 }
{
    match rule.greatest() {
        Some(pivot) => modulus.neg(row.coefficient(pivot)),
        None => unreachable!(),
    }
}

// Clears the pivot of the rule out of the row.
fn clear_pivot(
    row: &mut Row,
    rule: &Row,
    order: Order,
    modulus: &Modulus,
) -> Result<(), OutOfMemory>
    requires row { IsRow modulus.now order row.old }
    requires rule { IsRow modulus.now order rule.now }
    requires pivot { HasPivot order rule.now }
    ensures row { IsRow modulus.now order row.new }
    ensures cleared { OnOk result (IsCleared modulus.now order rule.now row.old row.new) }
{
    let factor = clearing_factor(row, rule, order, modulus);
    row.add_multiple(rule, factor, modulus)
}

// Clears all pivots of the rows out of the row, from the greatest down: a rule brings in only pivots
// that are less than its own.
pub(crate) fn clear_pivots(
    row: &mut Row,
    rows: &[Row],
    order: Order,
    modulus: &Modulus,
) -> Result<(), OutOfMemory>
    requires row { IsRow modulus.now order row.old }
    requires stairs { IsStairs modulus.now order rows.now }
    ensures row { IsRow modulus.now order row.new }
    ensures cleared { OnOk result (ShowsNoneWithin order rows.now 0 (length rows.now) row.new) }
    ensures differ { OnOk result (DifferBySpan modulus.now rows.now row.old row.new) }
    ensures above { OnOk result (SameAbove order rows.now row.old row.new) }
{
    let mut bound = rows.len();
    while let Some(place) = last_shown_before(bound, row, rows, order) {
        clear_pivot(row, &rows[place], order, modulus)?;
        bound = place;
    }
    Ok(())
}
