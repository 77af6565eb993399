//! Sums of rows.

ghost use Rattle.std.specs.Prelude.{◌≡◌, ◌*◌, ◌%◌, ◌<◌, All, length, IfOk};
ghost use Rattle.integral_index.specs.Integral.{Integral as IntegralValue};
ghost use Rattle.sparse_row.specs.Row.{coefficient, IsRow};
ghost use Rattle.back_substitute.specs.Sums.{IsSumOf, IsPaired, IsTaken};

use field_word::Modulus;
use integral_index::Order;
use out_of_memory::OutOfMemory;
use sparse_row::Row;
use std::alloc::Global;

/// A multiple of a row.
pub(crate) fn multiple_of(
    alloc: Global,
    rule: &Row,
    factor: u64,
    order: Order,
    modulus: &Modulus,
) -> Result<Row, OutOfMemory>
    requires rule { IsRow modulus.now order rule.now }
    requires residue { factor < modulus.now }
    ensures row { IfOk result (IsRow modulus.now order) }
    ensures multiple { IfOk result (λ made. (x : IntegralValue) →
        coefficient made x ≡ (factor * coefficient rule.now x) % modulus.now) }
{
    let mut made = Row::new(alloc, order);
    made.add_multiple(rule, factor, modulus)?;
    Ok(made)
}

/// The sum of the rows. They are added in pairs until one is left, so that a term is copied about as
/// often as their number can be halved.
pub(crate) fn sum_of(
    alloc: Global,
    rows: Vec<Row>,
    order: Order,
    modulus: &Modulus,
) -> Result<Row, OutOfMemory>
    requires rows { All (IsRow modulus.now order) rows.items }
    requires some { 0 < length rows.items }
    ensures { IfOk result (IsSumOf modulus.now order rows.items) }
{
    let mut rows = rows;
    while rows.len() > 1 {
        rows = paired(alloc, rows, order, modulus)?;
    }
    match rows.pop() {
        Some(row) => Ok(row),
        None => unreachable!(),
    }
}

// The sums of pairs of the rows; of an odd number one stays alone.
fn paired(
    alloc: Global,
    rows: Vec<Row>,
    order: Order,
    modulus: &Modulus,
) -> Result<Vec<Row>, OutOfMemory>
    requires { All (IsRow modulus.now order) rows.items }
    ensures { IfOk result (λ made. IsPaired modulus.now order rows.items made.items) }
{
    let mut made = Vec::with_capacity(alloc, rows.len() / 2 + 1)?;
    let mut rest = rows;
    while let Some(row) = rest.pop() {
        let sum = with_last(row, &mut rest, order, modulus)?;
        made.push(sum)?;
    }
    Ok(made)
}

// The row and the last of the others, which is taken from them, in one.
fn with_last(
    row: Row,
    others: &mut Vec<Row>,
    order: Order,
    modulus: &Modulus,
) -> Result<Row, OutOfMemory>
    requires row { IsRow modulus.now order row }
    requires others { All (IsRow modulus.now order) others.old.items }
    ensures { IfOk result (IsTaken modulus.now order row others.old.items others.new.items) }
{
    let _p = modulus.value();
    let mut sum = row;
    if let Some(other) = others.pop() {
        sum.add_multiple(&other, 1, modulus)?;
    }
    Ok(sum)
}
