//! What the tests of rows and of their elimination share: rows of small numbers.

ghost use Rattle.std.specs.Prelude.{◌≡◌, All, IfOk};
ghost use Rattle.integral_index.specs.declared.Order.TheVariants.{Standard};
ghost use Rattle.sparse_row.specs.Row.{IsRow};

use field_word::Modulus;
use integral_index::{Integral, Order, is_index_list};
use out_of_memory::OutOfMemory;
use sector_forward::ForwardFault;
use sparse_row::Row;
use std::alloc::{AllocFailed, Global};

/// What a helper of the tests may answer.
#[derive(Debug, Drop)]
pub(crate) enum Wrong {
    Indices,
    Unit,
    Conditions,
    Refused(ForwardFault),
    OutOfMemory,
}

impl From<OutOfMemory> for Wrong {
    fn from(_refused: OutOfMemory) -> Wrong {
        Wrong::OutOfMemory
    }
}

impl<T: Drop> From<AllocFailed<T>> for Wrong {
    fn from(_refused: AllocFailed<T>) -> Wrong {
        Wrong::OutOfMemory
    }
}

/// The terms of a row: indices and coefficients.
pub(crate) type Terms = &'static [(&'static [i8], u64)];

/// The integral of the first family with these indices.
pub(crate) fn integral(alloc: Global, indices: &[i8]) -> Result<Integral, Wrong> {
    if !is_index_list(indices) {
        return Err(Wrong::Indices);
    }
    Ok(Integral::new(alloc, 0, indices)?)
}

/// The row of these terms, which are added one by one in this order.
pub(crate) fn row_of(alloc: Global, terms: Terms, modulus: &Modulus) -> Result<Row, Wrong>
    ensures { IfOk result (λ row. IsRow modulus.now Standard row) }
{
    let _p = modulus.value();
    let mut row = Row::new(alloc, Order::Standard);
    for (indices, coefficient) in terms {
        let x = integral(alloc, indices)?;
        row.add_term(&x, modulus.reduce(u128::from(*coefficient)), modulus)?;
    }
    Ok(row)
}

/// The rows of these terms.
pub(crate) fn rows_of(alloc: Global, rows: &[Terms], modulus: &Modulus) -> Result<Vec<Row>, Wrong>
    ensures { IfOk result (λ made. All (IsRow modulus.now Standard) made.items) }
{
    let mut made = Vec::new(alloc);
    for terms in rows {
        let row = row_of(alloc, terms, modulus)?;
        made.push(row)?;
    }
    Ok(made)
}

/// Whether the rows are just these, in this order.
pub(crate) fn are(
    alloc: Global,
    rows: &[Row],
    wanted: &[Terms],
    modulus: &Modulus,
) -> Result<bool, Wrong> {
    if rows.len() != wanted.len() {
        return Ok(false);
    }
    for i in 0..rows.len() {
        if !rows[i].equals(&row_of(alloc, wanted[i], modulus)?) {
            return Ok(false);
        }
    }
    Ok(true)
}
