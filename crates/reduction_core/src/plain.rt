//! The reduced list of a list of rows, by elimination in one list.

ghost use Rattle.std.specs.Prelude.{◌≡◌, List, All, IfOk, IfErr};
ghost use Rattle.sparse_row.specs.Row.{Row as RowValue, IsRow};
ghost use Rattle.sparse_row.specs.ReducedList.{IsReduced};
ghost use Rattle.sector_forward.specs.Fault.{HasCause};

use crate::table::Table;
use field_word::Modulus;
use integral_index::Order;
use sector_forward::{ForwardFault, reduced_rows};
use sparse_row::Row;
use std::alloc::Global;

/// The reduced list of the rows, which is determined by their span alone: see
/// `laws::reduced_list_is_unique`.
///
/// `Composite` only where the modulus has the divisor, which lies between 1 and it; a composite
/// modulus that meets no coefficient without an inverse is no fault. Source: hep-ph/0102033.
pub fn reduce_plain(
    alloc: Global,
    rows: Vec<Row>,
    modulus: Modulus,
    order: Order,
) -> Result<Table, ForwardFault>
    requires { All (IsRow modulus order) rows.items }
    ensures reduced { IfOk result (λ table. IsReduced modulus order rows.items table.rows) }
    ensures only { IfOk result (λ table. (other : List RowValue) →
        IsReduced modulus order rows.items other → other ≡ table.rows) }
    ensures modulus { IfOk result (λ table. table.modulus ≡ modulus) }
    ensures order { IfOk result (λ table. table.order ≡ order) }
    ensures cause { IfErr result (λ fault. HasCause modulus fault) }
{
    let reduced = reduced_rows(alloc, rows, &modulus, order)?;
    Ok(Table::of_rows(reduced, modulus, order))
}
