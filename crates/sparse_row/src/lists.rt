//! Copies of lists of rows.

ghost use Rattle.std.specs.Prelude.{◌≡◌, ◌++◌, IfOk, OnOk};

use crate::Row;
use out_of_memory::OutOfMemory;
use std::alloc::Global;

/// Copies of the rows.
pub fn copies(alloc: Global, rows: &[Row]) -> Result<Vec<Row>, OutOfMemory>
    ensures { IfOk result (λ made. made.items ≡ rows.now) }
{
    let mut made = Vec::with_capacity(alloc, rows.len())?;
    push_copies(&mut made, rows)?;
    Ok(made)
}

/// Appends copies of the rows.
pub fn push_copies(made: &mut Vec<Row>, rows: &[Row]) -> Result<(), OutOfMemory>
    ensures { OnOk result (made.new.items ≡ made.old.items ++ rows.now) }
{
    for row in rows {
        made.push(row.copy()?)?;
    }
    Ok(())
}
