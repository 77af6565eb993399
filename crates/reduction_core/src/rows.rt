//! Lists of rows.

ghost use Rattle.std.specs.Prelude.{◌≡◌, ◌↔◌, IsTrue, IfOk, length};

use out_of_memory::OutOfMemory;
use sparse_row::{Row, copies};
use std::alloc::Global;
use std::marker::Model;

/// A list of rows, such as those of a unit. Contracts see the list.
#[derive(Debug, Drop)]
pub struct Rows {
    rows: Vec<Row>,
}

impl Model for Rows {
    ghost use Rattle.std.specs.Prelude.{List};
    ghost use Rattle.std.specs.Coded.{coded_list};
    ghost use Rattle.sparse_row.specs.Row.{Row as RowValue, row_code};

    ghost Value = { List RowValue };

    ghost coded = { coded_list row_code };

    ghost view = { λ a. a.rows.items };
}

impl Rows {
    /// The list of these rows. It takes no memory.
    pub fn of(rows: Vec<Row>) -> Rows
        ensures { result ≡ rows.items }
    {
        Rows { rows }
    }

    /// Its rows.
    pub fn as_slice(&self) -> &[Row]
        ensures { result.now ≡ self.now }
    {
        self.rows.as_slice()
    }

    /// Its rows, without memory.
    pub fn into_vec(self) -> Vec<Row>
        ensures { result.items ≡ self }
    {
        self.rows
    }

    /// The same rows.
    pub fn copy(&self) -> Result<Rows, OutOfMemory>
        ensures { IfOk result (λ made. made ≡ self.now) }
    {
        let rows = copies(*self.rows.allocator(), self.rows.as_slice())?;
        Ok(Rows { rows })
    }

    /// Whether both are the same rows in the same order.
    pub fn equals(&self, other: &Rows) -> bool
        ensures { IsTrue result ↔ (self.now ≡ other.now) }
    {
        are_equal(self.rows.as_slice(), other.rows.as_slice())
    }
}

fn are_equal(rows: &[Row], others: &[Row]) -> bool
    ensures { IsTrue result ↔ (rows.now ≡ others.now) }
{
    if rows.len() != others.len() {
        return false;
    }
    for i in 0..rows.len() {
        if !rows[i].equals(&others[i]) {
            return false;
        }
    }
    true
}
