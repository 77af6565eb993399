//! A table: the reduced list of some equations, by which integrals are expressed by masters.

ghost use Rattle.std.specs.Prelude.{◌≡◌, ◌<◌, IfOk};
ghost use Rattle.sparse_row.specs.Row.{IsRow, IsPivot};
ghost use Rattle.reduction_core.specs.NormalForm.{unit_row, solved};

use field_word::Modulus;
use integral_index::{Integral, Order, ZeroSectors};
use out_of_memory::OutOfMemory;
use sector_forward::place_of_pivot;
use sparse_row::Row;
use std::alloc::Global;
use std::marker::Model;

/// Rows in reduced echelon form with their modulus and order, ascending by their greatest
/// integrals. Each row expresses its greatest integral, its pivot, by integrals that are no pivots.
/// Source: hep-ph/0102033.
#[derive(Debug, Drop)]
pub struct Table {
    rows: Vec<Row>,
    modulus: Modulus,
    order: Order,
}

// Clauses see the rows, the modulus and the order.
impl Model for Table {
    ghost use Rattle.reduction_core.specs.Table.{Table as TableValue, table_code};

    ghost Value = { TableValue };

    ghost coded = { table_code };

    ghost use Rattle.reduction_core.specs.KeptTable.{shown, IsKept};

    ghost view = { shown };

    ghost invariant = { IsKept };
}

impl Table {
    ghost use Rattle.std.specs.Prelude.{◌≡◌, IfOk};
    ghost use Rattle.sparse_row.specs.Row.{IsRow};
    ghost use Rattle.sparse_row.specs.ReducedList.{IsEchelon};
    ghost use Rattle.reduction_core.specs.NormalForm.{normal_form};
    ghost use Rattle.reduction_core.specs.Table.{Table as TableValue};

    // The table of these rows.
    pub(crate) fn of_rows(rows: Vec<Row>, modulus: Modulus, order: Order) -> Table
        requires { IsEchelon modulus order rows.items }
        ensures { result ≡ record { modulus = modulus; order = order; rows = rows.items } }
    {
        let p = modulus.value();
        prove!(p > 1);
        Table {
            rows,
            modulus,
            order,
        }
    }

    /// The rows, ascending by their greatest integrals, each with the coefficient 1 there.
    pub fn rows(&self) -> &[Row]
        ensures value { result.now ≡ self.now.rows }
        ensures echelon { IsEchelon self.now.modulus self.now.order self.now.rows }
    {
        &self.rows
    }

    /// The modulus of the coefficients.
    pub fn modulus(&self) -> Modulus
        ensures { result ≡ self.now.modulus }
    {
        self.modulus
    }

    /// The order of the integrals.
    pub fn order(&self) -> Order
        ensures { result ≡ self.now.order }
    {
        self.order
    }

    /// What an integral equals where the rows of the table are 0: nothing where its sector is zero,
    /// the opposite of the rest of its row where it is a pivot, and else itself. `zeros` are the
    /// zero sectors of its family. The result shows no pivot. Source: arXiv:1705.05610.
    pub fn normal_form(&self, x: &Integral, zeros: &ZeroSectors) -> Result<Row, OutOfMemory>
        ensures value { IfOk result
            (λ row. row ≡ normal_form self.now.modulus self.now.order zeros.now self.now.rows x.now) }
        ensures row { IfOk result (IsRow self.now.modulus self.now.order) }
    {
        let alloc = *self.rows.allocator();
        if zeros.is_zero(x.unit().sector) {
            return Ok(Row::new(alloc, self.order));
        }
        match place_of_pivot(&self.rows, self.order, x) {
            Ok(place) => solved(alloc, &self.rows[place], self.order, x, &self.modulus),
            Err(_) => unit_row(alloc, self.order, x, &self.modulus),
        }
    }
}

// The row of one integral, with the coefficient 1.
pub(crate) fn unit_row(
    alloc: Global,
    order: Order,
    x: &Integral,
    modulus: &Modulus,
) -> Result<Row, OutOfMemory>
    requires { 1 < modulus.now }
    ensures value { IfOk result (λ row. row ≡ unit_row order x.now) }
    ensures row { IfOk result (IsRow modulus.now order) }
{
    let mut row = Row::new(alloc, order);
    row.add_term(x, 1, modulus)?;
    Ok(row)
}

// What the pivot of a rule equals by the rule: the pivot minus the rule.
pub(crate) fn solved(
    alloc: Global,
    rule: &Row,
    order: Order,
    x: &Integral,
    modulus: &Modulus,
) -> Result<Row, OutOfMemory>
    requires rule { IsRow modulus.now order rule.now }
    requires pivot { IsPivot order rule.now x.now }
    ensures value { IfOk result (λ row. row ≡ solved modulus.now rule.now x.now) }
    ensures row { IfOk result (IsRow modulus.now order) }
{
    let mut row = unit_row(alloc, order, x, modulus)?;
    row.add_multiple(rule, modulus.value() - 1, modulus)?;
    Ok(row)
}
