//! The back substitution of one unit.

ghost use Rattle.std.specs.Prelude.{◌≡◌, ◌++◌, IfOk};
ghost use Rattle.sector_forward.specs.Elimination.{order_of};
ghost use Rattle.back_substitute.specs.Substitution.{AreRules, AreBelow, IsSubstitution};

use crate::pivots::index_of;
use crate::rows::substituted_rows;
use field_word::Modulus;
use integral_index::{Order, Unit};
use out_of_memory::OutOfMemory;
use sparse_row::Row;
use std::alloc::Global;
use std::marker::Model;

/// The outcome of the back substitution of a unit: the unit's rows as they were given (`input`), the
/// rows of lesser units that were substituted (`below`), and the rows of the unit that show no pivot
/// of these (`rows`). Its type keeps that the rows are such a substitution. Source: hep-ph/0102033.
#[derive(Debug, Drop)]
pub struct Substituted {
    unit: Unit,
    modulus: Modulus,
    order: Order,
    input: Vec<Row>,
    below: Vec<Row>,
    rows: Vec<Row>,
}

impl Model for Substituted {
    ghost use Rattle.back_substitute.specs.Substituted.{Substituted as SubstitutedValue, substituted_code};

    ghost Value = { SubstitutedValue };

    ghost coded = { substituted_code };

    ghost use Rattle.back_substitute.specs.KeptSubstituted.{shown, IsKept};

    ghost view = { shown };

    ghost invariant = { IsKept };
}

impl Substituted {
    ghost use Rattle.std.specs.Prelude.{◌≡◌};
    ghost use Rattle.back_substitute.specs.Substitution.{IsSubstitution};

    /// The unit of the rows.
    pub fn unit(&self) -> Unit
        ensures { result ≡ self.now.unit }
    {
        self.unit
    }

    /// The modulus of the coefficients.
    pub fn modulus(&self) -> Modulus
        ensures { result ≡ self.now.modulus }
    {
        self.modulus
    }

    /// The order of the rows.
    pub fn order(&self) -> Order
        ensures { result ≡ self.now.order }
    {
        self.order
    }

    /// The rows of the unit, as they were given.
    pub fn input(&self) -> &[Row]
        ensures value { result.now ≡ self.now.input }
        ensures substitution { IsSubstitution self.now.modulus self.now.order self.now.unit self.now.input self.now.below self.now.rows }
    {
        &self.input
    }

    /// The rows of lesser units, as they were given.
    pub fn below(&self) -> &[Row]
        ensures value { result.now ≡ self.now.below }
        ensures substitution { IsSubstitution self.now.modulus self.now.order self.now.unit self.now.input self.now.below self.now.rows }
    {
        &self.below
    }

    /// The rows of the unit without the pivots of the rows below, each at the place of the row of the
    /// input with the same pivot.
    pub fn rows(&self) -> &[Row]
        ensures value { result.now ≡ self.now.rows }
        ensures substitution { IsSubstitution self.now.modulus self.now.order self.now.unit self.now.input self.now.below self.now.rows }
    {
        &self.rows
    }

    /// The input, the rows below and the rows, unchanged.
    pub fn into_parts(self) -> (Vec<Row>, Vec<Row>, Vec<Row>)
        ensures input { result.0.items ≡ self.input }
        ensures below { result.1.items ≡ self.below }
        ensures rows { result.2.items ≡ self.rows }
        ensures substitution { IsSubstitution self.modulus self.order self.unit self.input self.below self.rows }
    {
        (self.input, self.below, self.rows)
    }
}

/// Clears the pivots of the rows below out of the rows of a unit, by adding multiples of the rows
/// below. The pivots stay, each with the coefficient 1.
///
/// The rows of the unit have a pivot in it each, and no other of them shows it. The rows below show
/// nothing of the unit, and no other of them shows the pivot of one; they may stand in any order, and
/// a pivot is found by halving. All rows have one order. The multiples that a row takes are added in
/// pairs, so that the work grows with their terms. Source: hep-ph/0102033.
pub fn substitute(
    alloc: Global,
    unit: Unit,
    rows: Vec<Row>,
    below: Vec<Row>,
    modulus: Modulus,
) -> Result<Substituted, OutOfMemory>
    requires rows { AreRules modulus (order_of (rows.items ++ below.items)) unit rows.items }
    requires below { AreBelow modulus (order_of (rows.items ++ below.items)) unit below.items }
    ensures unit { IfOk result (λ s. s.unit ≡ unit) }
    ensures modulus { IfOk result (λ s. s.modulus ≡ modulus) }
    ensures order { IfOk result (λ s. s.order ≡ order_of (rows.items ++ below.items)) }
    ensures input { IfOk result (λ s. s.input ≡ rows.items) }
    ensures below { IfOk result (λ s. s.below ≡ below.items) }
    ensures substitution { IfOk result (λ s.
        IsSubstitution modulus (order_of (rows.items ++ below.items)) unit rows.items below.items s.rows) }
{
    let _p = modulus.value();
    let order = order_of(&rows, &below);
    let index = index_of(alloc, &below, order)?;
    let made = substituted_rows(alloc, &rows, &below, &index, order, &modulus)?;
    Ok(Substituted {
        unit,
        modulus,
        order,
        input: rows,
        below,
        rows: made,
    })
}

// The order that all rows of both lists have.
fn order_of(rows: &[Row], below: &[Row]) -> Order
    ensures { result ≡ order_of (rows.now ++ below.now) }
{
    match (rows, below) {
        ([row, ..], _) => row.order(),
        ([], [row, ..]) => row.order(),
        ([], []) => Order::Standard,
    }
}
