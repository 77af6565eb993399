//! The forward elimination of one unit.

ghost use Rattle.std.specs.Prelude.{◌≡◌, ◌↔◌, ℕ, ◌+◌, All, AllPairs, IfOk, IfErr, IsTrue};
ghost use Rattle.integral_index.specs.Integral.{Integral as IntegralValue};
ghost use Rattle.integral_index.specs.Order.{unit_of};
ghost use Rattle.sparse_row.specs.Row.{IsRow, IsPivot};
ghost use Rattle.sparse_row.specs.ReducedList.{Ascend};
ghost use Rattle.sector_forward.specs.Fault.{HasCause};
ghost use Rattle.sector_forward.specs.Steps.{HasPivot};
ghost use Rattle.sector_forward.specs.Elimination.{IsTaken, IsElimination, order_of};
ghost use Rattle.sector_forward.specs.Parting.{IsParted, ArePartsOfReduced};

use crate::fault::ForwardFault;
use crate::reduction::reduced_rows;
use field_word::Modulus;
use integral_index::{Order, Unit};
use out_of_memory::OutOfMemory;
use sparse_row::{Row, copies};
use std::alloc::Global;
use std::marker::Model;
use std::sync::ledger::Ledger;
use step_counter::Steps;

/// The outcome of the forward elimination of a unit: what the unit took (`input`), the rows with a
/// pivot in the unit each (`rows`), and what is left for lesser units (`rest`). Its type keeps that
/// rows and rest are an elimination of the input. Source: hep-ph/0102033.
#[derive(Debug, Drop)]
pub struct Eliminated {
    unit: Unit,
    modulus: Modulus,
    order: Order,
    input: Vec<Row>,
    rows: Vec<Row>,
    rest: Vec<Row>,
}

impl Model for Eliminated {
    ghost use Rattle.sector_forward.specs.Eliminated.{Eliminated as EliminatedValue, eliminated_code};

    ghost Value = { EliminatedValue };

    ghost coded = { eliminated_code };

    ghost use Rattle.sector_forward.specs.KeptEliminated.{shown, IsKept};

    ghost view = { shown };

    ghost invariant = { IsKept };
}

impl Eliminated {
    ghost use Rattle.std.specs.Prelude.{◌≡◌};
    ghost use Rattle.sector_forward.specs.Elimination.{IsElimination};

    /// The unit that was eliminated.
    pub fn unit(&self) -> Unit
        ensures { result ≡ self.now.unit }
    {
        self.unit
    }

    /// The modulus of the coefficients.
    pub fn modulus(&self) -> Modulus
        ensures { result ≡ self.now.modulus }
    {
        self.modulus
    }

    /// The order of the rows.
    pub fn order(&self) -> Order
        ensures { result ≡ self.now.order }
    {
        self.order
    }

    /// The rows that the unit took, as they were given.
    pub fn input(&self) -> &[Row]
        ensures value { result.now ≡ self.now.input }
        ensures elimination { IsElimination self.now.modulus self.now.order self.now.unit self.now.input self.now.rows self.now.rest }
    {
        &self.input
    }

    /// The rows with their pivots in the unit: each pivot is 1, and no other of these rows shows it.
    pub fn rows(&self) -> &[Row]
        ensures value { result.now ≡ self.now.rows }
        ensures elimination { IsElimination self.now.modulus self.now.order self.now.unit self.now.input self.now.rows self.now.rest }
    {
        &self.rows
    }

    /// The rows that show nothing of the unit.
    pub fn rest(&self) -> &[Row]
        ensures value { result.now ≡ self.now.rest }
        ensures elimination { IsElimination self.now.modulus self.now.order self.now.unit self.now.input self.now.rows self.now.rest }
    {
        &self.rest
    }

    /// The input, the rows and the rest, unchanged.
    pub fn into_parts(self) -> (Vec<Row>, Vec<Row>, Vec<Row>)
        ensures input { result.0.items ≡ self.input }
        ensures rows { result.1.items ≡ self.rows }
        ensures rest { result.2.items ≡ self.rest }
        ensures elimination { IsElimination self.modulus self.order self.unit self.input self.rows self.rest }
    {
        (self.input, self.rows, self.rest)
    }
}

/// Eliminates a unit from rows whose greatest integrals are of it.
///
/// The rows are brought into reduced form over all their integrals, not only over those of the unit:
/// so rows and rest together are their one reduced list, and rows of the rest that depend on others vanish.
/// How many terms are left is told in bench/README.md. One step is counted. Source: hep-ph/0102033.
///
/// `Composite` only with a divisor of the modulus that lies between 1 and it.
pub fn eliminate<L: Ledger>(
    alloc: Global,
    unit: Unit,
    rows: Vec<Row>,
    modulus: Modulus,
    steps: &mut Steps<L>,
) -> Result<Eliminated, ForwardFault>
    requires { All (IsTaken modulus (order_of rows.items) unit) rows.items }
    ensures unit { IfOk result (λ e. e.unit ≡ unit) }
    ensures modulus { IfOk result (λ e. e.modulus ≡ modulus) }
    ensures order { IfOk result (λ e. e.order ≡ order_of rows.items) }
    ensures input { IfOk result (λ e. e.input ≡ rows.items) }
    ensures elimination { IfOk result (λ e. IsElimination modulus (order_of rows.items) unit rows.items e.rows e.rest) }
    ensures reduced { IfOk result (λ e. ArePartsOfReduced modulus (order_of rows.items) unit rows.items e.rows e.rest) }
    ensures cause { IfErr result (λ fault. HasCause modulus fault) }
    ensures steps { steps.new ≡ steps.old + 1 }
{
    steps.tick();
    let _p = modulus.value();
    let order = order_of(&rows);
    let taken = copies(alloc, &rows)?;
    let reduced = reduced_rows(alloc, taken, &modulus, order)?;
    let parted = part(alloc, reduced, unit, order)?;
    Ok(Eliminated {
        unit,
        modulus,
        order,
        input: rows,
        rows: parted.own,
        rest: parted.rest,
    })
}

// The order that all the rows have.
fn order_of(rows: &[Row]) -> Order
    ensures { result ≡ order_of rows.now }
{
    match rows {
        [] => Order::Standard,
        [row, ..] => row.order(),
    }
}

// Rows with their pivots in a unit, and rows with their pivots outside it.
#[derive(Drop)]
struct Parted {
    own: Vec<Row>,
    rest: Vec<Row>,
}

// Whether the pivot of the row is in the unit.
fn is_of_unit(row: &Row, unit: Unit, order: Order) -> bool
    requires ordered { row.now.order ≡ order }
    requires pivot { HasPivot order row.now }
    ensures { (x : IntegralValue) → IsPivot order row.now x → IsTrue result ↔ (unit_of x ≡ unit) }
{
    match row.greatest() {
        Some(pivot) => pivot.unit() == unit,
        None => unreachable!(),
    }
}

fn part(alloc: Global, rows: Vec<Row>, unit: Unit, order: Order) -> Result<Parted, OutOfMemory>
    requires rows { (p : ℕ) × All (IsRow p order) rows.items }
    requires pivots { All (HasPivot order) rows.items }
    requires ascend { AllPairs (Ascend order) rows.items }
    ensures { IfOk result (λ parted. IsParted order unit rows.items parted.own.items parted.rest.items) }
{
    let mut parted = Parted {
        own: Vec::new(alloc),
        rest: Vec::new(alloc),
    };
    for row in rows {
        if is_of_unit(&row, unit, order) {
            parted.own.push(row)?;
        } else {
            parted.rest.push(row)?;
        }
    }
    Ok(parted)
}
