//! What the tests of tables, tasks and boards share: rows of small numbers, and boards that go on.

ghost use Rattle.std.specs.Prelude.{◌≡◌, ◌<◌, All, IfOk};
ghost use Rattle.integral_index.specs.declared.Order.TheVariants.{Standard};
ghost use Rattle.sparse_row.specs.Row.{IsRow};

use field_word::Modulus;
use integral_index::{Integral, Order, Unit, is_index_list};
use out_of_memory::OutOfMemory;
use reduction_core::{Board, ForwardFault, Record, Task};
use sparse_row::Row;
use std::alloc::{AllocFailed, Global};
use std::marker::Brand;
use std::sync::ledger::{Blank, Ledger};
use step_counter::Steps;

/// The terms of an equation: indices, of which a test may use the first alone, and coefficients.
pub(crate) type Terms = &'static [([i8; 3], u64)];

/// What a helper of the tests may answer.
#[derive(Debug, Drop)]
pub(crate) enum Wrong {
    Indices,
    Task,
    Multipliers,
    Scan,
    OutOfMemory,
}

impl From<OutOfMemory> for Wrong {
    fn from(_refused: OutOfMemory) -> Wrong {
        Wrong::OutOfMemory
    }
}

impl<T: Drop> From<AllocFailed<T>> for Wrong {
    fn from(_refused: AllocFailed<T>) -> Wrong {
        Wrong::OutOfMemory
    }
}

/// The integral of this family with these indices.
pub(crate) fn integral(alloc: Global, family: u32, indices: &[i8]) -> Result<Integral, Wrong>
    ensures { IfOk result (λ x. x.family ≡ family) }
{
    if !is_index_list(indices) {
        return Err(Wrong::Indices);
    }
    Ok(Integral::new(alloc, family, indices)?)
}

/// The integral of the first family with the first `width` of the indices.
pub(crate) fn cut(alloc: Global, width: usize, indices: &[i8]) -> Result<Integral, Wrong> {
    if width > indices.len() {
        return Err(Wrong::Indices);
    }
    integral(alloc, 0, &indices[..width])
}

/// The row of these terms, each by the first `width` of its indices.
pub(crate) fn row_of(
    alloc: Global,
    width: usize,
    terms: Terms,
    modulus: &Modulus,
) -> Result<Row, Wrong>
    ensures { IfOk result (λ row. IsRow modulus.now Standard row) }
{
    let _p = modulus.value();
    let mut row = Row::new(alloc, Order::Standard);
    for (indices, coefficient) in terms {
        let x = cut(alloc, width, indices)?;
        row.add_term(&x, modulus.reduce(u128::from(*coefficient)), modulus)?;
    }
    Ok(row)
}

/// The rows of these equations.
pub(crate) fn rows_of(
    alloc: Global,
    width: usize,
    equations: &[Terms],
    modulus: &Modulus,
) -> Result<Vec<Row>, Wrong>
    ensures { IfOk result (λ rows. All (IsRow modulus.now Standard) rows.items) }
{
    let mut rows = Vec::new(alloc);
    for equation in equations {
        rows.push(row_of(alloc, width, equation, modulus)?)?;
    }
    Ok(rows)
}

fn done<L: Ledger>(blank: Blank, task: Task) -> Result<(Task, Record), ForwardFault>
    requires name { blank.name ≡ L.name }
    requires parts { blank.parts ≡ L.parts }
    requires some { 0 < L.parts }
{
    let (book, share) = blank.open::<L>();
    let mut steps = Steps::new(book, share);
    task.compute(&mut steps)
}

/// The task with its record.
pub(crate) fn computed(task: Task) -> Result<(Task, Record), Wrong> {
    match done::<Brand>(Blank::new(1), task) {
        Ok(outcome) => Ok(outcome),
        Err(_) => Err(Wrong::Task),
    }
}

/// The board of these equations, whose integrals have the first `width` of the indices.
pub(crate) fn opened(
    alloc: Global,
    width: usize,
    equations: &[Terms],
    modulus: Modulus,
) -> Result<Board, Wrong> {
    let rows = rows_of(alloc, width, equations, &modulus)?;
    Ok(Board::open(alloc, rows, modulus, Order::Standard)?)
}

fn take(board: &mut Board, entry: Record) -> Result<(), Wrong> {
    if !board.accepts(&entry) {
        return Err(Wrong::Task);
    }
    board.apply(entry)?;
    Ok(())
}

/// The event of the unit whose turn it is when the busy ones are passed over.
pub(crate) fn go_on(board: &mut Board, busy: &[Unit]) -> Result<(), Wrong> {
    match board.ready(busy)? {
        Some(task) => {
            let (_task, entry) = computed(task)?;
            take(board, entry)
        }
        None => Err(Wrong::Task),
    }
}

/// So many events, each of the unit whose turn it is.
pub(crate) fn go_on_for(board: &mut Board, events: u32) -> Result<(), Wrong> {
    for _ in 0u32..events {
        go_on(board, &[])?;
    }
    Ok(())
}
