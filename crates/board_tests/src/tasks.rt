//! Tasks, their records, and the records that a board accepts, on rows that are small enough to reduce by hand.
//! The integrals [2, 1] and [1, 1] are of sector 3, [0, 1] is of sector 2 and [1, 0] of sector 1; each is above
//! those behind it.

use crate::shared::{Terms, Wrong, computed, go_on_for, opened, rows_of};
use field_word::Modulus;
use integral_index::Unit;
use out_of_memory::OutOfMemory;
use reduction_core::{Board, Record, Rows, Task};
use std::alloc::Global;
use std::test::Fail;

const TOP: Unit = Unit {
    family: 0,
    sector: 3,
};

// The board of these equations after so many events.
fn board_after(
    alloc: Global,
    equations: &[Terms],
    events: u32,
    modulus: Modulus,
) -> Result<Board, Wrong> {
    let mut board = opened(alloc, 2, equations, modulus)?;
    go_on_for(&mut board, events)?;
    Ok(board)
}

fn next_task(board: &Board) -> Result<Task, Wrong> {
    match board.ready(&[])? {
        Some(task) => Ok(task),
        None => Err(Wrong::Task),
    }
}

// The first task of these equations: to eliminate the greatest unit.
fn forward_task(alloc: Global, equations: &[Terms], modulus: Modulus) -> Result<Task, Wrong> {
    let board = board_after(alloc, equations, 0, modulus)?;
    next_task(&board)
}

// The last task of equations of three units: to substitute in the greatest.
fn back_task(alloc: Global, equations: &[Terms], modulus: Modulus) -> Result<Task, Wrong> {
    let board = board_after(alloc, equations, 5, modulus)?;
    next_task(&board)
}

fn are(alloc: Global, rows: &Rows, wanted: &[Terms], modulus: &Modulus) -> Result<bool, Wrong> {
    Ok(rows.equals(&Rows::of(rows_of(alloc, 2, wanted, modulus)?)))
}

fn is_forward(
    alloc: Global,
    entry: &Record,
    wanted_rows: &[Terms],
    wanted_rest: &[Terms],
    modulus: &Modulus,
) -> Result<bool, Wrong> {
    match entry {
        Record::Forward { unit, rows, rest } => Ok(
            *unit == TOP
                && are(alloc, rows, wanted_rows, modulus)?
                && are(alloc, rest, wanted_rest, modulus)?,
        ),
        Record::Back { .. } => Ok(false),
    }
}

fn is_back(
    alloc: Global,
    entry: &Record,
    wanted: &[Terms],
    modulus: &Modulus,
) -> Result<bool, Wrong> {
    match entry {
        Record::Forward { .. } => Ok(false),
        Record::Back { unit, rows } => Ok(*unit == TOP && are(alloc, rows, wanted, modulus)?),
    }
}

const ALIKE: &[Terms] = &[
    &[([2, 1, 0], 1), ([1, 0, 0], 1)],
    &[([2, 1, 0], 1), ([1, 0, 0], 3)],
];

// The difference of the two rows is 2 times [1, 0].
#[test]
fn a_forward_task_gives_its_rows_and_the_rest(rt: HostRuntime) -> Result<(), Fail> {
    let alloc = rt.alloc();
    let p = Modulus::new(101)?;
    let (task, entry) = computed(forward_task(alloc, ALIKE, p)?)?;
    let (rows, rest): ([Terms; 1], [Terms; 1]) = ([&[([2, 1, 0], 1)]], [&[([1, 0, 0], 1)]]);
    assert!(rt; task.unit() == TOP && is_forward(alloc, &entry, &rows, &rest, &p)?);
    Ok(())
}

const BELOW: &[Terms] = &[
    &[([1, 1, 0], 1), ([0, 1, 0], 5), ([1, 0, 0], 7)],
    &[([0, 1, 0], 1), ([1, 0, 0], 4)],
];

const OTHER_BELOW: &[Terms] = &[
    &[([1, 1, 0], 1), ([0, 1, 0], 5), ([1, 0, 0], 7)],
    &[([0, 1, 0], 1), ([1, 0, 0], 3)],
];

// 5 times the row below takes 5 * 4 = 20 of [1, 0] away, and 7 - 20 = 88 modulo 101.
#[test]
fn a_back_task_gives_its_rows(rt: HostRuntime) -> Result<(), Fail> {
    let alloc = rt.alloc();
    let p = Modulus::new(101)?;
    let (_task, entry) = computed(back_task(alloc, BELOW, p)?)?;
    let rows: [Terms; 1] = [&[([1, 1, 0], 1), ([1, 0, 0], 88)]];
    assert!(rt; entry.unit() == TOP && is_back(alloc, &entry, &rows, &p)?);
    Ok(())
}

fn is_as_its_copy(task: &Task) -> Result<bool, OutOfMemory> {
    let copy = task.copy()?;
    Ok(task.same(&copy))
}

#[test]
fn a_task_is_the_same_as_its_copy_alone(rt: HostRuntime) -> Result<(), Fail> {
    let alloc = rt.alloc();
    let p = Modulus::new(101)?;
    let task = back_task(alloc, BELOW, p)?;
    assert!(rt; is_as_its_copy(&task)?);
    let other = back_task(alloc, OTHER_BELOW, p)?;
    let forward = forward_task(alloc, BELOW, p)?;
    assert!(rt; !task.same(&other) && !task.same(&forward));
    Ok(())
}

// Whether the board accepts these rows and this rest of the greatest unit, written by a modulus of their own.
fn accepts_forward(
    alloc: Global,
    board: &Board,
    rows: &[Terms],
    rest: &[Terms],
    written: &Modulus,
) -> Result<bool, Wrong> {
    let rows = Rows::of(rows_of(alloc, 2, rows, written)?);
    let rest = Rows::of(rows_of(alloc, 2, rest, written)?);
    Ok(board.accepts(&Record::Forward {
        unit: TOP,
        rows,
        rest,
    }))
}

fn accepts_back(alloc: Global, board: &Board, rows: &[Terms]) -> Result<bool, Wrong> {
    let rows = Rows::of(rows_of(alloc, 2, rows, &board.modulus())?);
    Ok(board.accepts(&Record::Back { unit: TOP, rows }))
}

// Two equations of the greatest unit, which show all of the integrals.
const SHOWN: &[Terms] = &[
    &[([2, 1, 0], 1), ([0, 1, 0], 1), ([1, 0, 0], 1)],
    &[([1, 1, 0], 1)],
];

const RULES: &[Terms] = &[&[([2, 1, 0], 1), ([1, 0, 0], 7)], &[([1, 1, 0], 1)]];

// A pivot twice, one that another row shows, one other than 1, and one of a lesser unit.
const NO_RULES: &[&[Terms]] = &[
    &[&[([1, 1, 0], 1), ([1, 0, 0], 7)], &[([1, 1, 0], 1)]],
    &[&[([2, 1, 0], 1), ([1, 1, 0], 7)], &[([1, 1, 0], 1)]],
    &[&[([1, 1, 0], 2)]],
    &[&[([0, 1, 0], 1)]],
];

fn accepts_one(alloc: Global, board: &Board, lists: &[&[Terms]]) -> Result<bool, Wrong> {
    for rows in lists {
        if accepts_forward(alloc, board, rows, &[], &board.modulus())? {
            return Ok(true);
        }
    }
    Ok(false)
}

#[test]
fn rules_have_pivots_of_their_own(rt: HostRuntime) -> Result<(), Fail> {
    let p = Modulus::new(101)?;
    let board = board_after(rt.alloc(), SHOWN, 0, p)?;
    assert!(rt; accepts_forward(rt.alloc(), &board, RULES, &[], &p)?);
    assert!(rt; !accepts_one(rt.alloc(), &board, NO_RULES)?);
    Ok(())
}

const TAKEN: &[Terms] = &[&[([1, 1, 0], 3), ([1, 0, 0], 2)]];

const PIVOT: &[Terms] = &[&[([1, 1, 0], 1)]];

const FOREIGN: &[Terms] = &[&[([0, 1, 0], 1)]];

// Whether the pivot's row and this rest, written by a modulus of its own, are accepted for the row that is taken.
fn is_rest(alloc: Global, rest: &[Terms], written: &Modulus, p: Modulus) -> Result<bool, Wrong> {
    let board = board_after(alloc, TAKEN, 0, p)?;
    accepts_forward(alloc, &board, PIVOT, rest, written)
}

// The coefficient 101 is a residue modulo 103. An empty row is no rest, and [0, 1] isn't shown by what is taken.
#[test]
fn rows_and_rest_come_from_the_taken_rows(rt: HostRuntime) -> Result<(), Fail> {
    let (p, large) = (Modulus::new(101)?, Modulus::new(103)?);
    let wide: [Terms; 1] = [&[([1, 0, 0], 101)]];
    assert!(rt; !is_rest(rt.alloc(), &wide, &large, p)?);
    assert!(rt; is_rest(rt.alloc(), &wide, &large, large)?);
    assert!(rt; !is_rest(rt.alloc(), &[&[]], &p, p)?);
    assert!(rt; !is_rest(rt.alloc(), FOREIGN, &p, p)?);
    Ok(())
}

const FORWARD_ROWS: &[Terms] = &[&[([2, 1, 0], 1)], &[([1, 1, 0], 1), ([0, 1, 0], 5)]];

// The forward rows, with a rule for the lesser unit.
const WITH_A_RULE_BELOW: &[Terms] = &[
    &[([2, 1, 0], 1)],
    &[([1, 1, 0], 1), ([0, 1, 0], 5)],
    &[([0, 1, 0], 1), ([1, 0, 0], 4)],
];

const BACK_ROWS: &[Terms] = &[&[([1, 1, 0], 1), ([1, 0, 0], 88)], &[([2, 1, 0], 1)]];

// They have the pivots of the forward rows, and show none of the unit below.
#[test]
fn back_rows_have_the_pivots_of_the_forward_rows(rt: HostRuntime) -> Result<(), Fail> {
    let board = board_after(rt.alloc(), WITH_A_RULE_BELOW, 5, Modulus::new(101)?)?;
    assert!(rt; accepts_back(rt.alloc(), &board, BACK_ROWS)?);
    assert!(rt; !accepts_back(rt.alloc(), &board, &[&[([2, 1, 0], 1)]])?);
    assert!(rt; !accepts_back(rt.alloc(), &board, FORWARD_ROWS)?);
    Ok(())
}
