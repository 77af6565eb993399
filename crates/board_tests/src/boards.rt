//! The board, on the triangle and on a two-loop vacuum diagram with no zero sectors. Their equations at
//! d = 7 come from a script apart from the program, and so do the tables and the numbers of orders.

use crate::shared::{Terms, Wrong, go_on, go_on_for, opened, rows_of};
use field_word::Modulus;
use integral_index::Unit;
use reduction_core::{Board, Record, Rows};
use sparse_row::copies;
use std::alloc::Global;
use std::test::Fail;

// The equations of the triangle's corner seed, at s = 5.
const TRIANGLE: [Terms; 3] = [
    &[([0, 1, 2], 100), ([0, 2, 1], 100), ([1, 1, 1], 3)],
    &[
        ([1, 0, 2], 100),
        ([2, 0, 1], 100),
        ([0, 1, 2], 1),
        ([0, 2, 1], 1),
        ([1, 1, 2], 5),
    ],
    &[
        ([1, 2, 0], 1),
        ([2, 1, 0], 1),
        ([0, 1, 2], 100),
        ([0, 2, 1], 100),
        ([1, 2, 1], 96),
    ],
];

const TRIANGLE_TABLE: [Terms; 3] = [
    &[([0, 1, 2], 67), ([0, 2, 1], 67), ([1, 1, 1], 1)],
    &[
        ([1, 0, 2], 20),
        ([2, 0, 1], 20),
        ([0, 1, 2], 81),
        ([0, 2, 1], 81),
        ([1, 1, 2], 1),
    ],
    &[
        ([1, 2, 0], 20),
        ([2, 1, 0], 20),
        ([0, 1, 2], 81),
        ([0, 2, 1], 81),
        ([1, 2, 1], 1),
    ],
];

// The equations of the vacuum's corner seed, at m2 = 3: two massive lines and a massless one.
const VACUUM: [Terms; 4] = [
    &[
        ([1, 0, 2], 1),
        ([0, 1, 2], 100),
        ([1, 1, 1], 4),
        ([2, 1, 1], 95),
    ],
    &[
        ([2, 1, 0], 1),
        ([1, 0, 2], 1),
        ([2, 0, 1], 100),
        ([0, 1, 2], 100),
        ([2, 1, 1], 95),
    ],
    &[
        ([1, 2, 0], 1),
        ([1, 0, 2], 100),
        ([0, 1, 2], 1),
        ([0, 2, 1], 100),
        ([1, 2, 1], 95),
    ],
    &[
        ([1, 0, 2], 100),
        ([0, 1, 2], 1),
        ([1, 1, 1], 4),
        ([1, 2, 1], 95),
    ],
];

const OF_A_SUBSECTOR: Terms = &[
    ([1, 2, 0], 100),
    ([2, 1, 0], 1),
    ([2, 0, 1], 100),
    ([0, 2, 1], 1),
];

const OF_THE_CORNER: Terms = &[([2, 1, 0], 25), ([2, 0, 1], 76), ([1, 1, 1], 1)];

const OF_THE_SECOND_LINE: Terms = &[
    ([2, 1, 0], 84),
    ([1, 0, 2], 17),
    ([2, 0, 1], 17),
    ([0, 1, 2], 84),
    ([1, 2, 1], 1),
];

const OF_THE_FIRST_LINE: Terms = &[
    ([2, 1, 0], 84),
    ([1, 0, 2], 84),
    ([2, 0, 1], 17),
    ([0, 1, 2], 17),
    ([2, 1, 1], 1),
];

const VACUUM_TABLE: [Terms; 4] = [
    OF_A_SUBSECTOR,
    OF_THE_CORNER,
    OF_THE_SECOND_LINE,
    OF_THE_FIRST_LINE,
];

const TOP: Unit = Unit {
    family: 0,
    sector: 7,
};

const LOW: Unit = Unit {
    family: 0,
    sector: 6,
};

fn gives(alloc: Global, board: &Board, wanted: &Rows) -> Result<bool, Wrong> {
    if !board.is_done() {
        return Ok(false);
    }
    let table = board.table()?;
    Ok(Rows::of(copies(alloc, table.rows())?).equals(wanted))
}

// The units for which an event may happen.
fn ready_units(alloc: Global, board: &Board) -> Result<Vec<Unit>, Wrong> {
    let mut units = Vec::new(alloc);
    for _ in 0u32..16 {
        match board.ready(&units)? {
            Some(task) => units.push(task.unit())?,
            None => return Ok(units),
        }
    }
    Err(Wrong::Task)
}

// Which of the units that were ready took its turn, and the one behind it, where there is one.
#[derive(Debug, Drop)]
struct Turn {
    choice: usize,
    next: Option<usize>,
}

fn take_turn(alloc: Global, board: &mut Board, choice: usize) -> Result<Turn, Wrong> {
    let units = ready_units(alloc, board)?;
    if choice >= units.len() {
        return Err(Wrong::Task);
    }
    go_on(board, &units[..choice])?;
    let next = if choice < units.len() - 1 {
        Some(choice + 1)
    } else {
        None
    };
    Ok(Turn { choice, next })
}

// The choice at a place, and behind the choices the first unit.
fn choice_at(choices: &[usize], place: usize) -> usize {
    if place < choices.len() {
        choices[place]
    } else {
        0
    }
}

// The turns of a run with these choices.
fn turns_of(alloc: Global, board: &mut Board, choices: &[usize]) -> Result<Vec<Turn>, Wrong> {
    let mut turns = Vec::new(alloc);
    for place in 0usize..16 {
        if board.is_done() {
            return Ok(turns);
        }
        let turn = take_turn(alloc, board, choice_at(choices, place))?;
        turns.push(turn)?;
    }
    Err(Wrong::Task)
}

// The last place at which another unit was ready.
fn last_open(turns: &[Turn]) -> Option<usize> {
    let mut last = None;
    for place in 0..turns.len() {
        if turns[place].next.is_some() {
            last = Some(place);
        }
    }
    last
}

// The choices before the place, and the next one there.
fn changed_at(alloc: Global, turns: &[Turn], last: usize) -> Result<Vec<usize>, Wrong> {
    let mut choices = Vec::new(alloc);
    for place in 0..turns.len() {
        if place < last {
            choices.push(turns[place].choice)?;
        }
        if place == last {
            choices.push(turns[place].next.unwrap_or(0))?;
        }
    }
    Ok(choices)
}

// A run with these choices ends in the wanted table; what comes back are the choices of the next run.
fn next_run(
    alloc: Global,
    equations: &[Terms],
    wanted: &Rows,
    choices: &[usize],
    modulus: Modulus,
) -> Result<Option<Vec<usize>>, Wrong> {
    let mut board = opened(alloc, 3, equations, modulus)?;
    let turns = turns_of(alloc, &mut board, choices)?;
    if !gives(alloc, &board, wanted)? {
        return Err(Wrong::Task);
    }
    match last_open(&turns) {
        Some(last) => Ok(Some(changed_at(alloc, &turns, last)?)),
        None => Ok(None),
    }
}

// How many orders of events there are, all of which end in the wanted table.
fn orders(
    alloc: Global,
    equations: &[Terms],
    wanted: &[Terms],
    modulus: Modulus,
) -> Result<u32, Wrong> {
    let wanted = Rows::of(rows_of(alloc, 3, wanted, &modulus)?);
    let mut choices = Vec::new(alloc);
    for order in 1u32..200 {
        match next_run(alloc, equations, &wanted, &choices, modulus)? {
            Some(others) => choices = others,
            None => return Ok(order),
        }
    }
    Err(Wrong::Task)
}

// The top's forward rows come first and its back rows last, and the events of its three subsectors
// mix at will: 6! / (2! 2! 2!) orders.
#[test]
fn all_orders_of_the_triangle_end_in_one_table(rt: HostRuntime) -> Result<(), Fail> {
    let p = Modulus::new(101)?;
    assert_eq!(rt; orders(rt.alloc(), &TRIANGLE, &TRIANGLE_TABLE, p)?, 90);
    Ok(())
}

#[test]
fn all_orders_of_the_vacuum_end_in_one_table(rt: HostRuntime) -> Result<(), Fail> {
    let p = Modulus::new(101)?;
    assert_eq!(rt; orders(rt.alloc(), &VACUUM, &VACUUM_TABLE, p)?, 6);
    Ok(())
}

fn has_counts(board: &Board, forward: u64, back: u64) -> bool {
    board.unit_count() == 4 && board.forward_count() == forward && board.back_count() == back
}

// The board of the vacuum, after so many events.
fn vacuum_after(alloc: Global, events: u32) -> Result<Board, Fail> {
    let mut board = opened(alloc, 3, &VACUUM, Modulus::new(101)?)?;
    go_on_for(&mut board, events)?;
    Ok(board)
}

#[test]
fn a_board_counts_its_units(rt: HostRuntime) -> Result<(), Fail> {
    let mut board = vacuum_after(rt.alloc(), 0)?;
    assert!(rt; has_counts(&board, 0, 0));
    go_on_for(&mut board, 3)?;
    assert!(rt; has_counts(&board, 3, 0));
    go_on_for(&mut board, 4)?;
    assert!(rt; has_counts(&board, 4, 3) && !board.is_done());
    Ok(())
}

fn has_nothing_ready(board: &Board) -> Result<bool, Wrong> {
    Ok(board.ready(&[])?.is_none())
}

#[test]
fn a_done_board_has_nothing_ready(rt: HostRuntime) -> Result<(), Fail> {
    let board = vacuum_after(rt.alloc(), 8)?;
    assert!(rt; board.is_done() && has_nothing_ready(&board)?);
    let wanted = Rows::of(rows_of(rt.alloc(), 3, &VACUUM_TABLE, &board.modulus())?);
    assert!(rt; gives(rt.alloc(), &board, &wanted)?);
    Ok(())
}

fn accepts_forward(
    alloc: Global,
    board: &Board,
    unit: Unit,
    rows: &[Terms],
    rest: &[Terms],
) -> Result<bool, Wrong> {
    let p = board.modulus();
    let rows = Rows::of(rows_of(alloc, 3, rows, &p)?);
    let rest = Rows::of(rows_of(alloc, 3, rest, &p)?);
    Ok(board.accepts(&Record::Forward { unit, rows, rest }))
}

fn accepts_back(alloc: Global, board: &Board, rows: &[Terms]) -> Result<bool, Wrong> {
    let p = board.modulus();
    let rows = Rows::of(rows_of(alloc, 3, rows, &p)?);
    Ok(board.accepts(&Record::Back { unit: TOP, rows }))
}

// The forward rows of the vacuum's top. The rest is one row, which is the table's first.
const TOP_ROWS: &[Terms] = &[
    OF_THE_CORNER,
    &[
        ([1, 2, 0], 84),
        ([1, 0, 2], 17),
        ([0, 1, 2], 84),
        ([0, 2, 1], 17),
        ([1, 2, 1], 1),
    ],
    OF_THE_FIRST_LINE,
];

const REST: &[Terms] = &[OF_A_SUBSECTOR];

// A pivot other than 1, a pivot twice, and an integral that no equation shows.
const CHANGED: &[&[Terms]] = &[
    &[&[([1, 1, 1], 2), ([2, 1, 0], 25)]],
    &[OF_THE_CORNER, &[([1, 1, 1], 1)]],
    &[&[([1, 1, 1], 1), ([3, 1, 0], 25)]],
];

fn accepts_some(alloc: Global, board: &Board, changed: &[&[Terms]]) -> Result<bool, Wrong> {
    for rows in changed {
        if accepts_forward(alloc, board, TOP, rows, REST)? {
            return Ok(true);
        }
    }
    Ok(false)
}

#[test]
fn changed_forward_records_are_refused(rt: HostRuntime) -> Result<(), Fail> {
    let board = vacuum_after(rt.alloc(), 0)?;
    assert!(rt; accepts_forward(rt.alloc(), &board, TOP, TOP_ROWS, REST)?);
    assert!(rt; !accepts_some(rt.alloc(), &board, CHANGED)?);
    assert!(rt; !accepts_forward(rt.alloc(), &board, LOW, REST, &[])?);
    Ok(())
}

const BACK_ROWS: &[Terms] = &[OF_THE_CORNER, OF_THE_SECOND_LINE, OF_THE_FIRST_LINE];

const FEWER: &[Terms] = &[OF_THE_CORNER, OF_THE_SECOND_LINE];

// The last row shows an integral that the equations show, and that its back substitution doesn't.
const CHANGED_BACK_ROWS: &[Terms] = &[
    OF_THE_CORNER,
    OF_THE_SECOND_LINE,
    &[([2, 1, 1], 1), ([0, 2, 1], 1)],
];

// All units but the top have back rows after seven events.
#[test]
fn changed_back_records_are_refused(rt: HostRuntime) -> Result<(), Fail> {
    let mut board = vacuum_after(rt.alloc(), 0)?;
    assert!(rt; !accepts_back(rt.alloc(), &board, BACK_ROWS)?);
    go_on_for(&mut board, 4)?;
    assert!(rt; !accepts_back(rt.alloc(), &board, BACK_ROWS)?);
    go_on_for(&mut board, 3)?;
    assert!(rt; accepts_back(rt.alloc(), &board, BACK_ROWS)?);
    assert!(rt; !accepts_back(rt.alloc(), &board, FEWER)?);
    assert!(rt; !accepts_back(rt.alloc(), &board, CHANGED_BACK_ROWS)?);
    Ok(())
}
