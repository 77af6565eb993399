//! The board against the elimination of all equations in one list: both give the same table.

ghost use Rattle.std.specs.Prelude.{◌≡◌, ◌<◌};

use crate::calls::held;
use crate::jobs::{BOX, BUBBLE, Files, LISTED_TRIANGLE, TADPOLE, TRIANGLE, TWO_TADPOLES, VACUUM};
use job_plan::Plan;
use kira_app::{Status, run_alone, sources};
use reduction_core::{Board, Table, reduce_plain};
use sparse_row::Row;
use std::alloc::Global;
use std::marker::Brand;
use std::sync::ledger::{Blank, Ledger};
use std::test::Fail;
use step_counter::Steps;

fn plan_of(alloc: Global, files: &Files) -> Result<Plan, Fail> {
    let mut held = held(alloc, files, Vec::new(alloc))?;
    let sources = sources(alloc, "jobs.yaml", &[], &mut held)?;
    Ok(sources.plan(&[])?)
}

fn by_the_board<L: Ledger>(alloc: Global, plan: &Plan, blank: Blank) -> Result<Table, Status>
    requires name { blank.name ≡ L.name }
    requires parts { blank.parts ≡ L.parts }
    requires some { 0 < L.parts }
{
    let (book, share) = blank.open::<L>();
    let mut board = Board::open(alloc, plan.equations()?, plan.modulus(), plan.order())?;
    run_alone(&mut board, plan.modulus(), &mut Steps::new(book, share))?;
    Ok(board.table()?)
}

fn are_same(rows: &[Row], others: &[Row]) -> bool {
    if rows.len() != others.len() {
        return false;
    }
    for place in 0..rows.len() {
        if !rows[place].equals(&others[place]) {
            return false;
        }
    }
    true
}

const JOBS: &[Files] = &[
    TADPOLE,
    TWO_TADPOLES,
    BUBBLE,
    TRIANGLE,
    LISTED_TRIANGLE,
    BOX,
    VACUUM,
];

// Whether the board gives just the rows of this table, which are some.
fn is_by_the_board(alloc: Global, plan: &Plan, plain: &Table) -> Result<bool, Fail> {
    let table = by_the_board::<Brand>(alloc, plan, Blank::new(1))?;
    Ok(!plain.rows().is_empty() && are_same(table.rows(), plain.rows()))
}

fn both_agree(alloc: Global, files: &Files) -> Result<bool, Fail> {
    let plan = plan_of(alloc, files)?;
    let plain = reduce_plain(alloc, plan.equations()?, plan.modulus(), plan.order())?;
    is_by_the_board(alloc, &plan, &plain)
}

#[test]
fn the_board_gives_the_table_of_one_list(rt: HostRuntime) -> Result<(), Fail> {
    for files in JOBS {
        let is_right = both_agree(rt.alloc(), files)?;
        assert!(rt; is_right, "{}", files.jobs);
    }
    Ok(())
}
