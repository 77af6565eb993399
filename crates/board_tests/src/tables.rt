//! The worked jobs: their equations are written out from the derivative rule, the triangle's by a
//! script apart from the program, and the values that are wanted come from hand computation.

ghost use Rattle.std.specs.Prelude.{◌≡◌, ◌<◌, length, All, IfOk};
ghost use Rattle.integral_index.specs.declared.Order.TheVariants.{Standard};
ghost use Rattle.sparse_row.specs.Row.{IsRow};
ghost use Rattle.reduction_core.specs.Checks.{IsMultiplierList};

use crate::shared::{Terms, Wrong, cut, row_of, rows_of};
use field_word::Modulus;
use integral_index::{Integral, Order, ZeroSectors, is_index_list};
use out_of_memory::OutOfMemory;
use reduction_core::checks::{is_reduced, normal_form_by_scan};
use reduction_core::{ForwardFault, Table, reduce_plain};
use sparse_row::Row;
use std::alloc::{AllocFailed, Global};
use std::test::Fail;

// The multipliers, one for each row.
fn multipliers(
    alloc: Global,
    numbers: &[u64],
    rows: &[Row],
    modulus: &Modulus,
) -> Result<Vec<u64>, Wrong>
    ensures { IfOk result (λ list. IsMultiplierList modulus.now rows.now list.items) }
{
    if numbers.len() != rows.len() {
        return Err(Wrong::Multipliers);
    }
    let mut list = Vec::new(alloc);
    for number in numbers {
        list.push(modulus.reduce(u128::from(*number)))?;
    }
    Ok(list)
}

fn multiplier_lists(
    alloc: Global,
    lists: &[&[u64]],
    rows: &[Row],
    modulus: &Modulus,
) -> Result<Vec<Vec<u64>>, Wrong>
    ensures lists { IfOk result (λ made. All (λ list. IsMultiplierList modulus.now rows.now list.items) made.items) }
    ensures len { IfOk result (λ made. length made.items ≡ length lists.now) }
{
    let mut made = Vec::new(alloc);
    for numbers in lists {
        made.push(multipliers(alloc, numbers, rows, modulus)?)?;
    }
    Ok(made)
}

// The coefficient of the one integral in the normal form of the other, and how many terms that has,
// which is the same by a scan.
fn value_of(
    alloc: Global,
    table: &Table,
    width: usize,
    x: &[i8],
    master: &[i8],
) -> Result<(u64, usize), Wrong> {
    let x = cut(alloc, width, x)?;
    let master = cut(alloc, width, master)?;
    let zeros = ZeroSectors::new(alloc, &[])?;
    let modulus = table.modulus();
    let p = modulus.value();
    prove!(p > 1);
    let form = table.normal_form(&x, &zeros)?;
    let scanned = normal_form_by_scan(alloc, table.rows(), &x, &zeros, table.order(), &modulus)?;
    if !form.equals(&scanned) {
        return Err(Wrong::Scan);
    }
    Ok((form.coefficient(&master), form.terms().len()))
}

// The terms of a row, each with three indices, of which the first few count.

fn table_of(alloc: Global, width: usize, p: u64, equations: &[Terms]) -> Result<Table, Fail> {
    let modulus = Modulus::new(p)?;
    let rows = rows_of(alloc, width, equations, &modulus)?;
    Ok(reduce_plain(alloc, rows, modulus, Order::Standard)?)
}

// Whether each integral is just its multiple of the integral beside it.
fn has_values(
    alloc: Global,
    table: &Table,
    width: usize,
    values: &[(&[i8], &[i8], u64)],
) -> Result<bool, Wrong> {
    for (x, master, coefficient) in values {
        let (found, terms) = value_of(alloc, table, width, x, master)?;
        if found != *coefficient || terms != 1 {
            return Ok(false);
        }
    }
    Ok(true)
}

// (d - 2a) I(a) = 2 a m2 I(a + 1) at d = 7, m2 = 3, for a = 1 and 2.
const TADPOLE: &[Terms] = &[
    &[([1, 0, 0], 5), ([2, 0, 0], 95)],
    &[([2, 0, 0], 3), ([3, 0, 0], 89)],
];

#[test]
fn the_tadpole_reduces_to_one_master(rt: HostRuntime) -> Result<(), Fail> {
    let table = table_of(rt.alloc(), 1, 101, TADPOLE)?;
    let values: [(&[i8], &[i8], u64); 3] = [(&[1], &[1], 1), (&[2], &[1], 85), (&[3], &[1], 97)];
    assert!(rt; table.rows().len() == 2 && has_values(rt.alloc(), &table, 1, &values)?);
    Ok(())
}

const TADPOLE_TABLE: &[Terms] = &[
    &[([2, 0, 0], 1), ([1, 0, 0], 16)],
    &[([3, 0, 0], 1), ([1, 0, 0], 4)],
];

// Whether the table is shown by multipliers for its rows, and by those that give the equations back.
fn are_shown(alloc: Global, down: &[&[u64]], up: &[&[u64]]) -> Result<bool, Fail> {
    let p = Modulus::new(101)?;
    let equations = rows_of(alloc, 1, TADPOLE, &p)?;
    let table = rows_of(alloc, 1, TADPOLE_TABLE, &p)?;
    if down.len() != table.len() || up.len() != equations.len() {
        return Ok(false);
    }
    let down = multiplier_lists(alloc, down, &equations, &p)?;
    let up = multiplier_lists(alloc, up, &table, &p)?;
    Ok(is_reduced(alloc, &equations, &table, &down, &up, Order::Standard, &p)?)
}

// The inverses of 95 and 89 are 84 and 42, and the multipliers follow.
#[test]
fn the_multipliers_of_the_tadpole_show_its_table(rt: HostRuntime) -> Result<(), Fail> {
    let up: [&[u64]; 2] = [&[95, 0], &[3, 89]];
    assert!(rt; are_shown(rt.alloc(), &[&[84, 0], &[21, 42]], &up)?);
    assert!(rt; !are_shown(rt.alloc(), &[&[84, 0], &[21, 41]], &up)?);
    Ok(())
}

// The divisor by which the modulus is named.
fn divisor_of(alloc: Global, p: u64, equations: &[Terms]) -> Result<Option<u64>, Fail> {
    let modulus = Modulus::new(p)?;
    let rows = rows_of(alloc, 1, equations, &modulus)?;
    match reduce_plain(alloc, rows, modulus, Order::Standard) {
        Err(ForwardFault::Composite(fault)) => Ok(Some(fault.divisor)),
        _ => Ok(None),
    }
}

const BY_15: &[Terms] = &[
    &[([1, 0, 0], 5), ([2, 0, 0], 9)],
    &[([2, 0, 0], 3), ([3, 0, 0], 3)],
];

// Modulo 15 the coefficient 9 of I(2) has no inverse.
#[test]
fn a_composite_modulus_is_named_by_a_divisor(rt: HostRuntime) -> Result<(), Fail> {
    assert!(rt; divisor_of(rt.alloc(), 15, BY_15)? == Some(3));
    Ok(())
}

const BY_25: &[Terms] = &[
    &[([1, 0, 0], 5), ([2, 0, 0], 19)],
    &[([2, 0, 0], 3), ([3, 0, 0], 13)],
];

// Modulo 25 the coefficients 19 and 13 have inverses.
#[test]
fn a_composite_modulus_may_serve(rt: HostRuntime) -> Result<(), Fail> {
    let table = table_of(rt.alloc(), 1, 25, BY_25)?;
    let values: [(&[i8], &[i8], u64); 2] = [(&[2], &[1], 5), (&[3], &[1], 20)];
    assert!(rt; has_values(rt.alloc(), &table, 1, &values)?);
    Ok(())
}

// At d = 7, s = 5: 4 I(1,1) + 5 I(1,2) = 0 and 5 I(2,1) - 5 I(1,2) = 0.
const BUBBLE: &[Terms] = &[
    &[([1, 1, 0], 4), ([1, 2, 0], 5)],
    &[([2, 1, 0], 5), ([1, 2, 0], 96)],
];

#[test]
fn the_bubble_reduces_to_one_master(rt: HostRuntime) -> Result<(), Fail> {
    let table = table_of(rt.alloc(), 2, 101, BUBBLE)?;
    let values: [(&[i8], &[i8], u64); 2] = [(&[1, 2], &[1, 1], 80), (&[2, 1], &[1, 1], 80)];
    assert!(rt; has_values(rt.alloc(), &table, 2, &values)?);
    Ok(())
}

// At d = 7, s = 5, with the zero sectors left out.
const TRIANGLE: &[Terms] = &[
    &[([0, 1, 1], 5), ([-1, 1, 2], 100), ([-1, 2, 1], 100)],
    &[
        ([0, 1, 1], 100),
        ([0, 1, 2], 5),
        ([-1, 1, 2], 1),
        ([-1, 2, 1], 1),
    ],
    &[
        ([0, 1, 1], 1),
        ([0, 2, 1], 96),
        ([-1, 1, 2], 100),
        ([-1, 2, 1], 100),
    ],
    &[([0, 1, 2], 4), ([-1, 1, 3], 99), ([-1, 2, 2], 100)],
    &[
        ([0, 1, 2], 100),
        ([0, 1, 3], 10),
        ([-1, 1, 3], 2),
        ([-1, 2, 2], 1),
    ],
    &[
        ([0, 1, 2], 2),
        ([0, 2, 1], 1),
        ([0, 2, 2], 96),
        ([-1, 1, 3], 99),
        ([-1, 2, 2], 100),
    ],
    &[([0, 2, 1], 4), ([-1, 2, 2], 100), ([-1, 3, 1], 99)],
    &[
        ([0, 1, 2], 100),
        ([0, 2, 1], 99),
        ([0, 2, 2], 5),
        ([-1, 2, 2], 1),
        ([-1, 3, 1], 2),
    ],
    &[
        ([0, 2, 1], 1),
        ([0, 3, 1], 91),
        ([-1, 2, 2], 100),
        ([-1, 3, 1], 99),
    ],
    &[([0, 1, 2], 100), ([0, 2, 1], 100), ([1, 1, 1], 3)],
    &[([0, 1, 2], 1), ([0, 2, 1], 1), ([1, 1, 2], 5)],
    &[([0, 1, 2], 100), ([0, 2, 1], 100), ([1, 2, 1], 96)],
];

#[test]
fn the_triangle_reduces_to_the_bubble_in_it(rt: HostRuntime) -> Result<(), Fail> {
    let table = table_of(rt.alloc(), 3, 101, TRIANGLE)?;
    let values: [(&[i8], &[i8], u64); 4] = [
        (&[0, 1, 1], &[0, 1, 1], 1),
        (&[0, 1, 2], &[0, 1, 1], 80),
        (&[0, 2, 1], &[0, 1, 1], 80),
        (&[1, 1, 1], &[0, 1, 1], 87),
    ];
    assert!(rt; has_values(rt.alloc(), &table, 3, &values)?);
    Ok(())
}

fn is_zero(alloc: Global, table: &Table, sectors: &[u32], x: &[i8]) -> Result<bool, Wrong> {
    let zeros = ZeroSectors::new(alloc, sectors)?;
    let x = cut(alloc, 1, x)?;
    Ok(table.normal_form(&x, &zeros)?.is_empty())
}

// An integral of a zero sector has the empty normal form.
#[test]
fn a_zero_sector_has_no_terms(rt: HostRuntime) -> Result<(), Fail> {
    let table = table_of(rt.alloc(), 1, 101, TADPOLE)?;
    assert!(rt; is_zero(rt.alloc(), &table, &[1], &[3])?);
    Ok(())
}
