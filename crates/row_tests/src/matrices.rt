ghost use Rattle.std.specs.Prelude.{◌<◌, All, IsTrue};
ghost use Rattle.matrix_elimination.specs.Vectors.{IsVector};

use field_word::{Composite, Modulus};
use matrix_elimination::{
    Eliminated, EliminationFault, Solved, SystemFault, Vector, dot, eliminate, solve,
};
use std::alloc::Global;
use std::test::Fail;

fn rows_of(alloc: Global, entries: &[&[u64]]) -> Result<Vec<Vector>, Fail> {
    let mut rows = Vec::new(alloc);
    for row in entries {
        rows.push(Vector::new(alloc, row)?)?;
    }
    Ok(rows)
}

fn are_residues(entries: &[u64], modulus: &Modulus) -> bool
    ensures { IsTrue result → All (λ x. x < modulus.now) entries.now }
{
    let p = modulus.value();
    for place in 0..entries.len() {
        if entries[place] >= p {
            return false;
        }
    }
    true
}

fn are_rows(rows: &[Vector], width: usize, modulus: &Modulus) -> bool
    ensures { IsTrue result → All (IsVector modulus.now width) rows.now }
{
    for place in 0..rows.len() {
        let entries = rows[place].entries();
        if entries.len() != width || !are_residues(entries, modulus) {
            return false;
        }
    }
    true
}

fn elimination_of(
    alloc: Global,
    entries: &[&[u64]],
    width: usize,
    p: u64,
) -> Result<Result<Eliminated, EliminationFault>, Fail> {
    let modulus = Modulus::new(p)?;
    let rows = rows_of(alloc, entries)?;
    if !are_rows(&rows, width, &modulus) {
        return Err("not such rows")?;
    }
    Ok(eliminate(alloc, &rows, width, &modulus))
}

fn solution_of(
    alloc: Global,
    entries: &[&[u64]],
    values: &[u64],
    width: usize,
    p: u64,
) -> Result<Result<Vector, SystemFault>, Fail> {
    let modulus = Modulus::new(p)?;
    let rows = rows_of(alloc, entries)?;
    if !are_rows(&rows, width, &modulus)
        || !are_residues(values, &modulus)
        || values.len() != rows.len()
    {
        return Err("not such a system")?;
    }
    Ok(solve(alloc, &rows, values, width, &modulus))
}

fn found<'a>(sums: &'a Vec<Option<Solved>>, column: usize) -> Result<&'a Solved, Fail> {
    if column >= sums.len() {
        return Err("no such column")?;
    }
    match &sums[column] {
        Some(sum) => Ok(sum),
        None => Err("an open column")?,
    }
}

#[test]
fn inverts_a_matrix(rt: HostRuntime) -> Result<(), Fail> {
    // the determinant of (1 2, 3 7) is 1, so its inverse is (7 -2, -3 1)
    for p in [101, 11, 15] {
        let e = elimination_of(rt.alloc(), &[&[1, 2], &[3, 7]], 2, p)??;
        let first = found(&e.solved, 0)?;
        assert_eq!(rt; first.entries.entries(), [1, 0].as_slice());
        assert_eq!(rt;
            first.multipliers.entries(),
            [7, p - 2].as_slice(),
            "modulo {p}"
        );
        let second = found(&e.solved, 1)?;
        assert_eq!(rt; second.entries.entries(), [0, 1].as_slice());
        assert_eq!(rt;
            second.multipliers.entries(),
            [p - 3, 1].as_slice(),
            "modulo {p}"
        );
        assert!(rt; e.cancelled.is_empty());
    }
    Ok(())
}

#[test]
fn keeps_multipliers_under_which_rows_cancel(rt: HostRuntime) -> Result<(), Fail> {
    // the first row is twice the second plus the third, the third column is the sum of the others
    let e = elimination_of(rt.alloc(), &[&[2, 1, 3], &[1, 0, 1], &[0, 1, 1]], 3, 101)??;
    assert_eq!(rt; e.cancelled.len(), 1);
    for multipliers in &e.cancelled {
        assert_eq!(rt; multipliers.entries(), [1, 99, 100].as_slice());
    }
    assert_eq!(rt; e.solved.iter().filter(|sum| sum.is_some()).count(), 2);
    Ok(())
}

#[test]
fn names_a_divisor_of_a_composite_modulus(rt: HostRuntime) -> Result<(), Fail> {
    let fault = elimination_of(rt.alloc(), &[&[0, 5]], 2, 15)?
        .err()
        .ok_or("no fault")?;
    assert_eq!(rt;
        fault,
        EliminationFault::Composite(Composite { divisor: 5 })
    );
    // 2 has the inverse 8
    let e = elimination_of(rt.alloc(), &[&[0, 2]], 2, 15)??;
    assert_eq!(rt; found(&e.solved, 1)?.multipliers.entries(), [8].as_slice());
    Ok(())
}

#[test]
fn solves_systems(rt: HostRuntime) -> Result<(), Fail> {
    // x + 2 y = 4 and 3 x + 7 y = 15 at x = -2, y = 3
    for p in [101, 11, 15] {
        let xs = solution_of(rt.alloc(), &[&[1, 2], &[3, 7]], &[4, 15 % p], 2, p)?
            .ok()
            .ok_or("none")?;
        assert_eq!(rt;
            xs.into_vec().as_slice(),
            [p - 2, 3].as_slice(),
            "modulo {p}"
        );
    }
    let none = solution_of(rt.alloc(), &[], &[], 0, 3)?.ok().ok_or("none")?;
    assert_eq!(rt; none.into_vec().len(), 0);
    Ok(())
}

#[test]
fn tells_what_speaks_against_a_solution(rt: HostRuntime) -> Result<(), Fail> {
    // twice the first row is the second
    match solution_of(rt.alloc(), &[&[1, 3], &[2, 6]], &[1, 5], 2, 101)? {
        Err(
            SystemFault::Clash {
                multipliers,
                residue,
            },
        ) => {
            // the first minus half the second: 1 - 5 / 2 = -3 / 2, and 1 / 2 is 51
            assert_eq!(rt; multipliers.entries(), [1, 50].as_slice());
            assert_eq!(rt; residue, 49);
        }
        _ => return Err("no clash")?,
    }
    match solution_of(rt.alloc(), &[&[1, 3], &[2, 6]], &[1, 2], 2, 101)? {
        // x + 3 y vanishes at (1, -1/3), and 1 / 3 is 34
        Err(SystemFault::Open { vector }) => {
            assert_eq!(rt; vector.entries(), [1, 67].as_slice());
        }
        _ => return Err("nothing is open")?,
    }
    match solution_of(rt.alloc(), &[&[9]], &[1], 1, 15)? {
        Err(SystemFault::Composite(composite)) => {
            assert_eq!(rt; composite, Composite { divisor: 3 });
        }
        _ => return Err("no divisor")?,
    }
    Ok(())
}

#[test]
fn multiplies_vectors(rt: HostRuntime) -> Result<(), Fail> {
    let modulus = Modulus::new(101)?;
    let left = Vector::from_vec([7, 100, 5].to_vec(rt.alloc())?);
    let right = [50, 100];
    if are_residues(left.entries(), &modulus) && are_residues(&right, &modulus) {
        // 350 + 1 modulo 101
        assert_eq!(rt; dot(left.entries(), &right, &modulus), 48);
        return Ok(());
    }
    Err("not residues")?
}
