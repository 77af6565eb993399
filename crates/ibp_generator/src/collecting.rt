//! Terms, some of which may be of one integral, collected to a row.

ghost use Rattle.std.specs.Prelude.{◌≡◌, ◌%◌, ◌<◌, All, AllPairs, IfOk, OnOk, length, filter, not, ◌==◌};
ghost use Rattle.std.specs.List.Sorted.{IsSorted};
ghost use Rattle.integral_index.specs.Integral.{Integral as IntegralValue};
ghost use Rattle.sparse_row.specs.Row.{coefficient, IsRow};
ghost use Rattle.sparse_row.specs.Terms.{total_at, AllBelow, IsAbove, IsTermList};
ghost use Rattle.ibp_generator.specs.Collecting.{downwards, IsAdded, IsLastRaised, IsNoLess, SameTotals};

use field_word::Modulus;
use integral_index::Order;
use out_of_memory::OutOfMemory;
use sparse_row::{Row, Term};
use std::alloc::Global;

/// The row of a sum of terms: the terms are sorted once, those of one integral are added up, and what
/// becomes 0 is left out.
pub(crate) fn collected(
    alloc: Global,
    terms: Vec<Term>,
    order: Order,
    modulus: &Modulus,
) -> Result<Row, OutOfMemory>
    requires { AllBelow modulus.now terms.items }
    ensures row { IfOk result (IsRow modulus.now order) }
    ensures sums { IfOk result (λ row. (x : IntegralValue) → coefficient row x ≡ total_at x terms.items % modulus.now) }
{
    // A modulus is above 0, and so is what a residue is taken of.
    let _p = modulus.value();
    let mut terms = terms;
    terms.sort_unstable_by(|x, y| order.compare(&y.integral, &x.integral));
    let mut kept = added_up(alloc, &terms, order, modulus)?;
    drop_zeros(&mut kept);
    Ok(Row::from_terms(order, kept))
}

// The terms of a sorted list, those of one integral added up.
fn added_up(
    alloc: Global,
    sorted: &[Term],
    order: Order,
    modulus: &Modulus,
) -> Result<Vec<Term>, OutOfMemory>
    requires sorted { IsSorted (downwards order) sorted.now }
    requires below { AllBelow modulus.now sorted.now }
    ensures descend { IfOk result (λ kept. AllPairs (IsAbove order) kept.items) }
    ensures below { IfOk result (λ kept. AllBelow modulus.now kept.items) }
    ensures totals { IfOk result (λ kept. SameTotals modulus.now kept.items sorted.now) }
{
    let mut kept: Vec<Term> = Vec::new(alloc);
    for term in sorted {
        add_sorted(&mut kept, term, order, modulus)?;
    }
    Ok(kept)
}

// Adds a term that is of the last integral, or comes after it.
fn add_sorted(
    kept: &mut Vec<Term>,
    term: &Term,
    order: Order,
    modulus: &Modulus,
) -> Result<(), OutOfMemory>
    requires descend { AllPairs (IsAbove order) kept.old.items }
    requires below { AllBelow modulus.now kept.old.items }
    requires residue { term.now.coefficient < modulus.now }
    requires no_less { IsNoLess order kept.old.items term.now }
    ensures { OnOk result (IsAdded modulus.now order kept.old.items term.now kept.new.items) }
{
    let length = kept.len();
    if 0 < length
        && order
            .compare(&kept[length - 1].integral, &term.integral)
            .is_eq()
    {
        add_to_last(kept, term.coefficient, modulus);
        return Ok(());
    }
    kept.push(*term)?;
    Ok(())
}

// Adds a coefficient to that of the last term.
fn add_to_last(kept: &mut Vec<Term>, addend: u64, modulus: &Modulus)
    requires some { 0 < length kept.old.items }
    requires below { AllBelow modulus.now kept.old.items }
    requires residue { addend < modulus.now }
    ensures { IsLastRaised modulus.now kept.old.items addend kept.new.items }
{
    let last = kept.len() - 1;
    let sum = modulus.add(kept[last].coefficient, addend);
    kept[last].coefficient = sum;
}

// Drops the terms with coefficient 0.
fn drop_zeros(kept: &mut Vec<Term>)
    ensures { kept.new.items ≡ filter (λ term. not (term.coefficient == 0)) kept.old.items }
{
    kept.retain(|term| term.coefficient != 0);
}
