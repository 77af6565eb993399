//! Lists of terms, from the greatest integral to the least.

ghost use Rattle.std.specs.Prelude.{◌≡◌, ◌≢◌, ◌+◌, ◌*◌, ◌%◌, ◌<◌, ◌≤◌, ◌↔◌, ◌++◌, ℕ, map, length, take, drop, All, AllPairs, IsTrue, IfOk, IfErr, OnOk, OnErr};
ghost use Rattle.std.specs.List.{slice_index_or, flat_map};
ghost use Rattle.std.specs.declared.cmp.Ordering.TheVariants.{Less, Greater};
ghost use Rattle.integral_index.specs.Integral.{Integral as IntegralValue};
ghost use Rattle.integral_index.specs.Order.{compare};
ghost use Rattle.sparse_row.specs.Terms.{total_at, IsAbove, IsTermList, AllBelow, scaled_term, summed_term, kept_term};
ghost use Rattle.sparse_row.specs.declared.Term.{Term as TermValue};

use crate::Term;
use field_word::Modulus;
use integral_index::{Integral, Order};
use out_of_memory::OutOfMemory;
use std::alloc::Global;
use std::cmp::Ordering;

/// Whether a row of this order may have these terms: their integrals descend strictly, and no
/// coefficient is 0.
pub fn is_term_list(order: Order, terms: &[Term]) -> bool
    ensures { IsTrue result ↔ IsTermList order terms.now }
{
    has_no_zero(terms) && descends(order, terms)
}

fn has_no_zero(terms: &[Term]) -> bool
    ensures { IsTrue result ↔ All (λ term. term.coefficient ≢ 0) terms.now }
{
    terms.iter().all(|term| term.coefficient != 0)
}

fn descends(order: Order, terms: &[Term]) -> bool
    ensures { IsTrue result ↔ AllPairs (IsAbove order) terms.now }
{
    for i in 1..terms.len() {
        if !is_above(order, &terms[i - 1], &terms[i]) {
            return false;
        }
    }
    true
}

fn is_above(order: Order, term: &Term, other: &Term) -> bool
    ensures { IsTrue result ↔ IsAbove order term.now other.now }
{
    order.compare(&term.integral, &other.integral).is_gt()
}

// The place of the term of x, or the place where one would have to stand.
pub(crate) fn place_of(terms: &[Term], order: Order, x: &Integral) -> Result<usize, usize>
    requires { IsTermList order terms.now }
    ensures found { IfOk result (λ place. (place < length terms.now)
        × ((d : TermValue) → (slice_index_or terms.now place d).integral ≡ x.now)) }
    ensures absent { IfErr result (λ place. (place ≤ length terms.now)
        × All (λ term. compare order term.integral x.now ≡ Greater) (take place terms.now)
        × All (λ term. compare order term.integral x.now ≡ Less) (drop place terms.now)) }
{
    let mut low = 0;
    let mut high = terms.len();
    while low < high {
        let middle = low + (high - low) / 2;
        match order.compare(&terms[middle].integral, x) {
            Ordering::Greater => low = middle + 1,
            Ordering::Equal => return Ok(middle),
            Ordering::Less => high = middle,
        }
    }
    Err(low)
}

// Adds a residue to the coefficient of an integral.
pub(crate) fn add_term(
    terms: &mut Vec<Term>,
    order: Order,
    integral: &Integral,
    addend: u64,
    modulus: &Modulus,
) -> Result<(), OutOfMemory>
    requires list { IsTermList order terms.old.items }
    requires below { AllBelow modulus.now terms.old.items }
    requires residue { addend < modulus.now }
    ensures list { IsTermList order terms.new.items }
    ensures below { AllBelow modulus.now terms.new.items }
    ensures sum { OnOk result
        (total_at integral.now terms.new.items ≡ (total_at integral.now terms.old.items + addend) % modulus.now) }
    ensures others { OnOk result
        ((x : IntegralValue) → x ≢ integral.now → total_at x terms.new.items ≡ total_at x terms.old.items) }
    ensures err { OnErr result (terms.new.items ≡ terms.old.items) }
{
    match place_of(terms, order, integral) {
        Ok(place) => {
            let sum = modulus.add(terms[place].coefficient, addend);
            if sum == 0 {
                terms.remove(place);
            } else {
                terms[place].coefficient = sum;
            }
        }
        Err(place) => {
            if addend != 0 {
                let term = Term {
                    integral: *integral,
                    coefficient: addend,
                };
                terms.insert(place, term)?;
            }
        }
    }
    Ok(())
}

// The terms plus a multiple of the others, by one merge of the two lists.
pub(crate) fn sum_with_multiple(
    alloc: Global,
    order: Order,
    terms: &[Term],
    others: &[Term],
    factor: u64,
    modulus: &Modulus,
) -> Result<Vec<Term>, OutOfMemory>
    requires list { IsTermList order terms.now }
    requires below { AllBelow modulus.now terms.now }
    requires other_list { IsTermList order others.now }
    requires other_below { AllBelow modulus.now others.now }
    requires residue { factor < modulus.now }
    ensures list { IfOk result (λ sum. IsTermList order sum.items) }
    ensures below { IfOk result (λ sum. AllBelow modulus.now sum.items) }
    ensures sum { IfOk result (λ sum. (x : IntegralValue) →
        total_at x sum.items ≡ (total_at x terms.now + factor * total_at x others.now) % modulus.now) }
{
    let mut sum = Vec::with_capacity(alloc, terms.len() + others.len())?;
    let mut i = 0;
    let mut j = 0;
    while i < terms.len() && j < others.len() {
        let term = &terms[i];
        let other = &others[j];
        match order.compare(&term.integral, &other.integral) {
            Ordering::Greater => {
                sum.push(*term)?;
                i += 1;
            }
            Ordering::Equal => {
                push_nonzero(&mut sum, sum_of_terms(term, other, factor, modulus))?;
                i += 1;
                j += 1;
            }
            Ordering::Less => {
                push_nonzero(&mut sum, multiple_of(other, factor, modulus))?;
                j += 1;
            }
        }
    }
    sum.extend_from_slice(&terms[i..])?;
    push_multiples(&mut sum, &others[j..], factor, modulus)?;
    Ok(sum)
}

// Appends the multiples of the others, except those that are 0.
fn push_multiples(
    sum: &mut Vec<Term>,
    others: &[Term],
    factor: u64,
    modulus: &Modulus,
) -> Result<(), OutOfMemory>
    requires below { AllBelow modulus.now others.now }
    requires residue { factor < modulus.now }
    ensures { OnOk result (sum.new.items
        ≡ sum.old.items ++ flat_map (λ other. kept_term (scaled_term modulus.now factor other)) others.now) }
{
    for other in others {
        push_nonzero(sum, multiple_of(other, factor, modulus))?;
    }
    Ok(())
}

// Appends a term, unless its coefficient is 0.
fn push_nonzero(sum: &mut Vec<Term>, term: Term) -> Result<(), OutOfMemory>
    ensures { OnOk result (sum.new.items ≡ sum.old.items ++ kept_term term) }
{
    if term.coefficient != 0 {
        sum.push(term)?;
    }
    Ok(())
}

fn multiple_of(term: &Term, factor: u64, modulus: &Modulus) -> Term
    requires coefficient { term.now.coefficient < modulus.now }
    requires residue { factor < modulus.now }
    ensures { result ≡ scaled_term modulus.now factor term.now }
{
    Term {
        integral: term.integral,
        coefficient: modulus.mul(term.coefficient, factor),
    }
}

// The term plus a multiple of another of the same integral.
fn sum_of_terms(term: &Term, other: &Term, factor: u64, modulus: &Modulus) -> Term
    requires coefficient { term.now.coefficient < modulus.now }
    requires other_coefficient { other.now.coefficient < modulus.now }
    requires residue { factor < modulus.now }
    ensures { result ≡ summed_term modulus.now factor term.now other.now }
{
    let product = modulus.mul(other.coefficient, factor);
    Term {
        integral: term.integral,
        coefficient: modulus.add(term.coefficient, product),
    }
}

// Multiplies each coefficient by a residue.
pub(crate) fn scale(terms: &mut Vec<Term>, factor: u64, modulus: &Modulus)
    requires below { AllBelow modulus.now terms.old.items }
    requires residue { factor < modulus.now }
    ensures { terms.new.items ≡ map (λ term. scaled_term modulus.now factor term) terms.old.items }
{
    for i in 0..terms.len() {
        let term = &mut terms[i];
        term.coefficient = modulus.mul(term.coefficient, factor);
    }
}

// Whether the two lists are the same.
pub(crate) fn equal(order: Order, terms: &[Term], others: &[Term]) -> bool
    ensures { IsTrue result ↔ (terms.now ≡ others.now) }
{
    if terms.len() != others.len() {
        return false;
    }
    for i in 0..terms.len() {
        if !is_same(order, &terms[i], &others[i]) {
            return false;
        }
    }
    true
}

fn is_same(order: Order, term: &Term, other: &Term) -> bool
    ensures { IsTrue result ↔ (term.now ≡ other.now) }
{
    term.coefficient == other.coefficient && order.compare(&term.integral, &other.integral).is_eq()
}
