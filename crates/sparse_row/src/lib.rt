//! Rows: linear relations among integrals, as finite maps from integrals to residues other than 0.
#![tactic(auto)]

use field_word::{Composite, Modulus};
use integral_index::{Integral, Order};
pub use lists::{copies, push_copies};
use out_of_memory::OutOfMemory;
use std::alloc::Global;
use std::marker::Model;
pub use terms::is_term_list;

pub mod laws;
mod lists;
mod terms;

/// A coefficient, a residue modulo some p, times an integral.
#[derive(Clone, Copy, Debug, PartialEq, Eq)]
pub struct Term {
    /// The integral.
    pub integral: Integral,
    /// The coefficient, in a row from 1 to p - 1.
    pub coefficient: u64,
}

/// A row: a finite map from integrals to residues other than 0, with the order of its job. It shows
/// the integrals that it maps. Source: hep-ph/0102033.
///
/// A row knows no modulus. Each call that computes is given the one that the coefficients are
/// residues of.
#[derive(Debug, Drop)]
pub struct Row {
    order: Order,
    terms: Vec<Term>,
}

// Clauses see the order and the map.
impl Model for Row {
    ghost use Rattle.sparse_row.specs.Row.{Row as RowValue, row_code};

    ghost Value = { RowValue };

    ghost coded = { row_code };

    ghost use Rattle.sparse_row.specs.KeptRow.{shown, IsKept};

    ghost view = { shown };

    ghost invariant = { IsKept };
}

impl Row {
    ghost use Rattle.std.specs.Prelude.{◌≡◌, ◌≢◌, ◌+◌, ◌*◌, ◌%◌, ◌<◌, ◌↔◌, ℕ, Ok, MatchOption, IsTrue, IsOk, IfOk, OnOk, IfErr, OnErr};
    ghost use Rattle.std.specs.Int.{IsGcd};
    ghost use Rattle.field_word.specs.Residues.{IsInverse};
    ghost use Rattle.integral_index.specs.Integral.{Integral as IntegralValue};
    ghost use Rattle.sparse_row.specs.Row.{coefficient, Shows, IsRow, IsEmpty, IsGreatest, IsPivot};
    ghost use Rattle.sparse_row.specs.SumOfTerms.{empty_row, with_term};
    ghost use Rattle.sparse_row.specs.Terms.{total_at, AllBelow, IsTermList, row_of, ArePushed};

    /// The row that shows nothing, in this order. It takes no memory yet.
    pub fn new(alloc: Global, order: Order) -> Row
        ensures value { result ≡ empty_row order }
        ensures empty { IsEmpty result }
        ensures row { (p : ℕ) → 0 < p → IsRow p order result }
    {
        Row {
            order,
            terms: Vec::new(alloc),
        }
    }

    /// The row of these terms, which descend strictly in this order and have no coefficient 0, as
    /// `is_term_list` tests. It takes no memory.
    pub fn from_terms(order: Order, terms: Vec<Term>) -> Row
        requires { IsTermList order terms.items }
        ensures value { result ≡ row_of order terms.items }
        ensures coefficients { (x : IntegralValue) → coefficient result x ≡ total_at x terms.items }
        ensures row { (p : ℕ) → 0 < p → AllBelow p terms.items → IsRow p order result }
    {
        Row { order, terms }
    }

    /// The same row.
    pub fn copy(&self) -> Result<Row, OutOfMemory>
        ensures { IfOk result (λ row. row ≡ self.now) }
    {
        let terms = Vec::from_slice(*self.terms.allocator(), &self.terms)?;
        Ok(Row {
            order: self.order,
            terms,
        })
    }

    /// The order that the row was made with.
    pub fn order(&self) -> Order
        ensures { result ≡ self.now.order }
    {
        self.order
    }

    /// Adds a residue to the coefficient of an integral. Where the sum is 0, the integral is shown no
    /// more. After a refusal the row is as before.
    pub fn add_term(
        &mut self,
        integral: &Integral,
        addend: u64,
        modulus: &Modulus,
    ) -> Result<(), OutOfMemory>
        requires row { IsRow modulus.now self.old.order self.old }
        requires residue { addend < modulus.now }
        ensures value { OnOk result (self.new ≡ with_term modulus.now self.old (integral.now, addend)) }
        ensures sum { OnOk result
            (coefficient self.new integral.now ≡ (coefficient self.old integral.now + addend) % modulus.now) }
        ensures others { OnOk result
            ((x : IntegralValue) → x ≢ integral.now → coefficient self.new x ≡ coefficient self.old x) }
        ensures row { IsRow modulus.now self.old.order self.new }
        ensures err { OnErr result (self.new ≡ self.old) }
    {
        terms::add_term(&mut self.terms, self.order, integral, addend, modulus)
    }

    /// Adds a multiple of another row of the same order. Integrals whose coefficients become 0 are
    /// shown no more; for a composite modulus a product of two coefficients other than 0 may be 0.
    /// After a refusal the row is as before.
    pub fn add_multiple(
        &mut self,
        other: &Row,
        factor: u64,
        modulus: &Modulus,
    ) -> Result<(), OutOfMemory>
        requires row { IsRow modulus.now self.old.order self.old }
        requires other_row { IsRow modulus.now self.old.order other.now }
        requires residue { factor < modulus.now }
        ensures sum { OnOk result ((x : IntegralValue) →
            coefficient self.new x ≡ (coefficient self.old x + factor * coefficient other.now x) % modulus.now) }
        ensures row { IsRow modulus.now self.old.order self.new }
        ensures err { OnErr result (self.new ≡ self.old) }
    {
        let sum = terms::sum_with_multiple(
            *self.terms.allocator(),
            self.order,
            &self.terms,
            &other.terms,
            factor,
            modulus,
        )?;
        self.terms = sum;
        Ok(())
    }

    /// Multiplies all coefficients by the inverse of the greatest integral's, which becomes 1.
    /// `Composite` exactly where that coefficient has no inverse; its divisor is the greatest common
    /// divisor with the modulus, and the row is as before. It takes no memory.
    pub fn normalise(&mut self, modulus: &Modulus) -> Result<(), Composite>
        requires row { IsRow modulus.now self.old.order self.old }
        requires shown { ¬ IsEmpty self.old }
        ensures ok { (x : IntegralValue) → IsGreatest self.old.order self.old x →
            IsOk result ↔ IsGcd (coefficient self.old x) modulus.now 1 }
        ensures scaled { OnOk result ((x : IntegralValue) → IsGreatest self.old.order self.old x →
            (inverse : ℕ) × IsInverse modulus.now (coefficient self.old x) inverse
            × ((y : IntegralValue) → coefficient self.new y ≡ (coefficient self.old y * inverse) % modulus.now)) }
        ensures pivot { OnOk result
            ((x : IntegralValue) → IsGreatest self.old.order self.old x → IsPivot self.old.order self.new x) }
        ensures row { IsRow modulus.now self.old.order self.new }
        ensures divisor { IfErr result (λ fault. (x : IntegralValue) → IsGreatest self.old.order self.old x →
            IsGcd (coefficient self.old x) modulus.now fault.divisor) }
        ensures proper { IfErr result (λ fault. (1 < fault.divisor) × (fault.divisor < modulus.now)) }
        ensures err { OnErr result (self.new ≡ self.old) }
    {
        let inverse = modulus.inverse(self.terms[0].coefficient)?;
        terms::scale(&mut self.terms, inverse, modulus);
        Ok(())
    }

    /// The greatest integral that the row shows; `None` exactly where it is empty.
    pub fn greatest(&self) -> Option<&Integral>
        ensures { MatchOption result (IsEmpty self.now) (λ x. IsGreatest self.now.order self.now x.now) }
    {
        match self.terms.first() {
            Some(term) => Some(&term.integral),
            None => None,
        }
    }

    /// Whether the row shows nothing.
    pub fn is_empty(&self) -> bool
        ensures { IsTrue result ↔ IsEmpty self.now }
    {
        self.terms.is_empty()
    }

    /// The coefficient of an integral, and 0 where the row doesn't show it.
    pub fn coefficient(&self, x: &Integral) -> u64
        ensures { result ≡ coefficient self.now x.now }
    {
        match terms::place_of(&self.terms, self.order, x) {
            Ok(place) => self.terms[place].coefficient,
            Err(_) => 0,
        }
    }

    /// The terms, from the greatest integral to the least. No coefficient is 0.
    pub fn terms(&self) -> &[Term]
        ensures value { row_of self.now.order result.now ≡ self.now }
        ensures list { IsTermList self.now.order result.now }
        ensures coefficients { (x : IntegralValue) → coefficient self.now x ≡ total_at x result.now }
    {
        &self.terms
    }

    /// Appends the integrals that the row shows, from the greatest to the least.
    pub fn push_integrals(&self, integrals: &mut Vec<Integral>) -> Result<(), OutOfMemory>
        ensures { OnOk result (ArePushed self.now integrals.old.items integrals.new.items) }
    {
        let terms = self.terms();
        for term in terms {
            integrals.push(term.integral)?;
        }
        Ok(())
    }

    /// The terms, from the greatest integral to the least, without a copy.
    pub fn into_terms(self) -> Vec<Term>
        ensures value { row_of self.order result.items ≡ self }
        ensures list { IsTermList self.order result.items }
        ensures coefficients { (x : IntegralValue) → coefficient self x ≡ total_at x result.items }
    {
        let Row { order: _, terms } = self;
        terms
    }

    /// Whether both are the same map in the same order.
    pub fn equals(&self, other: &Row) -> bool
        ensures { IsTrue result ↔ (self.now ≡ other.now) }
    {
        self.order == other.order && terms::equal(self.order, &self.terms, &other.terms)
    }
}
