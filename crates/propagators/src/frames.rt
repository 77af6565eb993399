//! Frames: denominators with what writes a form in them.

ghost use Rattle.std.specs.Prelude.{◌≡◌, ◌+◌, ◌*◌, ◌/◌, ◌%◌, ◌<◌, ◌≤◌, ℕ, List, [], All, Ok, IfOk, IfErr, OnOk, length, map};
ghost use Rattle.std.specs.List.{slice_index_or};
ghost use Rattle.matrix_elimination.specs.Vectors.{IsVector};
ghost use Rattle.propagators.specs.Forms.{IsForm, product_total, product_form, scaled_form};
ghost use Rattle.propagators.specs.Momenta.{unit};
ghost use Rattle.propagators.specs.KeptBasis.{AreDerivatives};
ghost use Rattle.propagators.specs.Denominators.{form_of, IsDenominator};
ghost use Rattle.propagators.specs.Combinations.{IsCombination, AreIndependent, rows_of, constants_of};
ghost use Rattle.propagators.specs.Inverses.{IsInverted};
ghost use Rattle.propagators.specs.Faults.{HasCause};
ghost use Rattle.propagators.specs.Basis.{Basis as BasisValue, IsBasis, IsDerivative, momenta_of, forms_of, derivative_form};

use crate::combinations::Combination;
use crate::denominators::{Denominator, form};
use crate::faults::BasisFault;
use crate::forms::{Form, product_of};
use crate::momenta::{coefficient, residues, unit};
use field_word::Modulus;
use kinematics::Point;
use matrix_elimination::{Eliminated, Vector, eliminate};
use out_of_memory::OutOfMemory;
use std::alloc::Global;
use std::marker::Model;

/// Denominators that are a basis, their forms, and the elimination of these. Contracts see the basis.
#[derive(Debug, Drop)]
pub(crate) struct Frame {
    loops: u32,
    denominators: Vec<Denominator>,
    point: Point,
    modulus: Modulus,
    forms: Vec<Form>,
    elimination: Eliminated,
}

impl Model for Frame {
    ghost use Rattle.propagators.specs.Basis.{Basis as BasisValue};

    ghost Value = { BasisValue };

    ghost use Rattle.propagators.specs.KeptBasis.{shown, IsKept};

    ghost view = { shown };

    ghost invariant = { IsKept };
}

impl Frame {
    /// The number of loop momenta.
    pub(crate) fn loops(&self) -> u32
        ensures { result ≡ self.now.loops }
    {
        self.loops
    }

    /// The number of independent external momenta.
    pub(crate) fn externals(&self) -> u32
        ensures { result ≡ self.now.point.externals }
    {
        self.point.externals()
    }

    /// The number of denominators.
    pub(crate) fn width(&self) -> u32
        ensures value { result ≡ length self.now.denominators }
        ensures basis { IsBasis self.now }
    {
        self.denominators.len() as u32
    }

    /// The combination of the denominators that is this form.
    pub(crate) fn combination(&self, alloc: Global, form: &Form) -> Result<Combination, OutOfMemory>
        requires { IsForm self.now.point.modulus self.now.loops self.now.point.externals form.now }
        ensures is { IfOk result (λ c. IsCombination self.now.point.modulus (forms_of self.now) form.now c) }
        ensures only { IfOk result (λ c. (other : List ℕ) →
            IsCombination self.now.point.modulus (forms_of self.now) form.now other → other ≡ c) }
    {
        Combination::of_form(alloc, form, &self.forms, &self.elimination, &self.modulus)
    }
}

impl Frame {
    /// The frame of these denominators.
    pub(crate) fn new(
        alloc: Global,
        loops: u32,
        denominators: &[Denominator],
        point: &Point,
        modulus: &Modulus,
    ) -> Result<Frame, BasisFault>
        requires modulus { point.now.modulus ≡ modulus.now }
        requires loops_from_1 { 1 ≤ loops }
        requires few_loops { loops ≤ 6 }
        requires count { length denominators.now ≡ product_total loops point.now.externals }
        requires few { length denominators.now ≤ 20 }
        requires denominators { All (IsDenominator modulus.now (loops + point.now.externals)) denominators.now }
        ensures basis { IfOk result (λ frame. frame ≡
            record { loops = loops; denominators = denominators.now; point = point.now }) }
        ensures cause { IfErr result (λ fault.
            HasCause modulus.now (map (form_of loops point.now) denominators.now) fault) }
    {
        let forms = denominator_forms(alloc, loops, denominators, point, modulus)?;
        let rows = rows(alloc, &forms)?;
        let mut elimination = eliminate(alloc, &rows, denominators.len(), modulus)?;
        match elimination.cancelled.pop() {
            Some(vector) => return Err(BasisFault::NotBasis { vector }),
            None => {}
        }
        Ok(Frame {
            loops,
            denominators: copies(alloc, denominators)?,
            point: point.copy(alloc)?,
            modulus: *modulus,
            forms,
            elimination,
        })
    }

    /// The derivatives by the loop momenta, for each of them times the momenta, for each of them of the
    /// denominators.
    pub(crate) fn derivatives(&self, alloc: Global) -> Result<Vec<Combination>, OutOfMemory>
        ensures { IfOk result (λ list. AreDerivatives self.now list.items) }
    {
        let loops = self.loops as usize;
        let momenta = loops + self.point.externals() as usize;
        let width = self.denominators.len();
        let mut derivatives = Vec::new(alloc);
        for place in 0..loops * momenta * width {
            let row = place / width;
            let denominator = &self.denominators[place % width];
            let form = self.derivative(alloc, row / momenta + 1, row % momenta + 1, denominator)?;
            derivatives.push(self.combination(alloc, &form)?)?;
        }
        Ok(derivatives)
    }

    // The derivative of a denominator by a loop momentum, times a momentum, as a form.
    fn derivative(
        &self,
        alloc: Global,
        loop_number: usize,
        momentum_number: usize,
        denominator: &Denominator,
    ) -> Result<Form, OutOfMemory>
        requires loop_from_1 { 1 ≤ loop_number }
        requires loop_within { loop_number ≤ momenta_of self.now }
        requires denominator { IsDenominator self.now.point.modulus (momenta_of self.now) denominator.now }
        ensures value { IfOk result (λ form. form ≡ derivative_form self.now loop_number momentum_number denominator.now) }
        ensures form { IfOk result (λ form. IsForm self.now.point.modulus self.now.loops self.now.point.externals form) }
    {
        match denominator {
            Denominator::Square { momentum, mass: _ } => {
                let momentum = residues(alloc, momentum, &self.modulus)?;
                let alpha = coefficient(&momentum, loop_number);
                let twice = self.modulus.add(alpha, alpha);
                self.multiple(alloc, twice, &momentum, momentum_number)
            }
            Denominator::Bilinear {
                left,
                right,
                mass: _,
            } => {
                let left = residues(alloc, left, &self.modulus)?;
                let right = residues(alloc, right, &self.modulus)?;
                let left_alpha = coefficient(&left, loop_number);
                let right_alpha = coefficient(&right, loop_number);
                let mut sum = self.multiple(alloc, left_alpha, &right, momentum_number)?;
                let other = self.multiple(alloc, right_alpha, &left, momentum_number)?;
                sum.add(&other, &self.modulus);
                Ok(sum)
            }
        }
    }

    // A multiple of the product of a momentum with the one that has this number.
    fn multiple(
        &self,
        alloc: Global,
        factor: u64,
        momentum: &[u64],
        number: usize,
    ) -> Result<Form, OutOfMemory>
        requires factor { factor < self.now.point.modulus }
        requires momentum { IsVector self.now.point.modulus (momenta_of self.now) momentum.now }
        ensures value { IfOk result (λ form. form ≡ scaled_form self.now.point.modulus factor
            (product_form self.now.loops self.now.point momentum.now (unit (momenta_of self.now) number))) }
        ensures form { IfOk result (λ form. IsForm self.now.point.modulus self.now.loops self.now.point.externals form) }
    {
        let other = unit(alloc, momentum.len(), number)?;
        let mut form = product_of(
            alloc,
            momentum,
            &other,
            self.loops,
            &self.point,
            &self.modulus,
        )?;
        form.scale(factor, &self.modulus);
        Ok(form)
    }
}

/// The forms of the denominators in the scalar products at a point, modulo its p.
pub fn denominator_forms(
    alloc: Global,
    loops: u32,
    denominators: &[Denominator],
    point: &Point,
    modulus: &Modulus,
) -> Result<Vec<Form>, OutOfMemory>
    requires modulus { point.now.modulus ≡ modulus.now }
    requires denominators { All (IsDenominator modulus.now (loops + point.now.externals)) denominators.now }
    ensures value { IfOk result (λ forms. forms.items ≡ map (form_of loops point.now) denominators.now) }
    ensures forms { IfOk result (λ forms. All (IsForm modulus.now loops point.now.externals) forms.items) }
{
    let mut forms = Vec::new(alloc);
    for denominator in denominators {
        forms.push(form(alloc, denominator, loops, point, modulus)?)?;
    }
    Ok(forms)
}

// The coefficients of the scalar products in the forms.
fn rows(alloc: Global, forms: &[Form]) -> Result<Vec<Vector>, OutOfMemory>
    ensures { IfOk result (λ rows. rows.items ≡ rows_of forms.now) }
{
    let mut rows = Vec::new(alloc);
    for form in forms {
        rows.push(Vector::new(alloc, form.products())?)?;
    }
    Ok(rows)
}

// The same denominators.
fn copies(alloc: Global, denominators: &[Denominator]) -> Result<Vec<Denominator>, OutOfMemory>
    ensures { IfOk result (λ copies. copies.items ≡ denominators.now) }
{
    let mut copies = Vec::new(alloc);
    for denominator in denominators {
        copies.push(denominator.copy(alloc)?)?;
    }
    Ok(copies)
}
