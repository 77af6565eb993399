//! Denominators and their forms.

ghost use Rattle.std.specs.Prelude.{◌≡◌, ◌↔◌, ◌+◌, All, IsTrue, IfOk, length};
ghost use Rattle.propagators.specs.Denominators.{form_of, image_of, IsDenominator};
ghost use Rattle.propagators.specs.Forms.{IsForm};

use crate::forms::{Form, product, product_of};
use crate::images::{image_residues, replaced};
use field_word::Modulus;
use kinematics::Point;
use momentum_sums::Momentum;
use out_of_memory::OutOfMemory;
use std::alloc::Global;

/// A denominator over loop momenta, then independent external ones. The squared mass is a residue.
/// Source: Kira, arXiv:1705.05610.
#[derive(Debug, Drop)]
pub enum Denominator {
    /// The square of a momentum, minus a squared mass.
    Square {
        /// The momentum.
        momentum: Momentum,
        /// The squared mass.
        mass: u64,
    },
    /// The product of two momenta, minus a squared mass.
    Bilinear {
        /// The one momentum.
        left: Momentum,
        /// The other momentum.
        right: Momentum,
        /// The squared mass.
        mass: u64,
    },
}

impl Denominator {
    /// Whether its momenta have this many coefficients, as many as there are loop momenta and independent
    /// external ones, and its squared mass is a residue.
    pub fn fits(&self, width: usize, modulus: &Modulus) -> bool
        ensures { IsTrue result ↔ IsDenominator modulus.now width self.now }
    {
        match self {
            Denominator::Square { momentum, mass } => {
                momentum.coefficients().len() == width && *mass < modulus.value()
            }
            Denominator::Bilinear { left, right, mass } => {
                left.coefficients().len() == width
                    && right.coefficients().len() == width
                    && *mass < modulus.value()
            }
        }
    }

    /// The same denominator.
    pub(crate) fn copy(&self, alloc: Global) -> Result<Denominator, OutOfMemory>
        ensures { IfOk result (λ denominator. denominator ≡ self.now) }
    {
        Ok(match self {
            Denominator::Square { momentum, mass } => Denominator::Square {
                momentum: Momentum::new(alloc, momentum.coefficients())?,
                mass: *mass,
            },
            Denominator::Bilinear { left, right, mass } => Denominator::Bilinear {
                left: Momentum::new(alloc, left.coefficients())?,
                right: Momentum::new(alloc, right.coefficients())?,
                mass: *mass,
            },
        })
    }
}

/// Whether each of the denominators fits this width and modulus.
pub fn denominators_fit(denominators: &[Denominator], width: usize, modulus: &Modulus) -> bool
    ensures { IsTrue result ↔ All (IsDenominator modulus.now width) denominators.now }
{
    denominators
        .iter()
        .all(|denominator| denominator.fits(width, modulus))
}

/// The form of the denominator.
pub fn form(
    alloc: Global,
    denominator: &Denominator,
    loops: u32,
    point: &Point,
    modulus: &Modulus,
) -> Result<Form, OutOfMemory>
    requires modulus { point.now.modulus ≡ modulus.now }
    requires denominator { IsDenominator modulus.now (loops + point.now.externals) denominator.now }
    ensures value { IfOk result (λ form. form ≡ form_of loops point.now denominator.now) }
    ensures form { IfOk result (λ form. IsForm modulus.now loops point.now.externals form) }
{
    match denominator {
        Denominator::Square { momentum, mass } => {
            let square = product(alloc, momentum, momentum, loops, point, modulus)?;
            Ok(square.less_mass(*mass, modulus))
        }
        Denominator::Bilinear { left, right, mass } => {
            let both = product(alloc, left, right, loops, point, modulus)?;
            Ok(both.less_mass(*mass, modulus))
        }
    }
}

/// The form of the denominator after each loop momentum was replaced by its image, one for each loop
/// momentum. It is computed on residues, so that no coefficient is too large.
pub fn image(
    alloc: Global,
    denominator: &Denominator,
    images: &[Momentum],
    loops: u32,
    point: &Point,
    modulus: &Modulus,
) -> Result<Form, OutOfMemory>
    requires modulus { point.now.modulus ≡ modulus.now }
    requires denominator { IsDenominator modulus.now (loops + point.now.externals) denominator.now }
    requires count { length images.now ≡ loops }
    requires images { All (λ image. length image ≡ loops + point.now.externals) images.now }
    ensures value { IfOk result (λ form. form ≡ image_of loops point.now images.now denominator.now) }
    ensures form { IfOk result (λ form. IsForm modulus.now loops point.now.externals form) }
{
    let width = loops as usize + point.externals() as usize;
    let images = image_residues(alloc, images, width, modulus)?;
    match denominator {
        Denominator::Square { momentum, mass } => {
            let momentum = replaced(alloc, momentum, &images, width, modulus)?;
            let square = product_of(alloc, &momentum, &momentum, loops, point, modulus)?;
            Ok(square.less_mass(*mass, modulus))
        }
        Denominator::Bilinear { left, right, mass } => {
            let left = replaced(alloc, left, &images, width, modulus)?;
            let right = replaced(alloc, right, &images, width, modulus)?;
            let both = product_of(alloc, &left, &right, loops, point, modulus)?;
            Ok(both.less_mass(*mass, modulus))
        }
    }
}
