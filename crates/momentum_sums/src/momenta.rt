//! Momenta: sums of named momenta with whole coefficients.

ghost use Rattle.std.specs.Prelude.{◌≡◌, ◌↔◌, All, IsTrue, IfOk, length};
ghost use Rattle.momentum_sums.specs.Momenta.{IsCoefficient};

use out_of_memory::OutOfMemory;
use std::alloc::Global;
use std::marker::Model;

/// A momentum: one coefficient from -1000 to 1000 for each name of a list. Contracts see the list.
#[derive(Debug, Drop)]
pub struct Momentum {
    coefficients: Vec<i16>,
}

impl Model for Momentum {
    ghost use Rattle.std.specs.Prelude.{ℤ, List, All};
    ghost use Rattle.momentum_sums.specs.Momenta.{IsCoefficient};

    ghost Value = { List ℤ };

    ghost view = { λ m. m.coefficients.items };

    ghost invariant = { λ m. All IsCoefficient m.coefficients.items };
}

impl Momentum {
    /// The momentum with these coefficients.
    pub fn new(alloc: Global, coefficients: &[i16]) -> Result<Momentum, OutOfMemory>
        requires { All IsCoefficient coefficients.now }
        ensures { IfOk result (λ m. m ≡ coefficients.now) }
    {
        Ok(Momentum {
            coefficients: Vec::from_slice(alloc, coefficients)?,
        })
    }

    /// The momentum with these coefficients.
    pub(crate) fn from_coefficients(coefficients: Vec<i16>) -> Momentum
        requires { All IsCoefficient coefficients.items }
        ensures { result ≡ coefficients.items }
    {
        Momentum { coefficients }
    }

    /// Its coefficients.
    pub fn coefficients(&self) -> &[i16]
        ensures value { result.now ≡ self.now }
        ensures in_range { All IsCoefficient self.now }
    {
        self.coefficients.as_slice()
    }
}

/// Whether each of the momenta has this many coefficients.
pub fn are_wide(momenta: &[Momentum], width: usize) -> bool
    ensures { IsTrue result ↔ All (λ momentum. length momentum ≡ width) momenta.now }
{
    momenta
        .iter()
        .all(|momentum| momentum.coefficients().len() == width)
}

/// Whether a momentum may have these coefficients: each is from -1000 to 1000.
pub fn are_coefficients(coefficients: &[i16]) -> bool
    ensures { IsTrue result ↔ All IsCoefficient coefficients.now }
{
    coefficients.iter().all(|c| is_coefficient(*c))
}

fn is_coefficient(c: i16) -> bool
    ensures { IsTrue result ↔ IsCoefficient c }
{
    -1000 <= c && c <= 1000
}
