//! Arithmetic with residues modulo an odd number below 2^63, which need not be prime.
#![tactic(auto)]

ghost use Rattle.std.specs.Prelude.{◌≡◌, ◌%◌, ◌<◌, ◌↔◌, IsOk, IfOk, IfErr, OkIff};
ghost use Rattle.std.specs.Int.{IsGcd};
ghost use Rattle.field_word.specs.Residues.{IsModulus, IsInverse, sum_of, product_of, opposite_of, difference_of};

use std::marker::Model;
use thiserror::Error;

/// The modulus p: an odd number with 3 <= p < 2^63. Contracts see it as that number.
///
/// A residue is a `u64` below p. The calls below give the residues of sums, differences, products,
/// opposites and inverses.
#[derive(Clone, Copy, Debug, PartialEq, Eq)]
pub struct Modulus {
    value: u64,
}

impl Model for Modulus {
    ghost use Rattle.std.specs.Prelude.{ℕ};
    ghost use Rattle.field_word.specs.Residues.{IsModulus};

    ghost Value = { ℕ };

    ghost view = { λ m. m.value };

    ghost invariant = { λ m. IsModulus m.value };

    ghost inverse = { λ p. record { value = p } };
}

/// The answer of `Modulus::new` to a number that is even, below 3, or at least 2^63.
#[derive(Clone, Copy, Debug, PartialEq, Eq, Error)]
#[error("not an odd number from 3 below 2^63")]
pub struct BadModulus;

/// The answer of `Modulus::inverse` to a residue that has no inverse, so p isn't prime:
/// `divisor` is their greatest common divisor, above 1 and below p.
#[derive(Clone, Copy, Debug, PartialEq, Eq, Error)]
#[error("the modulus is divisible by {divisor}")]
pub struct Composite {
    pub divisor: u64,
}

impl Modulus {
    /// The modulus p. `BadModulus` exactly where p is even, below 3, or at least 2^63.
    pub fn new(p: u64) -> Result<Modulus, BadModulus>
        ensures exact { OkIff result (IsModulus p) p }
    {
        if p % 2 == 1 && p >= 3 && p < 1 << 63 {
            Ok(Modulus { value: p })
        } else {
            Err(BadModulus)
        }
    }

    /// The number p.
    pub fn value(&self) -> u64
        ensures value { result ≡ self.now }
        ensures modulus { IsModulus self.now }
    {
        self.value
    }

    /// The residue of any number.
    pub fn reduce(&self, n: u128) -> u64
        ensures value { result ≡ n % self.now }
        ensures below { result < self.now }
    {
        (n % self.value as u128) as u64
    }

    /// The residue of the sum of two residues.
    pub fn add(&self, x: u64, y: u64) -> u64
        requires left { x < self.now }
        requires right { y < self.now }
        ensures value { result ≡ sum_of self.now x y }
        ensures below { result < self.now }
    {
        let p = self.value;
        let sum = x + y;
        if sum < p { sum } else { sum - p }
    }

    /// The residue of the first residue minus the second.
    pub fn sub(&self, x: u64, y: u64) -> u64
        requires left { x < self.now }
        requires right { y < self.now }
        ensures value { result ≡ difference_of self.now x y }
        ensures below { result < self.now }
    {
        let p = self.value;
        if y <= x { x - y } else { x + (p - y) }
    }

    /// The residue of the product of two residues.
    pub fn mul(&self, x: u64, y: u64) -> u64
        requires left { x < self.now }
        requires right { y < self.now }
        ensures value { result ≡ product_of self.now x y }
        ensures below { result < self.now }
    {
        self.reduce(x as u128 * y as u128)
    }

    /// The residue whose sum with this residue is 0.
    pub fn neg(&self, x: u64) -> u64
        requires { x < self.now }
        ensures value { result ≡ opposite_of self.now x }
        ensures below { result < self.now }
    {
        let p = self.value;
        if x == 0 { 0 } else { p - x }
    }

    /// The residue whose product with this residue, which isn't 0, is 1.
    ///
    /// `Composite` exactly where the greatest common divisor of x and p isn't 1; it holds that divisor.
    /// By Euclid's algorithm: every remainder is a multiple of x modulo p, and the multipliers of the
    /// last two remainders are kept without their signs, which alternate.
    pub fn inverse(&self, x: u64) -> Result<u64, Composite>
        requires positive { 0 < x }
        requires below { x < self.now }
        ensures ok { IsOk result ↔ IsGcd x self.now 1 }
        ensures inverse { IfOk result (λ y. IsInverse self.now x y) }
        ensures divisor { IfErr result (λ e. IsGcd x self.now e.divisor) }
        ensures proper { IfErr result (λ e. (1 < e.divisor) × (e.divisor < self.now)) }
    {
        let p = self.value;
        let (mut divisor, mut remainder) = (p, x);
        let (mut last, mut next) = (0, 1);
        let mut is_negative = true;
        while remainder > 0 {
            let quotient = divisor / remainder;
            (divisor, remainder) = (remainder, divisor - quotient * remainder);
            (last, next) = (next, last + quotient * next);
            is_negative = !is_negative;
        }
        if divisor != 1 {
            return Err(Composite { divisor });
        }
        Ok(if is_negative { p - last } else { last })
    }
}
