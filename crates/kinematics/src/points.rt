//! The point: the products of the independent external momenta.

use crate::product_places::place_of;
use field_word::Modulus;
use out_of_memory::OutOfMemory;
use std::alloc::Global;
use std::marker::Model;

/// The products of the independent external momenta, one residue for each two of them. The momenta
/// are numbered from 1; there are at most 6.
#[derive(Debug, Drop)]
pub struct Point {
    modulus: Modulus,
    externals: u32,
    products: Vec<u64>,
}

// Clauses see the modulus, the number of momenta and the products.
impl Model for Point {
    ghost use Rattle.kinematics.specs.Points.{Point as PointValue, point_code};

    ghost Value = { PointValue };

    ghost coded = { point_code };

    ghost use Rattle.kinematics.specs.KeptPoint.{shown, IsKept};

    ghost view = { shown };

    ghost invariant = { IsKept };
}

impl Point {
    ghost use Rattle.std.specs.Prelude.{◌≡◌, ◌<◌, ◌≤◌, IfOk};
    ghost use Rattle.field_word.specs.Residues.{IsModulus};
    ghost use Rattle.kinematics.specs.Points.{IsPoint, IsTable, product_at};

    // The point with these products.
    pub(crate) fn of_products(modulus: Modulus, externals: u32, products: Vec<u64>) -> Point
        requires few { externals ≤ 6 }
        requires table { IsTable modulus externals products.items }
        ensures { result ≡ record { modulus = modulus; externals = externals; products = products.items } }
    {
        let p = modulus.value();
        prove!(p > 1);
        Point {
            modulus,
            externals,
            products,
        }
    }

    /// The same point.
    pub fn copy(&self, alloc: Global) -> Result<Point, OutOfMemory>
        ensures value { IfOk result (λ point. point ≡ self.now) }
        ensures point { IsPoint self.now }
    {
        Ok(Point {
            modulus: self.modulus,
            externals: self.externals,
            products: Vec::from_slice(alloc, &self.products)?,
        })
    }

    /// How many independent external momenta there are: at most 6.
    pub fn externals(&self) -> u32
        ensures value { result ≡ self.now.externals }
        ensures point { IsPoint self.now }
    {
        self.externals
    }

    /// The residue of the product of the momenta with the numbers x and y, from 1.
    pub fn product(&self, x: u32, y: u32) -> u64
        requires first_from_1 { 1 ≤ x }
        requires first_within { x ≤ self.now.externals }
        requires second_from_1 { 1 ≤ y }
        requires second_within { y ≤ self.now.externals }
        ensures value { result ≡ product_at self.now x y }
        ensures below { result < self.now.modulus }
    {
        let place = place_of(self.externals, x.min(y) - 1, x.max(y) - 1);
        self.products[place]
    }
}
