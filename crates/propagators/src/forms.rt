//! Forms: products of momenta, written in the scalar products that have a loop momentum.

ghost use Rattle.std.specs.Prelude.{◌≡◌, ◌+◌, ◌*◌, ◌-◌, ◌%◌, ◌<◌, ◌≤◌, ◌↔◌, ℕ, All, IfOk, OnOk, OnErr, IsTrue, length, map, ◌++◌};
ghost use Rattle.field_word.specs.Residues.{difference_of};
ghost use Rattle.propagators.specs.Sums.{sum_to, entry};
ghost use Rattle.kinematics.specs.Points.{IsPoint};
ghost use Rattle.propagators.specs.Forms.{IsForm, product_form, scaled_form, sum_form, sum_of_lists, expanded, is_product, external_product, pairs_with, scalar_products};
ghost use Rattle.propagators.specs.Momenta.{residues_of};
ghost use Rattle.propagators.specs.Denominators.{less_mass};

use crate::momenta::residues;
use crate::residue_lists::{add, scale};
use field_word::Modulus;
use kinematics::Point;
use momentum_sums::Momentum;
use out_of_memory::OutOfMemory;
use std::alloc::Global;
use std::marker::Model;

/// What a product of two momenta is in scalar products: a residue for each scalar product of a loop
/// momentum with a momentum that isn't before it, and a constant. The momenta are numbered from 1, the
/// loop momenta first. Contracts see the numbers of momenta, the residues in the order (1,1), (1,2), ..,
/// (2,2), .., and the constant.
#[derive(Debug, Drop)]
pub struct Form {
    loops: u32,
    externals: u32,
    products: Vec<u64>,
    constant: u64,
}

impl Model for Form {
    ghost use Rattle.propagators.specs.Forms.{Form as FormValue};

    ghost Value = { FormValue };

    ghost view = { λ a. record { loops = a.loops; externals = a.externals; products = a.products.items; constant = a.constant } };
}

/// The product of two momenta over `loops` loop momenta and then the independent external ones, whose
/// products the point gives.
pub fn product(
    alloc: Global,
    left: &Momentum,
    right: &Momentum,
    loops: u32,
    point: &Point,
    modulus: &Modulus,
) -> Result<Form, OutOfMemory>
    requires modulus { point.now.modulus ≡ modulus.now }
    requires left { length left.now ≡ loops + point.now.externals }
    requires right { length right.now ≡ loops + point.now.externals }
    ensures value { IfOk result (λ form. form ≡
        product_form loops point.now (residues_of modulus.now left.now) (residues_of modulus.now right.now)) }
    ensures form { IfOk result (λ form. IsForm modulus.now loops point.now.externals form) }
{
    let left = residues(alloc, left, modulus)?;
    let right = residues(alloc, right, modulus)?;
    product_of(alloc, &left, &right, loops, point, modulus)
}

/// The product of two momenta, given by their residues.
pub(crate) fn product_of(
    alloc: Global,
    left: &[u64],
    right: &[u64],
    loops: u32,
    point: &Point,
    modulus: &Modulus,
) -> Result<Form, OutOfMemory>
    requires modulus { point.now.modulus ≡ modulus.now }
    requires left { length left.now ≡ loops + point.now.externals }
    requires right { length right.now ≡ loops + point.now.externals }
    requires left_below { All (λ c. c < modulus.now) left.now }
    requires right_below { All (λ c. c < modulus.now) right.now }
    ensures value { IfOk result (λ form. form ≡ product_form loops point.now left.now right.now) }
    ensures form { IfOk result (λ form. IsForm modulus.now loops point.now.externals form) }
{
    let mut products = Vec::new(alloc);
    for i in 0..loops as usize {
        push_products(&mut products, left, right, i + 1, modulus)?;
    }
    Ok(Form {
        loops,
        externals: point.externals(),
        products,
        constant: constant(left, right, loops, point, modulus),
    })
}

// Adds the coefficients of the scalar products of the momentum i with itself and those behind it.
fn push_products(
    products: &mut Vec<u64>,
    left: &[u64],
    right: &[u64],
    i: usize,
    modulus: &Modulus,
) -> Result<(), OutOfMemory>
    requires from_1 { 1 ≤ i }
    requires within { i ≤ length left.now }
    requires same { length left.now ≡ length right.now }
    requires left_below { All (λ c. c < modulus.now) left.now }
    requires right_below { All (λ c. c < modulus.now) right.now }
    ensures { OnOk result (products.new.items ≡ products.old.items
        ++ map (λ pair. expanded left.now right.now (is_product pair.0 pair.1) % modulus.now) (pairs_with i (length left.now + 1 - i))) }
{
    for more in 0..left.len() + 1 - i {
        products.push(coefficient(left, right, i, i + more, modulus))?;
    }
    Ok(())
}

// The coefficient of the scalar product of the momenta i and q.
fn coefficient(left: &[u64], right: &[u64], i: usize, q: usize, modulus: &Modulus) -> u64
    requires from_1 { 1 ≤ i }
    requires within { i ≤ length left.now }
    requires second_from_1 { 1 ≤ q }
    requires second_within { q ≤ length left.now }
    requires same { length left.now ≡ length right.now }
    requires left_below { All (λ c. c < modulus.now) left.now }
    requires right_below { All (λ c. c < modulus.now) right.now }
    ensures value { result ≡ expanded left.now right.now (is_product i q) % modulus.now }
    ensures below { result < modulus.now }
{
    let first = modulus.mul(left[i - 1], right[q - 1]);
    if i == q {
        first
    } else {
        modulus.add(first, modulus.mul(left[q - 1], right[i - 1]))
    }
}

// What the external products give: the sum over all pairs of external momenta.
fn constant(left: &[u64], right: &[u64], loops: u32, point: &Point, modulus: &Modulus) -> u64
    requires modulus { point.now.modulus ≡ modulus.now }
    requires left { length left.now ≡ loops + point.now.externals }
    requires right { length right.now ≡ loops + point.now.externals }
    requires left_below { All (λ c. c < modulus.now) left.now }
    requires right_below { All (λ c. c < modulus.now) right.now }
    ensures value { result ≡ expanded left.now right.now (external_product loops point.now) % modulus.now }
    ensures below { result < modulus.now }
{
    let p = modulus.value();
    prove!(p > 0);
    let mut sum = 0;
    for x in 0..left.len() {
        sum = modulus.add(
            sum,
            constant_of(left[x], right, x + 1, loops, point, modulus),
        );
    }
    sum
}

// The part of the constant in which the left momentum is x, with this coefficient.
fn constant_of(
    left: u64,
    right: &[u64],
    x: usize,
    loops: u32,
    point: &Point,
    modulus: &Modulus,
) -> u64
    requires modulus { point.now.modulus ≡ modulus.now }
    requires left { left < modulus.now }
    requires from_1 { 1 ≤ x }
    requires within { x ≤ loops + point.now.externals }
    requires right { length right.now ≡ loops + point.now.externals }
    requires right_below { All (λ c. c < modulus.now) right.now }
    ensures value { result ≡ sum_to (length right.now) (λ y. left * entry right.now y * external_product loops point.now x y) % modulus.now }
    ensures below { result < modulus.now }
{
    let mut sum = 0;
    for y in 0..right.len() {
        let both = modulus.mul(left, right[y]);
        let value = external_product(x, y + 1, loops, point);
        sum = modulus.add(sum, modulus.mul(both, value));
    }
    sum
}

// The product of the momenta x and y by the point where both are external, and else 0.
fn external_product(x: usize, y: usize, loops: u32, point: &Point) -> u64
    requires within { x ≤ loops + point.now.externals }
    requires second_within { y ≤ loops + point.now.externals }
    ensures value { result ≡ external_product loops point.now x y }
    ensures below { result < point.now.modulus }
{
    let externals = point.externals();
    let loops = loops as usize;
    if x > loops && y > loops {
        prove!(x - loops <= externals as usize && y - loops <= externals as usize);
        point.product((x - loops) as u32, (y - loops) as u32)
    } else {
        0
    }
}

impl Form {
    /// Whether all residues of the two forms are equal.
    pub fn equals(&self, other: &Form) -> bool
        requires loops { self.now.loops ≡ other.now.loops }
        requires externals { self.now.externals ≡ other.now.externals }
        ensures { IsTrue result ↔ (self.now ≡ other.now) }
    {
        self.constant == other.constant && self.products.as_slice() == other.products.as_slice()
    }

    /// The coefficients of the scalar products.
    pub(crate) fn products(&self) -> &[u64]
        ensures { result.now ≡ self.now.products }
    {
        self.products.as_slice()
    }

    /// The constant.
    pub(crate) fn constant(&self) -> u64
        ensures { result ≡ self.now.constant }
    {
        self.constant
    }

    /// The form minus a squared mass.
    pub(crate) fn less_mass(mut self, mass: u64, modulus: &Modulus) -> Form
        requires constant { self.constant < modulus.now }
        requires mass { mass < modulus.now }
        ensures { result ≡ less_mass modulus.now mass self }
    {
        self.constant = modulus.sub(self.constant, mass);
        self
    }

    /// Multiplies the form by a residue.
    pub(crate) fn scale(&mut self, factor: u64, modulus: &Modulus)
        requires products { All (λ c. c < modulus.now) self.old.products }
        requires constant { self.old.constant < modulus.now }
        requires factor { factor < modulus.now }
        ensures { self.new ≡ scaled_form modulus.now factor self.old }
    {
        scale(&mut self.products, factor, modulus);
        self.constant = modulus.mul(factor, self.constant);
    }

    /// Adds another form of the same momenta.
    pub(crate) fn add(&mut self, other: &Form, modulus: &Modulus)
        requires products { All (λ c. c < modulus.now) self.old.products }
        requires constant { self.old.constant < modulus.now }
        requires other_products { All (λ c. c < modulus.now) other.now.products }
        requires other_constant { other.now.constant < modulus.now }
        requires same { length self.old.products ≡ length other.now.products }
        ensures { self.new ≡ sum_form modulus.now self.old other.now }
    {
        add(&mut self.products, &other.products, modulus);
        self.constant = modulus.add(self.constant, other.constant);
    }
}
