//! What the file of integral families says.

use momentum_sums::Momentum;
use rational_expressions::Expression;
use sqlite_items::Items;
use text_tokens::Name;

/// The momenta of a propagator, over the loop momenta and then the independent external momenta.
#[derive(Debug, Drop)]
pub enum Momenta {
    /// The square of one momentum.
    Square(Momentum),
    /// The product of two momenta.
    Product(Momentum, Momentum),
}

/// A propagator: the product of its momenta less its mass, which is over the invariants.
#[derive(Debug, Drop)]
pub struct Propagator {
    /// The line of the mass, counted from 1, for a division by zero that is found later.
    pub line: u32,
    /// Its momenta.
    pub momenta: Momenta,
    /// Its mass, squared where the momenta are a square.
    pub mass: Expression,
}

/// A map of the loop momenta that is to permute the denominators.
#[derive(Debug, Drop)]
pub struct Symmetry {
    /// The line of the map, counted from 1.
    pub line: u32,
    /// The image of each loop momentum, over the loop momenta and then the independent external momenta.
    pub images: Items<Momentum>,
}

/// An integral family. The project's own, after the file of this name of Kira (arXiv:1705.05610).
#[derive(Debug, Drop)]
pub struct Family {
    /// Its name.
    pub name: Name,
    /// Its loop momenta, in the order of the file.
    pub loops: Items<Name>,
    /// How many propagators it has, 1 to 20.
    pub width: u32,
    /// Its top level sectors, in the order of the file: one bit for each propagator.
    pub top_sectors: Items<u32>,
    /// Its propagators, in the order of the file.
    pub propagators: Items<Propagator>,
    /// The sectors that are zero, in the order of the file.
    pub zero_sectors: Items<u32>,
    /// Its symmetries, in the order of the file.
    pub symmetries: Items<Symmetry>,
}
