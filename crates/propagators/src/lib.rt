//! Denominators, their forms in scalar products, and families of denominators in which every scalar
//! product with a loop momentum can be written.
#![tactic(auto)]

mod bases;
mod combinations;
mod denominators;
mod faults;
mod forms;
mod frames;
mod images;
mod momenta;
mod residue_lists;

pub use bases::{Basis, family};
pub use combinations::Combination;
pub use denominators::{Denominator, denominators_fit, form, image};
pub use faults::BasisFault;
pub use forms::{Form, product};
pub use frames::denominator_forms;
