//! Integrals whose indices a permutation moves.

ghost use Rattle.std.specs.Prelude.{◌≡◌, All, IfOk, length};
ghost use Rattle.integral_index.specs.Integral.{IsIndex};
ghost use Rattle.symmetry_maps.specs.Permutation.{IsPermutationOf};
ghost use Rattle.symmetry_maps.specs.Equation.{IsMoved};

use crate::symmetries::Symmetry;
use integral_index::Integral;
use out_of_memory::OutOfMemory;
use std::alloc::Global;

// The most indices that a family has.
const MOST: usize = 20;

/// The integral with each index at the place to which the symmetry sends its denominator.
pub(crate) fn moved(
    alloc: Global,
    symmetry: &Symmetry,
    integral: &Integral,
) -> Result<Integral, OutOfMemory>
    requires { length integral.now.indices ≡ length symmetry.now }
    ensures permutation { IsPermutationOf (length symmetry.now) symmetry.now }
    ensures family { IfOk result (λ x. x.family ≡ integral.now.family) }
    ensures moved { IfOk result (λ x. IsMoved symmetry.now integral.now.indices x.indices) }
{
    let length = integral.indices().len();
    let mut indices = [0; MOST];
    move_indices(
        symmetry.places(),
        integral.indices(),
        &mut indices[..length],
    );
    Integral::new(alloc, integral.family(), &indices[..length])
}

// Writes each index at the place to which the permutation sends its number.
fn move_indices(places: &[u8], indices: &[i8], moved: &mut [i8])
    requires permutation { IsPermutationOf (length indices.now) places.now }
    requires size { length moved.old ≡ length indices.now }
    requires indices { All IsIndex indices.now }
    requires zeros { All IsIndex moved.old }
    ensures moved { IsMoved places.now indices.now moved.new }
    ensures indices { All IsIndex moved.new }
{
    for place in 0..indices.len() {
        moved[places[place] as usize - 1] = indices[place];
    }
}
