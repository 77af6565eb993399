//! Integrals with one index changed.

ghost use Rattle.std.specs.Prelude.{◌≡◌, ◌↔◌, ◌+◌, ◌<◌, ◌+ℤ◌, All, length, pos, slice_index_or, slice_set, IsTrue, IfOk};
ghost use Rattle.integral_index.specs.Integral.{IsIndex};
ghost use Rattle.ibp_generator.specs.Shifts.{IsSeedIndex, index_at, shifted};

use integral_index::Integral;
use out_of_memory::OutOfMemory;
use std::alloc::Global;

// The most indices that a family has.
const MOST: usize = 20;

/// The integral with a number added to the index at a place, from 0.
pub(crate) fn shifted(
    alloc: Global,
    integral: &Integral,
    place: usize,
    by: i8,
) -> Result<Integral, OutOfMemory>
    requires place { place < length integral.now.indices }
    requires index { IsIndex (index_at integral.now.indices (place + 1) +ℤ by) }
    ensures { IfOk result (λ x. x ≡ record { family = integral.now.family; indices = shifted integral.now.indices (place + 1) by }) }
{
    let length = integral.indices().len();
    let mut indices = [0; MOST];
    indices[..length].copy_from_slice(integral.indices());
    add_at(&mut indices[..length], place, by);
    Integral::new(alloc, integral.family(), &indices[..length])
}

// Adds a number to the index at a place.
fn add_at(indices: &mut [i8], place: usize, by: i8)
    requires place { place < length indices.old }
    requires index { IsIndex (slice_index_or indices.old place (pos 0) +ℤ by) }
    ensures { indices.new ≡ slice_set indices.old place (slice_index_or indices.old place (pos 0) +ℤ by) }
{
    indices[place] += by;
}

/// Whether a seed may have these indices: each is from -100 to 100, so that one can be added to it.
pub fn are_seed_indices(indices: &[i8]) -> bool
    ensures { IsTrue result ↔ All IsSeedIndex indices.now }
{
    indices.iter().all(|index| is_seed_index(*index))
}

fn is_seed_index(index: i8) -> bool
    ensures { IsTrue result ↔ IsSeedIndex index }
{
    index.unsigned_abs() <= 100
}
