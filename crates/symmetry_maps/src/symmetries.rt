//! Symmetries, kept as their permutations.

ghost use Rattle.std.specs.Prelude.{◌≡◌, length};
ghost use Rattle.symmetry_maps.specs.Permutation.{IsPermutationOf};

use std::marker::Model;

/// A symmetry of a family: a permutation σ of its denominators. Contracts see the list σ(1) .. σ(N).
/// Source: Kira, arXiv:1705.05610.
#[derive(Debug, Drop)]
pub struct Symmetry {
    places: Vec<u8>,
}

impl Model for Symmetry {
    ghost use Rattle.std.specs.Prelude.{ℕ, List, length};
    ghost use Rattle.symmetry_maps.specs.Permutation.{IsPermutationOf};

    ghost Value = { List ℕ };

    ghost view = { λ s. s.places.items };

    ghost invariant = { λ s. IsPermutationOf (length s.places.items) s.places.items };
}

impl Symmetry {
    /// The symmetry with this permutation.
    pub(crate) fn of_places(places: Vec<u8>) -> Symmetry
        requires { IsPermutationOf (length places.items) places.items }
        ensures { result ≡ places.items }
    {
        Symmetry { places }
    }

    /// The numbers σ(1) .. σ(N) of the denominators to which those with the numbers 1 .. N are sent.
    pub fn places(&self) -> &[u8]
        ensures value { result.now ≡ self.now }
        ensures permutation { IsPermutationOf (length self.now) self.now }
    {
        self.places.as_slice()
    }
}
