//! Lists of residues.

ghost use Rattle.std.specs.Prelude.{◌≡◌, ◌*◌, ◌%◌, ◌<◌, All, length, map};
ghost use Rattle.propagators.specs.Forms.{sum_of_lists};

use field_word::Modulus;

/// Multiplies each residue by a factor.
pub(crate) fn scale(values: &mut [u64], factor: u64, modulus: &Modulus)
    requires values { All (λ c. c < modulus.now) values.old }
    requires factor { factor < modulus.now }
    ensures value { values.new ≡ map (λ c. (factor * c) % modulus.now) values.old }
{
    for place in 0..values.len() {
        values[place] = modulus.mul(factor, values[place]);
    }
}

/// Adds the residues in the same places.
pub(crate) fn add(values: &mut [u64], others: &[u64], modulus: &Modulus)
    requires values { All (λ c. c < modulus.now) values.old }
    requires others { All (λ c. c < modulus.now) others.now }
    requires same { length values.old ≡ length others.now }
    ensures { values.new ≡ sum_of_lists modulus.now values.old others.now }
{
    for place in 0..values.len() {
        values[place] = modulus.add(values[place], others[place]);
    }
}
