//! The test whether a map of the loop momenta permutes the denominators of a family.

ghost use Rattle.std.specs.Prelude.{◌≡◌, ◌+◌, ◌≤◌, ℕ, All, MatchOption, IfOk, IfErr, length, map};
ghost use Rattle.propagators.specs.Forms.{IsForm};
ghost use Rattle.propagators.specs.Denominators.{form_of, image_of, IsDenominator};
ghost use Rattle.propagators.specs.Combinations.{AreIndependent};
ghost use Rattle.symmetry_maps.specs.Symmetry.{IsFormAt, IsSymmetry, HasCause};
ghost use Rattle.symmetry_maps.specs.Steps.{AreAlike, AreApart, IsNoForm, IsFree, IsNotFree};

use crate::faults::MapFault;
use crate::symmetries::Symmetry;
use field_word::Modulus;
use kinematics::Point;
use momentum_sums::Momentum;
use out_of_memory::OutOfMemory;
use propagators::{Denominator, Form, denominator_forms, image};
use std::alloc::Global;

/// The symmetry that replaces each loop momentum by its image: the one permutation σ for which the image of
/// each denominator D_j is the form D_σ(j), modulo p at the point. `NotAPermutation` exactly where there is
/// none, with the first denominator at fault. Source: Kira, arXiv:1705.05610.
///
/// The denominators are those of a basis, which are independent: so their forms differ, and no image is the
/// form of two of them. A map that can be undone sends no two denominators to one, but one that loses a
/// loop momentum may.
pub fn check(
    alloc: Global,
    images: &[Momentum],
    denominators: &[Denominator],
    point: &Point,
    modulus: &Modulus,
) -> Result<Symmetry, MapFault>
    requires modulus { point.now.modulus ≡ modulus.now }
    requires few_loops { length images.now ≤ 6 }
    requires few { length denominators.now ≤ 20 }
    requires images { All (λ image. length image ≡ length images.now + point.now.externals) images.now }
    requires denominators { All (IsDenominator modulus.now (length images.now + point.now.externals)) denominators.now }
    requires independent { AreIndependent modulus.now (map (form_of (length images.now) point.now) denominators.now) }
    ensures symmetry { IfOk result (IsSymmetry
        (map (image_of (length images.now) point.now images.now) denominators.now)
        (map (form_of (length images.now) point.now) denominators.now)) }
    ensures cause { IfErr result (HasCause
        (map (image_of (length images.now) point.now images.now) denominators.now)
        (map (form_of (length images.now) point.now) denominators.now)) }
{
    // A modulus is above 1, so independent forms differ.
    let _p = modulus.value();
    let forms = denominator_forms(alloc, images.len() as u32, denominators, point, modulus)?;
    let image_forms = image_forms(alloc, images, denominators, point, modulus)?;
    let places = places_of(alloc, &image_forms, &forms)?;
    Ok(Symmetry::of_places(places))
}

// The forms of the denominators after each loop momentum was replaced by its image.
fn image_forms(
    alloc: Global,
    images: &[Momentum],
    denominators: &[Denominator],
    point: &Point,
    modulus: &Modulus,
) -> Result<Vec<Form>, OutOfMemory>
    requires modulus { point.now.modulus ≡ modulus.now }
    requires few_loops { length images.now ≤ 6 }
    requires images { All (λ image. length image ≡ length images.now + point.now.externals) images.now }
    requires denominators { All (IsDenominator modulus.now (length images.now + point.now.externals)) denominators.now }
    ensures value { IfOk result (λ forms. forms.items ≡
        map (image_of (length images.now) point.now images.now) denominators.now) }
    ensures forms { IfOk result (λ forms. All (IsForm modulus.now (length images.now) point.now.externals) forms.items) }
{
    let loops = images.len() as u32;
    let mut forms = Vec::new(alloc);
    for denominator in denominators {
        forms.push(image(alloc, denominator, images, loops, point, modulus)?)?;
    }
    Ok(forms)
}

// The numbers of the denominators to which the denominators with these images are sent.
fn places_of(alloc: Global, images: &[Form], forms: &[Form]) -> Result<Vec<u8>, MapFault>
    requires few { length forms.now ≤ 20 }
    requires same { length images.now ≡ length forms.now }
    requires alike { All (λ image. AreAlike image forms.now) images.now }
    requires apart { AreApart forms.now }
    ensures symmetry { IfOk result (λ places. IsSymmetry images.now forms.now places.items) }
    ensures cause { IfErr result (HasCause images.now forms.now) }
{
    let mut places = Vec::new(alloc);
    for image in images {
        match free_number(image, forms, &places) {
            Some(number) => places.push(number)?,
            None => {
                return Err(MapFault::NotAPermutation {
                    denominator: places.len() as u32 + 1,
                });
            }
        }
    }
    Ok(places)
}

// The number of the form that the image is, unless it is none or one that is taken.
fn free_number(image: &Form, forms: &[Form], taken: &[u8]) -> Option<u8>
    requires few { length forms.now ≤ 20 }
    requires alike { AreAlike image.now forms.now }
    ensures { MatchOption result (IsNotFree forms.now taken.now image.now) (IsFree forms.now taken.now image.now) }
{
    match number_of(image, forms) {
        Some(number) => {
            if taken.contains(&number) {
                None
            } else {
                Some(number)
            }
        }
        None => None,
    }
}

// The number, from 1, of the form that the image is.
fn number_of(image: &Form, forms: &[Form]) -> Option<u8>
    requires few { length forms.now ≤ 20 }
    requires alike { AreAlike image.now forms.now }
    ensures { MatchOption result (IsNoForm forms.now image.now) (IsFormAt forms.now image.now) }
{
    for place in 0..forms.len() {
        if image.equals(&forms[place]) {
            return Some(place as u8 + 1);
        }
    }
    None
}
