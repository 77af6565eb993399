//! Small files of families with what they say, and one with a fault, worked out by hand.

use crate::shared::{fault_in, is_fault, tree_of};
use family_schema::{Family, Momenta, Propagator, Symmetry, read};
use input_schema::{File, InputKind, SchemaError};
use sqlite_items::Items;
use std::alloc::Global;
use std::test::Fail;

/// One independent external momentum, so one loop has 2 denominators.
const KINEMATICS: &'static str =
    "kinematics:\n  incoming_momenta: [p1]\n  outgoing_momenta: [p2]\n  momentum_conservation: [p2, p1]\n  kinematic_invariants: [[s, 2], [m2, 2]]\n";

fn families_of(alloc: Global, text: &str) -> Option<Result<Items<Family>, SchemaError>> {
    let first = tree_of(alloc, KINEMATICS)?;
    let kinematics = kinematics_schema::read(alloc, &first).ok()?;
    let tree = tree_of(alloc, text)?;
    Some(read(alloc, &kinematics, &tree))
}

// One propagator, where the family has two denominators.
#[test]
fn refuses_a_propagator_too_few(rt: HostRuntime) -> Result<(), Fail> {
    let answer = families_of(
        rt.alloc(),
        "integralfamilies:\n  - name: bub\n    loop_momenta: [k1]\n    propagators:\n      - [k1, 0]",
    )
    .ok_or("no tree")?;
    assert!(rt; is_fault(fault_in(answer), File::Families, 5, InputKind::WrongCount));
    Ok(())
}

const TWO: &'static str =
    "integralfamilies:\n  - name: bub\n    loop_momenta: [k1]\n    propagators:\n      - [k1, m2]\n      - bilinear: [[k1+p2, 2*p2], 0]\n    zero_sectors: [1, 2]\n    symmetries:\n      - {k1: -k1-p2}\n      - {}\n  - {name: vac, loop_momenta: [k1, k2], top_level_sectors: [31, 7], propagators: [[k1, 0], [k2, 0], [k1-k2, 0], [k1+p1, 0], [k2+p1, 0]], symmetries: [{k2: k1}]}\n";

// Whether the propagator in this line is the square of a momentum with these coefficients.
fn is_square(found: &Propagator, line: u32, coefficients: &[i16]) -> bool {
    match &found.momenta {
        Momenta::Square(momentum) => {
            found.line == line && momentum.coefficients() == coefficients
        }
        Momenta::Product(_, _) => false,
    }
}

// Whether the propagator in this line is the product of momenta with these coefficients.
fn is_product(found: &Propagator, line: u32, left: &[i16], right: &[i16]) -> bool {
    match &found.momenta {
        Momenta::Square(_) => false,
        Momenta::Product(one, other) => {
            found.line == line && one.coefficients() == left && other.coefficients() == right
        }
    }
}

// Whether the symmetry in this line sends the loop momenta to momenta with these coefficients.
fn has_images(found: &Symmetry, line: u32, images: &[&[i16]]) -> bool {
    let momenta = found.images.as_slice();
    if found.line != line || momenta.len() != images.len() {
        return false;
    }
    for k in 0..images.len() {
        if momenta[k].coefficients() != images[k] {
            return false;
        }
    }
    true
}

// p2 is p1. One loop has 2 denominators, so all of them are sector 3.
fn is_bubble(found: &Family) -> bool {
    let propagators = found.propagators.as_slice();
    let symmetries = found.symmetries.as_slice();
    found.name.as_str() == "bub"
        && found.loops.len() == 1
        && found.width == 2
        && found.top_sectors.as_slice() == [3].as_slice()
        && found.zero_sectors.as_slice() == [1, 2].as_slice()
        && propagators.len() == 2
        && is_square(&propagators[0], 5, &[1, 0])
        && is_product(&propagators[1], 6, &[1, 1], &[0, 2])
        && symmetries.len() == 2
        && has_images(&symmetries[0], 9, &[&[-1, -1]])
        && has_images(&symmetries[1], 10, &[&[1, 0]])
}

// Two loops have 5 denominators.
fn is_vacuum(found: &Family) -> bool {
    let symmetries = found.symmetries.as_slice();
    found.name.as_str() == "vac"
        && found.loops.len() == 2
        && found.width == 5
        && found.top_sectors.as_slice() == [31, 7].as_slice()
        && found.zero_sectors.is_empty()
        && symmetries.len() == 1
        && has_images(&symmetries[0], 11, &[&[1, 0, 0], &[1, 0, 0]])
}

#[test]
fn reads_two_families(rt: HostRuntime) -> Result<(), Fail> {
    let families = families_of(rt.alloc(), TWO).ok_or("no tree")??;
    let families = families.as_slice();
    assert_eq!(rt; families.len(), 2);
    assert!(rt; is_bubble(&families[0]));
    assert!(rt; is_vacuum(&families[1]));
    Ok(())
}
