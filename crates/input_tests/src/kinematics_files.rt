//! Small files of kinematics with what they say, and one with a fault, worked out by hand.

use crate::shared::{fault_in, is_fault, tree_of};
use field_word::Modulus;
use input_schema::{File, InputKind, SchemaError};
use kinematics_schema::{Kinematics, read};
use std::alloc::Global;
use std::test::Fail;

fn kinematics_of(alloc: Global, text: &str) -> Option<Result<Kinematics, SchemaError>> {
    let tree = tree_of(alloc, text)?;
    Some(read(alloc, &tree))
}

#[test]
fn refuses_an_unknown_momentum(rt: HostRuntime) -> Result<(), Fail> {
    let answer = kinematics_of(
        rt.alloc(),
        "kinematics:\n  incoming_momenta: [p1, p2]\n  momentum_conservation: [p3, p1]",
    )
    .ok_or("no tree")?;
    assert!(rt;
        is_fault(
            fault_in(answer),
            File::Kinematics,
            3,
            InputKind::UnknownName
        )
    );
    Ok(())
}

const TRIANGLE: &'static str =
    "kinematics:\n  incoming_momenta: [p1, p2, p3]\n  momentum_conservation: [p3, -p1-p2]\n  kinematic_invariants:\n    - [s, 2]\n    - [t, 2]\n  scalarproduct_rules:\n    - [[p1,p1], 0]\n    - [[p1+p3, 2*p3], s/2]\n  symbol_to_replace_by_one: t\n";

// p3 is -p1-p2, so p1+p3 is -p2, and 2*p3 is -2*p1-2*p2.
#[test]
fn reads_the_kinematics_of_a_triangle(rt: HostRuntime) -> Result<(), Fail> {
    let kinematics = kinematics_of(rt.alloc(), TRIANGLE).ok_or("no tree")??;
    assert_eq!(rt; kinematics.externals.len(), 3);
    let conserved = kinematics.conserved.as_ref().ok_or("nothing is conserved")?;
    assert_eq!(rt; conserved.place, 2);
    assert_eq!(rt; conserved.image.coefficients(), [-1, -1].as_slice());
    assert_eq!(rt; kinematics.invariants.len(), 2);
    assert_eq!(rt; kinematics.symbol, Some(1));
    let rules = kinematics.rules.as_slice();
    assert_eq!(rt; rules.len(), 2);
    assert_eq!(rt; rules[0].line, 8);
    assert_eq!(rt; rules[1].line, 9);
    assert_eq!(rt; rules[1].left.coefficients(), [0, -1].as_slice());
    assert_eq!(rt; rules[1].right.coefficients(), [-2, -2].as_slice());
    let modulus = Modulus::new(101)?;
    assert_eq!(rt; rules[1].value.value(&[10, 1], &modulus)?, 5);
    Ok(())
}

// Incoming momenta come before the outgoing ones, and only they are needed.
#[test]
fn reads_the_least_file(rt: HostRuntime) -> Result<(), Fail> {
    let kinematics = kinematics_of(
        rt.alloc(),
        "kinematics: {outgoing_momenta: [q], incoming_momenta: [k]}",
    )
    .ok_or("no tree")??;
    let names = kinematics.externals.as_slice();
    assert_eq!(rt; names.len(), 2);
    assert_eq!(rt; names[0].as_str(), "k");
    assert_eq!(rt; names[1].as_str(), "q");
    assert_eq!(rt; kinematics.conserved.is_none(), true);
    assert_eq!(rt; kinematics.invariants.len(), 0);
    assert_eq!(rt; kinematics.rules.len(), 0);
    assert_eq!(rt; kinematics.symbol, None);
    Ok(())
}

#[test]
fn leaves_the_conserved_momentum_out(rt: HostRuntime) -> Result<(), Fail> {
    let tree = tree_of(
        rt.alloc(),
        "kinematics: {incoming_momenta: [p, q, r], momentum_conservation: [q, p]}",
    )
    .ok_or("no tree")?;
    let kinematics = read(rt.alloc(), &tree)?;
    assert_eq!(rt; kinematics.independent_count(), 2);
    let names = kinematics.independents(rt.alloc())?;
    let names = names.as_slice();
    assert_eq!(rt; names.len(), 2);
    assert_eq!(rt; names[0].as_str(), "p");
    assert_eq!(rt; names[1].as_str(), "r");
    Ok(())
}
