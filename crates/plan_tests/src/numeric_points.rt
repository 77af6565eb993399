//! Small jobs at a point, worked out by hand.

ghost use Rattle.std.specs.Prelude.{◌≡◌};
ghost use Rattle.kinematics_schema.specs.Sound.{IsSound};
ghost use Rattle.kinematics_schema.specs.Parameters as spec;

use crate::outlines::{FAMILIES, KINEMATICS, tree_of, whole};
use field_word::Modulus;
use input_schema::{File, InputKind};
use job_point::{AtPoint, PlanError, Singular, at_point};
use job_schema::{Divisor, NumericPoint, Ratio, Setting};
use kinematics_schema::Kinematics;
use propagators::Basis;
use sqlite_items::Items;
use std::alloc::Global;
use yaml_text::Tree;

const BUBBLE: &'static str =
    "kinematics :\n  incoming_momenta: [p1]\n  kinematic_invariants:\n    - [s, 2]\n  scalarproduct_rules:\n    - [[p1,p1], s]\n";

const BUBBLE_FAMILY: &'static str =
    "integralfamilies:\n  - name: bub\n    loop_momenta: [k1]\n    propagators:\n      - [k1, 0]\n      - [k1+p1, 0]\n";

// How many values the numeric point gives.
fn parameter_count(kinematics: &Kinematics) -> usize
    requires { IsSound kinematics.now }
    ensures { result ≡ spec.parameter_count kinematics.now }
{
    match kinematics.symbol {
        Some(_) => kinematics.invariants.len(),
        None => 1 + kinematics.invariants.len(),
    }
}

// A number over another, as the word at this place gives it: a number of one digit.
fn over(place: u32, numerator: u128, number: u128) -> Setting {
    Setting {
        file: File::Words,
        line: place,
        ratio: Ratio {
            is_negative: false,
            numerator,
            divisor: Some(Divisor { at: 1, number }),
        },
    }
}

fn numeric_point(alloc: Global, prime: u64, settings: &[Setting]) -> Option<NumericPoint> {
    let prime = Modulus::new(prime).ok()?;
    let settings = Items::from_slice(alloc, settings).ok()?;
    Some(NumericPoint { prime, settings })
}

// What the files say at the point, or `None` where they are at fault or have other parameters.
fn trees_at(
    alloc: Global,
    kinematics: &Tree,
    families: &Tree,
    point: &NumericPoint,
) -> Option<Result<AtPoint, PlanError>> {
    let kinematics = match kinematics_schema::read(alloc, kinematics) {
        Ok(kinematics) => kinematics,
        Err(_) => return None,
    };
    let families = match family_schema::read(alloc, &kinematics, families) {
        Ok(families) => families,
        Err(_) => return None,
    };
    if point.settings.len() != parameter_count(&kinematics) {
        return None;
    }
    Some(at_point(alloc, &kinematics, families.as_slice(), point))
}

// What the files say at the point with these values.
fn outcome_of(
    alloc: Global,
    kinematics: &str,
    families: &str,
    prime: u64,
    settings: &[Setting],
) -> Option<Result<AtPoint, PlanError>> {
    let kinematics = tree_of(alloc, kinematics)?;
    let families = tree_of(alloc, families)?;
    let point = numeric_point(alloc, prime, settings)?;
    trees_at(alloc, &kinematics, &families, &point)
}

fn values_of(
    alloc: Global,
    kinematics: &str,
    families: &str,
    prime: u64,
    settings: &[Setting],
) -> Option<AtPoint> {
    outcome_of(alloc, kinematics, families, prime, settings)?.ok()
}

fn derivative(basis: &Basis, loop_number: u32, momentum: u32, denominator: u32) -> &[u64] {
    let width = basis.width();
    let loops = basis.loops();
    let momenta = loops + basis.externals();
    let has_loop = 1 <= loop_number && loop_number <= loops;
    let has_momentum = 1 <= momentum && momentum <= momenta;
    let has_denominator = 1 <= denominator && denominator <= width;
    if has_loop && has_momentum && has_denominator {
        basis.derivative(loop_number, momentum, denominator)
    } else {
        &[]
    }
}

// D = k*k - 3, and the derivative is 2*k*k = 6 + 2*D.
fn is_tadpole(at: &AtPoint) -> bool {
    match at.bases.as_slice() {
        [basis] => {
            at.modulus.value() == 101
                && at.dimension == 7
                && basis.loops() == 1
                && basis.width() == 1
                && basis.externals() == 0
                && derivative(basis, 1, 1, 1) == [6, 2].as_slice()
        }
        _ => false,
    }
}

#[test]
fn values_a_tadpole(rt: HostRuntime) {
    let settings = [whole(7), whole(3)];
    match values_of(rt.alloc(), KINEMATICS, FAMILIES, 101, &settings) {
        Some(at) => assert!(rt; is_tadpole(&at)),
        None => assert!(rt; false),
    }
}

// With D1 = k*k and D2 = k*k + 2*k*p + 5: times k they give 2*D1 and D1 + D2 - 5, and times p they give
// D2 - D1 - 5 and D2 - D1 + 5.
fn is_bubble(at: &AtPoint) -> bool {
    match at.bases.as_slice() {
        [basis] => {
            basis.externals() == 1
                && derivative(basis, 1, 1, 1) == [0, 2, 0].as_slice()
                && derivative(basis, 1, 1, 2) == [96, 1, 1].as_slice()
                && derivative(basis, 1, 2, 1) == [96, 100, 1].as_slice()
                && derivative(basis, 1, 2, 2) == [5, 100, 1].as_slice()
        }
        _ => false,
    }
}

#[test]
fn values_a_bubble(rt: HostRuntime) {
    let settings = [whole(7), whole(5)];
    match values_of(rt.alloc(), BUBBLE, BUBBLE_FAMILY, 101, &settings) {
        Some(at) => assert!(rt; is_bubble(&at)),
        None => assert!(rt; false),
    }
}

// Whether there is one family, and its first derivative times the loop momentum is this row.
fn has_own_derivative(at: &AtPoint, row: &[u64]) -> bool {
    match at.bases.as_slice() {
        [basis] => derivative(basis, 1, 1, 1) == row,
        _ => false,
    }
}

// 2*51 is 1 modulo 101, so 7/2 is 54 and -7/2 is 47.
#[test]
fn values_a_negative_ratio(rt: HostRuntime) {
    let half = Setting {
        file: File::Jobs,
        line: 11,
        ratio: Ratio {
            is_negative: true,
            numerator: 7,
            divisor: Some(Divisor { at: 2, number: 2 }),
        },
    };
    let settings = [half, over(2, 7, 2)];
    match values_of(rt.alloc(), KINEMATICS, FAMILIES, 101, &settings) {
        Some(at) => assert!(rt; at.dimension == 47 && has_own_derivative(&at, &[7, 2])),
        None => assert!(rt; false),
    }
}

const SYMBOL: &'static str =
    "kinematics:\n  incoming_momenta: []\n  kinematic_invariants: [[t, 2], [s, 2], [u, 2]]\n  symbol_to_replace_by_one: s\n";

const SYMBOL_FAMILY: &'static str =
    "integralfamilies:\n  - name: tad\n    loop_momenta: [k1]\n    propagators: [[k1, t + 10*s + 2*u]]\n";

// With t = 3 and u = 20 the mass is 3 + 10 + 40.
#[test]
fn replaces_the_symbol_by_one(rt: HostRuntime) {
    let settings = [whole(7), whole(3), whole(20)];
    match values_of(rt.alloc(), SYMBOL, SYMBOL_FAMILY, 1009, &settings) {
        Some(at) => assert!(rt; has_own_derivative(&at, &[106, 2])),
        None => assert!(rt; false),
    }
}

// The fault with all its numbers; a vector has its first two entries and its length.
#[derive(Clone, Copy, PartialEq, Eq, Drop)]
enum Cause {
    None,
    Divisor(File, u32, u32),
    Open(u64, usize),
    Dependent(u32, u64, u64),
    Clash,
    Composite(u64),
    Input(File, u32, InputKind),
    Other,
}

fn entry(vector: &[u64], place: usize) -> u64 {
    if place < vector.len() {
        vector[place]
    } else {
        0
    }
}

fn cause_of(outcome: &Result<AtPoint, PlanError>) -> Cause {
    match outcome {
        Ok(_) => Cause::None,
        Err(PlanError::Singular(singular)) => match singular {
            Singular::ZeroDivisor { file, line, at } => Cause::Divisor(*file, *line, *at),
            Singular::RulesOpen { vector } => {
                Cause::Open(entry(vector.entries(), 0), vector.entries().len())
            }
            Singular::NotBasis { family, vector } => Cause::Dependent(
                *family,
                entry(vector.entries(), 0),
                entry(vector.entries(), 1),
            ),
        },
        Err(PlanError::RulesClash { .. }) => Cause::Clash,
        Err(PlanError::Composite(composite)) => Cause::Composite(composite.divisor),
        Err(PlanError::Input(fault)) => Cause::Input(fault.file, fault.line, fault.kind),
        Err(_) => Cause::Other,
    }
}

fn has_cause(
    alloc: Global,
    kinematics: &str,
    families: &str,
    prime: u64,
    settings: &[Setting],
    cause: Cause,
) -> bool {
    match outcome_of(alloc, kinematics, families, prime, settings) {
        Some(outcome) => cause_of(&outcome) == cause,
        None => false,
    }
}

// The invariant goes before the dimension, and 101 is 0.
#[test]
fn refuses_values_of_the_point(rt: HostRuntime) {
    for (settings, cause) in [
        (
            [over(3, 1, 0), over(2, 5, 101)],
            Cause::Divisor(File::Words, 2, 1),
        ),
        ([over(3, 1, 0), whole(5)], Cause::Divisor(File::Words, 3, 1)),
    ] {
        assert!(rt; has_cause(rt.alloc(), KINEMATICS, FAMILIES, 101, &settings, cause));
    }
}

const FAULTY: &'static str =
    "kinematics:\n  incoming_momenta: [p1]\n  kinematic_invariants:\n    - [s, 2]\n  scalarproduct_rules:\n    - [[p1,p1], 1/(s-5)]\n    - [[p1,p1], 1]\n";

const FAULTY_FAMILIES: &'static str =
    "integralfamilies:\n  - name: bub\n    loop_momenta: [k1]\n    propagators:\n      - [k1, 0]\n      - [k1+p1, \"2 + 1/(s-6)\"]\n  - name: two\n    loop_momenta: [k1]\n    propagators:\n      - [k1, 1]\n      - [k1, 2]\n";

const NO_RULES: &'static str =
    "kinematics:\n  incoming_momenta: [p1]\n  kinematic_invariants:\n    - [s, 2]\n  scalarproduct_rules: []\n";

// All of the later steps have a fault too: at s = 1/0 the value, at 5 the first rule, at 7 the rules, which
// agree at 6 alone; then the mass at 6, and at 8 the second family.
#[test]
fn refuses_the_first_step(rt: HostRuntime) {
    for (kinematics, value, cause) in [
        (FAULTY, over(2, 1, 0), Cause::Divisor(File::Words, 2, 1)),
        (FAULTY, whole(5), Cause::Divisor(File::Kinematics, 6, 1)),
        (FAULTY, whole(7), Cause::Clash),
        (NO_RULES, whole(6), Cause::Open(1, 1)),
        (FAULTY, whole(6), Cause::Divisor(File::Families, 6, 5)),
        (BUBBLE, whole(8), Cause::Dependent(1, 1, 100)),
    ] {
        let settings = [whole(7), value];
        assert!(rt;
            has_cause(
                rt.alloc(),
                kinematics,
                FAULTY_FAMILIES,
                101,
                &settings,
                cause
            )
        );
    }
}

const MAPS: &'static str =
    "integralfamilies:\n  - name: bub\n    loop_momenta: [k1]\n    propagators: [[k1, 0], [k1+p1, s-5]]\n    symmetries:\n      - {k1: k1}\n      - {k1: -k1-p1}\n";

fn places(at: &AtPoint, family: usize, number: usize) -> &[u8] {
    match at.symmetries.get(family) {
        Some(found) => {
            match found.get(number) {
                Some(symmetry) => symmetry.places(),
                None => &[],
            }
        }
        None => &[],
    }
}

fn has_two_maps(at: &AtPoint) -> bool {
    at.symmetries.len() == 1
        && places(at, 0, 0) == [1, 2].as_slice()
        && places(at, 0, 1) == [2, 1].as_slice()
}

fn has_exchange(alloc: Global) -> bool {
    match values_of(alloc, BUBBLE, MAPS, 101, &[whole(7), whole(5)]) {
        Some(at) => has_two_maps(&at),
        None => false,
    }
}

// At s = 5 both denominators are massless, and the second map exchanges them. At 6 they differ.
#[test]
fn a_map_has_to_permute_the_denominators(rt: HostRuntime) {
    assert!(rt; has_exchange(rt.alloc()));
    let settings = [whole(7), whole(6)];
    let cause = Cause::Input(File::Families, 7, InputKind::NotAPermutation);
    assert!(rt; has_cause(rt.alloc(), BUBBLE, MAPS, 101, &settings, cause));
}

const CLASH: &'static str =
    "kinematics: {incoming_momenta: [p1], scalarproduct_rules: [[[p1,p1], 7], [[p1,p1], 0]]}";

// Under multipliers that sum to 0 the values 7 and 0 of one product sum to the residue.
fn cancel(multipliers: &[u64], residue: u64) -> bool {
    match multipliers {
        [first, second] => {
            residue != 0
                && (*first as u128 + *second as u128) % 101 == 0
                && 7 * (*first as u128) % 101 == residue as u128
        }
        _ => false,
    }
}

fn is_clash(outcome: &Result<AtPoint, PlanError>) -> bool {
    match outcome {
        Err(
            PlanError::RulesClash {
                multipliers,
                residue,
            },
        ) => cancel(multipliers.entries(), *residue),
        _ => false,
    }
}

#[test]
fn tells_how_rules_clash(rt: HostRuntime) {
    match outcome_of(rt.alloc(), CLASH, BUBBLE_FAMILY, 101, &[whole(7)]) {
        Some(outcome) => assert!(rt; is_clash(&outcome)),
        None => assert!(rt; false),
    }
}

const THREE_RULE: &'static str =
    "kinematics:\n  incoming_momenta: [p1]\n  kinematic_invariants:\n    - [s, 2]\n  scalarproduct_rules:\n    - [[3*p1,p1], s]\n";

const THREE_VALUE: &'static str =
    "kinematics:\n  incoming_momenta: [p1]\n  kinematic_invariants:\n    - [s, 2]\n  scalarproduct_rules:\n    - [[p1,p1], 1/s]\n";

const THREE_FAMILY: &'static str =
    "integralfamilies:\n  - name: bub\n    loop_momenta: [k1]\n    propagators:\n      - [3*k1, 0]\n      - [k1+p1, 0]\n";

// Modulo 15 neither 3 nor 9 has an inverse, and 5 is their common divisor in the second.
#[test]
fn names_a_divisor_of_the_modulus(rt: HostRuntime) {
    for (kinematics, families, value, divisor) in [
        (BUBBLE, BUBBLE_FAMILY, over(2, 1, 3), 3),
        (BUBBLE, BUBBLE_FAMILY, over(2, 1, 10), 5),
        (THREE_VALUE, BUBBLE_FAMILY, whole(6), 3),
        (THREE_RULE, BUBBLE_FAMILY, whole(6), 3),
        (BUBBLE, THREE_FAMILY, whole(6), 3),
    ] {
        let settings = [whole(7), value];
        let cause = Cause::Composite(divisor);
        assert!(rt; has_cause(rt.alloc(), kinematics, families, 15, &settings, cause));
    }
}
