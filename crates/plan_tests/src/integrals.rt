//! The seeds, the selection and the equations of small jobs, and jobs with too many of them, worked out by hand.

use crate::plans::{Cause, Refused, is_refused, sound_plan};
use job_plan::{Excess, File, InputFault, InputKind, Plan};
use sparse_row::Row;
use std::alloc::Global;

const BUBBLE_KINEMATICS: &'static str =
    "kinematics:\n  incoming_momenta: [p1]\n  outgoing_momenta: [p2]\n  momentum_conservation: [p2, p1]\n  kinematic_invariants: [[s, 2]]\n  scalarproduct_rules: [[[p1,p1], s]]\n";

const BUBBLE_FAMILY: &'static str =
    "integralfamilies:\n  - {name: bub, loop_momenta: [k1], propagators: [[k1, 0], [k1+p1, 0]], zero_sectors: [1, 2], symmetries: [{k1: -k1-p1}]}\n";

const TWO_MAPS: &'static str =
    "integralfamilies:\n  - name: bub\n    loop_momenta: [k1]\n    propagators: [[k1, 0], [k1+p1, 0]]\n    symmetries:\n      - {k1: -k1-p1}\n      - {k1: -k1}\n";

const BUBBLE_JOB: &'static str =
    "jobs:\n  - reduce_sectors:\n      reduce: [{topologies: [bub], sectors: [3], r: 2, s: 0}]\n      select_integrals: {select_mandatory_recursively: [{topologies: [bub], sectors: [3], r: 3, s: 0}]}\n      numeric_point: {prime: 101, d: 7, s: 5}\n";

const TRIANGLE_KINEMATICS: &'static str =
    "kinematics:\n  incoming_momenta: [p1, p2, p3]\n  momentum_conservation: [p3, -p1-p2]\n  kinematic_invariants: [[s, 2]]\n  scalarproduct_rules:\n    - [[p1,p1], 0]\n    - [[p2,p2], 0]\n    - [[p1+p2,p1+p2], s]\n";

const TRIANGLE_FAMILY: &'static str =
    "integralfamilies:\n  - {name: tri, loop_momenta: [k1], top_level_sectors: [7], propagators: [[k1, 0], [k1+p1, 0], [k1-p2, 0]], zero_sectors: [3, 5]}\n";

const TRIANGLE_JOB: &'static str =
    "jobs:\n  - reduce_sectors:\n      reduce: [{topologies: [tri], sectors: [7], r: 3, s: 0}]\n      select_integrals:\n        select_mandatory_recursively: [{topologies: [tri], sectors: [7], r: 3, s: 0}]\n        select_mandatory_list: [[tri, more]]\n      numeric_point: {prime: 101, d: 7, s: 5}\n";

const BOX_KINEMATICS: &'static str =
    "kinematics:\n  incoming_momenta: [p1, p2, p3, p4]\n  momentum_conservation: [p4, -p1-p2-p3]\n  kinematic_invariants: [[s, 2], [t, 2]]\n  scalarproduct_rules:\n    - [[p1,p1], 0]\n    - [[p2,p2], 0]\n    - [[p3,p3], 0]\n    - [[p4,p4], 0]\n    - [[p1+p2,p1+p2], s]\n    - [[p2+p3,p2+p3], t]\n";

const BOX_FAMILY: &'static str =
    "integralfamilies:\n  - {name: box, loop_momenta: [k1], top_level_sectors: [15], propagators: [[k1, 0], [k1+p1, 0], [k1+p1+p2, 0], [k1+p1+p2+p3, 0]], zero_sectors: [3, 6, 12, 9]}\n";

const BOX_JOB: &'static str =
    "jobs:\n  - reduce_sectors:\n      reduce: [{topologies: [box], sectors: [15], r: 4, s: 1}]\n      select_integrals: {select_mandatory_list: [[box, boxlist]]}\n      numeric_point: {prime: 101, d: 7, s: 5, t: 11}\n";

const BOX_LIST: &'static str =
    "box[1,0,1,0]\nbox[0,1,0,1]\nbox[1,1,1,0]\nbox[1,1,1,1]\nbox[1,1,2,1]\n";

/// The seeds of sector 15 alone with r up to 100 are C(100, 4) = 3921225.
const MANY_SEEDS: &'static str =
    "jobs:\n  - reduce_sectors:\n      reduce: [{topologies: [box], sectors: [15], r: 100, s: 1}]\n      select_integrals: {select_mandatory_list: [[box, boxlist]]}\n      numeric_point: {prime: 101, d: 7, s: 5, t: 11}\n";

const NO_MOMENTA: &'static str = "kinematics: {incoming_momenta: []}\n";

/// Five loop momenta have 15 scalar products. The denominators are no basis, which is found later.
const FIVE_LOOPS: &'static str =
    "integralfamilies:\n  - {name: vac, loop_momenta: [k, l, m, n, o], propagators: [[k, 0], [k, 0], [k, 0], [k, 0], [k, 0], [k, 0], [k, 0], [k, 0], [k, 0], [k, 0], [k, 0], [k, 0], [k, 0], [k, 0], [k, 0]]}\n";

/// Sector 1 up to r and s has r * C(14 + s, s) integrals: 24 * 120 = 2880 for r 24 and s 2.
const MANY_TERMS: &'static str =
    "jobs:\n  - reduce_sectors:\n      reduce: [{topologies: [vac], sectors: [1], r: 24, s: 2}]\n      select_integrals: {}\n      numeric_point: {prime: 101, d: 1/0}\n";

/// And 43 * 3060 = 131580 for r 43 and s 4.
const MANY_SELECTED: &'static str =
    "jobs:\n  - reduce_sectors:\n      reduce: [{topologies: [vac], sectors: [1], r: 24, s: 2}]\n      select_integrals: {select_mandatory_recursively: [{topologies: [vac], sectors: [1], r: 43, s: 4}]}\n      numeric_point: {prime: 101, d: 1/0}\n";

/// Both too many seeds and too many selected integrals.
const MANY_OF_BOTH: &'static str =
    "jobs:\n  - reduce_sectors:\n      reduce: [{topologies: [vac], sectors: [1], r: 43, s: 4}]\n      select_integrals: {select_mandatory_recursively: [{topologies: [vac], sectors: [1], r: 43, s: 4}]}\n      numeric_point: {prime: 101, d: 1/0}\n";

// Whether a plan has so many seeds, selected integrals and equations.
fn has_sizes(plan: &Plan, seeds: u64, selected: usize, equations: usize) -> bool {
    match plan.equations() {
        Ok(rows) => {
            plan.seed_count() == seeds
                && plan.selection().len() == selected
                && rows.len() == equations
        }
        Err(_) => false,
    }
}

fn is_empty_at(rows: &[Row], place: usize) -> bool {
    match rows.get(place) {
        Some(row) => row.terms().is_empty(),
        None => false,
    }
}

fn has_empty_equation(plan: &Plan, place: usize) -> bool {
    match plan.equations() {
        Ok(rows) => is_empty_at(&rows, place),
        Err(_) => false,
    }
}

fn bubble(alloc: Global) -> Option<Plan> {
    sound_plan(
        alloc,
        BUBBLE_KINEMATICS,
        BUBBLE_FAMILY,
        BUBBLE_JOB,
        &[],
        &[],
    )
}

// One seed with two momenta and a symmetry, which leaves it as it is, and the selection of 1 + 2.
#[test]
fn plans_the_bubble(rt: HostRuntime) {
    match bubble(rt.alloc()) {
        Some(plan) => assert!(rt; has_sizes(&plan, 1, 3, 3) && has_empty_equation(&plan, 2)),
        None => assert!(rt; false),
    }
}

// Whether the selected integral at this place has these indices.
fn selects(plan: &Plan, place: usize, indices: &[i8]) -> bool {
    match plan.selection().get(place) {
        Some(integral) => integral.family() == 0 && integral.indices() == indices,
        None => false,
    }
}

fn triangle(alloc: Global) -> Option<Plan> {
    sound_plan(
        alloc,
        TRIANGLE_KINEMATICS,
        TRIANGLE_FAMILY,
        TRIANGLE_JOB,
        &[],
        &["tri[0,1,2]\ntri[1,1,0]\n"],
    )
}

// Sectors 6 and 7 aren't zero: 3 + 1 seeds with three momenta. The list file names one of them again, and
// one of sector 3, which is zero: both have fewer positive indices than the last seed.
fn is_triangle(plan: &Plan) -> bool {
    has_sizes(plan, 4, 5, 12)
        && selects(plan, 0, &[1, 1, 0])
        && selects(plan, 1, &[0, 1, 1])
        && selects(plan, 2, &[0, 1, 2])
        && selects(plan, 3, &[0, 2, 1])
        && selects(plan, 4, &[1, 1, 1])
}

#[test]
fn plans_the_triangle(rt: HostRuntime) {
    match triangle(rt.alloc()) {
        Some(plan) => assert!(rt; is_triangle(&plan)),
        None => assert!(rt; false),
    }
}

fn one_box(alloc: Global) -> Option<Plan> {
    sound_plan(alloc, BOX_KINEMATICS, BOX_FAMILY, BOX_JOB, &[], &[BOX_LIST])
}

// A script enumerated 69 seeds, each with four momenta.
fn is_box(plan: &Plan) -> bool {
    has_sizes(plan, 69, 5, 276) && plan.family_count() == 1 && plan.width(0) == 4
}

#[test]
fn plans_the_box(rt: HostRuntime) {
    match one_box(rt.alloc()) {
        Some(plan) => assert!(rt; is_box(&plan)),
        None => assert!(rt; false),
    }
}

// The first map exchanges the denominators. The second one makes (k1 - p1)^2 of the second, which is none.
const NO_SYMMETRY: Refused = Refused {
    kinematics: BUBBLE_KINEMATICS,
    families: TWO_MAPS,
    jobs: BUBBLE_JOB,
    words: &[],
    lists: &[],
    cause: Cause::Input(InputFault {
        file: File::Families,
        line: 7,
        kind: InputKind::NotAPermutation,
    }),
};

#[test]
fn names_the_first_map_that_is_no_symmetry(rt: HostRuntime) {
    assert!(rt; is_refused(rt.alloc(), &NO_SYMMETRY));
}

// The first list file has no fault, the second has one on its third line, behind a comment.
const FAULT_OF_LISTS: Refused = Refused {
    kinematics: crate::outlines::ONE_MOMENTUM,
    families: crate::outlines::TWO_FAMILIES,
    jobs: crate::outlines::TWO_LISTS,
    words: &["d=1/0"],
    lists: &["sun[1,1,1,0,-1]\n", "bub[1,1]\n# two\nbub[1]\nsun[1]\n"],
    cause: Cause::Input(InputFault {
        file: File::List(1),
        line: 3,
        kind: InputKind::WrongCount,
    }),
};

#[test]
fn names_the_first_fault_of_lists(rt: HostRuntime) {
    assert!(rt; is_refused(rt.alloc(), &FAULT_OF_LISTS));
}

// A fault of a list file goes before too many seeds.
const MANY_SEEDS_REFUSED: [Refused; 2] = [
    Refused {
        kinematics: BOX_KINEMATICS,
        families: BOX_FAMILY,
        jobs: MANY_SEEDS,
        words: &[],
        lists: &["bix[1,1,1,1]"],
        cause: Cause::Input(InputFault {
            file: File::List(0),
            line: 1,
            kind: InputKind::UnknownName,
        }),
    },
    Refused {
        kinematics: BOX_KINEMATICS,
        families: BOX_FAMILY,
        jobs: MANY_SEEDS,
        words: &[],
        lists: &[BOX_LIST],
        cause: Cause::TooMany(Excess::Seeds, 131073),
    },
];

#[test]
fn refuses_many_seeds(rt: HostRuntime) {
    for refused in &MANY_SEEDS_REFUSED {
        assert!(rt; is_refused(rt.alloc(), refused));
    }
}

// The dimension, which divides by zero, comes last in each of these.
fn five_loops_have_too_many(alloc: Global, jobs: &'static str, what: Excess, count: u64) -> bool {
    is_refused(
        alloc,
        &Refused {
            kinematics: NO_MOMENTA,
            families: FIVE_LOOPS,
            jobs,
            words: &[],
            lists: &[],
            cause: Cause::TooMany(what, count),
        },
    )
}

#[test]
fn tests_seeds_before_the_selection(rt: HostRuntime) {
    let alloc = rt.alloc();
    assert!(rt; five_loops_have_too_many(alloc, MANY_OF_BOTH, Excess::Seeds, 131073));
}

#[test]
fn tests_the_selection_before_terms(rt: HostRuntime) {
    let alloc = rt.alloc();
    assert!(rt; five_loops_have_too_many(alloc, MANY_SELECTED, Excess::Selected, 131073));
}

// A seed has 5 * 5 equations of 15 * 15 + 15 + 1 terms: 2880 * 25 * 241 = 17352000.
#[test]
fn refuses_many_terms(rt: HostRuntime) {
    let alloc = rt.alloc();
    assert!(rt; five_loops_have_too_many(alloc, MANY_TERMS, Excess::Terms, 17352000));
}
