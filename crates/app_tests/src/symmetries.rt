//! Jobs whose families name symmetries: tables and refusals worked out by hand, and the sunrise's table by
//! examples/reference.py.

use crate::calls::{Printed, Refused, all_print, all_refuse};
use crate::jobs::{
    BOX_JOBS, BOX_KINEMATICS, BOX_LIST, BUBBLE_JOBS, BUBBLE_KINEMATICS, Files, NO_LIST,
};
use std::test::Fail;

// The bubble with its lines exchanged.
const EXCHANGED_BUBBLE: Files = Files {
    jobs: BUBBLE_JOBS,
    families: "\
integralfamilies:
  - name: \"bub\"
    loop_momenta: [k1]
    top_level_sectors: [3]
    propagators:
      - [\"k1\", 0]
      - [\"k1+p1\", 0]
    zero_sectors: [1, 2]
    symmetries:
      - {k1: \"-k1-p1\"}
",
    kinematics: BUBBLE_KINEMATICS,
    list: NO_LIST,
};

// A map that is a symmetry only modulo the prime: 100 is -1 modulo 101, and isn't modulo 103.
const BUBBLE_MODULO_101: Files = Files {
    jobs: BUBBLE_JOBS,
    families: "\
integralfamilies:
  - name: \"bub\"
    loop_momenta: [k1]
    top_level_sectors: [3]
    propagators:
      - [\"k1\", 0]
      - [\"k1+p1\", 0]
    zero_sectors: [1, 2]
    symmetries:
      - {k1: \"100*k1+100*p1\"}
",
    kinematics: BUBBLE_KINEMATICS,
    list: NO_LIST,
};

const BUBBLE_TABLE: &str = "\
bub[1,1] = 1*bub[1,1]
bub[1,2] = 80*bub[1,1]
bub[2,1] = 80*bub[1,1]
masters 1
bub[1,1]
";

// The sunrise of one squared mass, whose first and third propagators are exchanged.
const SUNRISE: Files = Files {
    jobs: "\
jobs:
  - reduce_sectors:
      reduce: [{topologies: [sun], sectors: [7], r: 3, s: 0}]
      select_integrals:
        select_mandatory_recursively: [{topologies: [sun], sectors: [7], r: 3, s: 0}]
      numeric_point: {prime: 101, d: 7, s: 2, m2: 5}
",
    families: "\
integralfamilies:
  - name: sun
    loop_momenta: [k1, k2]
    top_level_sectors: [7]
    propagators: [[k1, m2], [k1-k2, m2], [k2-p1, m2], [k2, 0], [k1-p1, 0]]
    zero_sectors: [1, 2, 4]
    symmetries: [{k1: p1-k2, k2: p1-k1}]
",
    kinematics: "\
kinematics:
  incoming_momenta: [p1]
  kinematic_invariants: [[s, 2], [m2, 2]]
  scalarproduct_rules: [[[p1,p1], s]]
",
    list: NO_LIST,
};

// The symmetry leaves fewer masters: the products of the first two tadpoles and of the last two are equal.
const SUNRISE_TABLE: &str = "\
sun[1,1,0,0,0] = 1*sun[1,1,0,0,0]
sun[1,2,0,0,0] = 51*sun[1,1,0,0,0]
sun[2,1,0,0,0] = 51*sun[1,1,0,0,0]
sun[1,0,1,0,0] = 1*sun[1,0,1,0,0]
sun[1,0,2,0,0] = 51*sun[1,0,1,0,0]
sun[2,0,1,0,0] = 51*sun[1,0,1,0,0]
sun[0,1,1,0,0] = 1*sun[1,1,0,0,0]
sun[0,1,2,0,0] = 51*sun[1,1,0,0,0]
sun[0,2,1,0,0] = 51*sun[1,1,0,0,0]
sun[1,1,1,0,0] = 1*sun[1,1,1,0,0]
masters 3
sun[1,1,0,0,0]
sun[1,0,1,0,0]
sun[1,1,1,0,0]
";

const TABLES: &[Printed] = &[
    (&EXCHANGED_BUBBLE, "jobs.yaml", BUBBLE_TABLE),
    (&BUBBLE_MODULO_101, "jobs.yaml", BUBBLE_TABLE),
    (&SUNRISE, "jobs.yaml", SUNRISE_TABLE),
];

#[test]
fn tables_of_jobs_with_symmetries(rt: HostRuntime) -> Result<(), Fail> {
    all_print(&rt, rt.alloc(), TABLES)
}

// The box by k1 -> -k1 - p1 - p2: (k1 + p1)^2 becomes (k1 + p2)^2, which is no denominator.
const TURNED_BOX: Files = Files {
    jobs: BOX_JOBS,
    families: "\
integralfamilies:
  - name: box
    loop_momenta: [k1]
    propagators:
      - [k1, 0]
      - [k1+p1, 0]
      - [k1+p1+p2, 0]
      - [k1+p1+p2+p3, 0]
    symmetries:
      - {k1: -k1-p1-p2}
",
    kinematics: BOX_KINEMATICS,
    list: BOX_LIST,
};

const NO_SYMMETRY: &str = "\
kira: config/integralfamilies.yaml:10: not a symmetry of the denominators
";

const NO_SYMMETRIES: &[Refused] = &[
    (&BUBBLE_MODULO_101, "jobs.yaml prime=103", 3, NO_SYMMETRY),
    (&TURNED_BOX, "jobs.yaml", 3, NO_SYMMETRY),
];

#[test]
fn maps_that_are_no_symmetries(rt: HostRuntime) -> Result<(), Fail> {
    all_refuse(&rt, rt.alloc(), NO_SYMMETRIES)
}
