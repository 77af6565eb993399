//! The files of small jobs, for tests.

// The texts of the three files, and of one list file with its name.
#[derive(Clone, Copy)]
pub(crate) struct Files {
    pub jobs: &'static str,
    pub families: &'static str,
    pub kinematics: &'static str,
    pub list: (&'static str, &'static str),
}

/// No list file.
pub(crate) const NO_LIST: (&str, &str) = ("", "");

// One squared mass, and no external momentum.
pub(crate) const ONE_MASS: &str = "\
kinematics :
  incoming_momenta: []
  outgoing_momenta: []
  kinematic_invariants:
    - [m2, 2]
  scalarproduct_rules: []
";

pub(crate) const TADPOLE_JOBS: &str = "\
jobs:
  - reduce_sectors:
      reduce:
        - {topologies: [tad], sectors: [1], r: 2, s: 0}
      select_integrals:
        select_mandatory_recursively:
          - {topologies: [tad], sectors: [1], r: 3, s: 0}
      run_initiate: true
      run_triangular: true
      run_back_substitution: true
      numeric_point: {prime: 101, d: 7, m2: 3}
";

pub(crate) const TADPOLE_FAMILIES: &str = "\
integralfamilies:
  - name: \"tad\"
    loop_momenta: [k1]
    top_level_sectors: [1]
    propagators:
      - [\"k1\", \"m2\"]
";

pub(crate) const TADPOLE: Files = Files {
    jobs: TADPOLE_JOBS,
    families: TADPOLE_FAMILIES,
    kinematics: ONE_MASS,
    list: NO_LIST,
};

/// Two families that differ in their names alone.
pub(crate) const TWO_TADPOLES: Files = Files {
    jobs: "\
jobs:
  - reduce_sectors:
      reduce:
        - {topologies: [tad, tbd], sectors: [1], r: 2, s: 0}
      select_integrals:
        select_mandatory_recursively:
          - {topologies: [tad, tbd], sectors: [1], r: 3, s: 0}
      numeric_point: {prime: 101, d: 7, m2: 3}
",
    families: "\
integralfamilies:
  - {name: tad, loop_momenta: [k1], propagators: [[k1, m2]]}
  - {name: tbd, loop_momenta: [k1], propagators: [[k1, m2]]}
",
    kinematics: ONE_MASS,
    list: NO_LIST,
};

pub(crate) const BUBBLE_JOBS: &str = "\
jobs:
  - reduce_sectors:
      reduce:
        - {topologies: [bub], sectors: [3], r: 2, s: 0}
      select_integrals:
        select_mandatory_recursively:
          - {topologies: [bub], sectors: [3], r: 3, s: 0}
      numeric_point: {prime: 101, d: 7, s: 5}
";

pub(crate) const BUBBLE_FAMILIES: &str = "\
integralfamilies:
  - name: \"bub\"
    loop_momenta: [k1]
    top_level_sectors: [3]
    propagators:
      - [\"k1\", 0]
      - [\"k1+p1\", 0]
    zero_sectors: [1, 2]
";

pub(crate) const BUBBLE_KINEMATICS: &str = "\
kinematics:
  incoming_momenta: [p1]
  outgoing_momenta: [p2]
  momentum_conservation: [p2, p1]
  kinematic_invariants:
    - [s, 2]
  scalarproduct_rules:
    - [[p1,p1], s]
";

pub(crate) const BUBBLE: Files = Files {
    jobs: BUBBLE_JOBS,
    families: BUBBLE_FAMILIES,
    kinematics: BUBBLE_KINEMATICS,
    list: NO_LIST,
};

pub(crate) const TRIANGLE_FAMILY: &str = "\
integralfamilies:
  - name: \"tri\"
    loop_momenta: [k1]
    top_level_sectors: [7]
    propagators:
      - [\"k1\", 0]
      - [\"k1+p1\", 0]
      - [\"k1-p2\", 0]
    zero_sectors: [3, 5]
";

pub(crate) const TWO_MASSLESS_LEGS: &str = "\
kinematics:
  incoming_momenta: [p1, p2, p3]
  momentum_conservation: [p3, -p1-p2]
  kinematic_invariants:
    - [s, 2]
  scalarproduct_rules:
    - [[p1,p1], 0]
    - [[p2,p2], 0]
    - [[p1+p2,p1+p2], s]
";

pub(crate) const TRIANGLE: Files = Files {
    jobs: "\
jobs:
  - reduce_sectors:
      reduce:
        - {topologies: [tri], sectors: [7], r: 3, s: 0}
      select_integrals:
        select_mandatory_recursively:
          - {topologies: [tri], sectors: [7], r: 3, s: 0}
      numeric_point: {prime: 101, d: 7, s: 5}
",
    families: TRIANGLE_FAMILY,
    kinematics: TWO_MASSLESS_LEGS,
    list: NO_LIST,
};

pub(crate) const LISTED_TRIANGLE_JOBS: &str = "\
jobs:
  - reduce_sectors:
      reduce:
        - {topologies: [tri], sectors: [7], r: 3, s: 0}
      select_integrals:
        select_mandatory_list:
          - [tri, wanted]
      numeric_point: {prime: 101, d: 7, s: 5}
";

/// The triangle, of which a list selects.
pub(crate) const LISTED_TRIANGLE: Files = Files {
    jobs: LISTED_TRIANGLE_JOBS,
    families: TRIANGLE_FAMILY,
    kinematics: TWO_MASSLESS_LEGS,
    list: ("wanted", "tri[1,1,0]\n"),
};

pub(crate) const BOX_JOBS: &str = "\
jobs:
  - reduce_sectors:
      reduce:
        - {topologies: [box], sectors: [15], r: 4, s: 1}
      select_integrals:
        select_mandatory_list:
          - [box, boxlist]
      numeric_point: {prime: 101, d: 7, s: 5, t: 11}
";

pub(crate) const BOX_FAMILIES: &str = "\
integralfamilies:
  - name: \"box\"
    loop_momenta: [k1]
    top_level_sectors: [15]
    propagators:
      - [\"k1\", 0]
      - [\"k1+p1\", 0]
      - [\"k1+p1+p2\", 0]
      - [\"k1+p1+p2+p3\", 0]
    zero_sectors: [3, 6, 12, 9]
";

pub(crate) const BOX_KINEMATICS: &str = "\
kinematics:
  incoming_momenta: [p1, p2, p3, p4]
  momentum_conservation: [p4, -p1-p2-p3]
  kinematic_invariants:
    - [s, 2]
    - [t, 2]
  scalarproduct_rules:
    - [[p1,p1], 0]
    - [[p2,p2], 0]
    - [[p3,p3], 0]
    - [[p4,p4], 0]
    - [[p1+p2,p1+p2], s]
    - [[p2+p3,p2+p3], t]
";

pub(crate) const BOX_LIST: (&str, &str) = (
    "boxlist",
    "box[1,0,1,0]\nbox[0,1,0,1]\nbox[1,1,1,0]\nbox[1,1,1,1]\nbox[1,1,2,1]\n",
);

pub(crate) const BOX: Files = Files {
    jobs: BOX_JOBS,
    families: BOX_FAMILIES,
    kinematics: BOX_KINEMATICS,
    list: BOX_LIST,
};

pub(crate) const VACUUM: Files = Files {
    jobs: "\
jobs:
  - reduce_sectors:
      reduce:
        - {topologies: [vac], sectors: [7], r: 3, s: 0}
      select_integrals:
        select_mandatory_recursively:
          - {topologies: [vac], sectors: [7], r: 3, s: 0}
        select_mandatory_list:
          - [vac, vaclist]
      numeric_point: {prime: 101, d: 7, m2: 3}
",
    families: "\
integralfamilies:
  - name: vac
    loop_momenta: [k1, k2]
    top_level_sectors: [7]
    propagators: [[k1, m2], [k2, m2], [k1-k2, 0]]
    zero_sectors: [5, 6]
",
    kinematics: ONE_MASS,
    list: ("vaclist", "vac[2,1,1]\n"),
};
