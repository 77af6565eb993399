//! Tables and refusals of small jobs, and failing calls, over files and sinks in memory. The coefficients were
//! worked out by hand from the equations, and their residues by Python.

use crate::calls::{Printed, Refused, all_print, all_refuse, call_over, call_with, held};
use crate::jobs::{
    BOX, BOX_FAMILIES, BOX_JOBS, BOX_KINEMATICS, BOX_LIST, BUBBLE, BUBBLE_FAMILIES, BUBBLE_JOBS,
    BUBBLE_KINEMATICS, Files, LISTED_TRIANGLE, LISTED_TRIANGLE_JOBS, NO_LIST, ONE_MASS, TADPOLE,
    TADPOLE_JOBS, TRIANGLE, TRIANGLE_FAMILY, TWO_MASSLESS_LEGS, TWO_TADPOLES, VACUUM,
};
use kira_outside::MemorySink;
use std::alloc::Global;
use std::test::Fail;

const TADPOLE_TABLE: &str = "\
tad[1] = 1*tad[1]
tad[2] = 85*tad[1]
tad[3] = 97*tad[1]
masters 1
tad[1]
";

const TADPOLE_IN_TWO: &str = "\
tad[1] = 1*tad[1]
tad[2] = 0
tad[3] = 0
masters 1
tad[1]
";

const TADPOLE_MODULO_25: &str = "\
tad[1] = 1*tad[1]
tad[2] = 5*tad[1]
tad[3] = 20*tad[1]
masters 1
tad[1]
";

const TADPOLE_MODULO_31_BITS: &str = "\
tad[1] = 1*tad[1]
tad[2] = 357913942*tad[1]
tad[3] = 1163220309*tad[1]
masters 1
tad[1]
";

const TADPOLE_MODULO_63_BITS: &str = "\
tad[1] = 1*tad[1]
tad[2] = 1537228672809129298*tad[1]
tad[3] = 4995993186629670216*tad[1]
masters 1
tad[1]
";

// Without a mass it is its own master.
const MASSLESS_TADPOLE: &str = "\
tad[1] = 0
tad[2] = 0
tad[3] = 1*tad[3]
masters 1
tad[3]
";

const TADPOLE_TABLES: &[Printed] = &[
    (&TADPOLE, "jobs.yaml", TADPOLE_TABLE),
    (&TADPOLE, "jobs.yaml d=2", TADPOLE_IN_TWO),
    (&TADPOLE, "jobs.yaml m2=6/2 d=-94", TADPOLE_TABLE),
    (&TADPOLE, "jobs.yaml prime=25", TADPOLE_MODULO_25),
    (
        &TADPOLE,
        "jobs.yaml prime=2147483647",
        TADPOLE_MODULO_31_BITS,
    ),
    (
        &TADPOLE,
        "jobs.yaml prime=9223372036854775783",
        TADPOLE_MODULO_63_BITS,
    ),
    (&TADPOLE, "jobs.yaml m2=0", MASSLESS_TADPOLE),
];

#[test]
fn tables_of_the_tadpole(rt: HostRuntime) -> Result<(), Fail> {
    all_print(&rt, rt.alloc(), TADPOLE_TABLES)
}

const TWO_TADPOLES_TABLE: &str = "\
tad[1] = 1*tad[1]
tad[2] = 85*tad[1]
tad[3] = 97*tad[1]
tbd[1] = 1*tbd[1]
tbd[2] = 85*tbd[1]
tbd[3] = 97*tbd[1]
masters 2
tad[1]
tbd[1]
";

const BUBBLE_TABLE: &str = "\
bub[1,1] = 1*bub[1,1]
bub[1,2] = 80*bub[1,1]
bub[2,1] = 80*bub[1,1]
masters 1
bub[1,1]
";

const TRIANGLE_TABLE: &str = "\
tri[0,1,1] = 1*tri[0,1,1]
tri[0,1,2] = 80*tri[0,1,1]
tri[0,2,1] = 80*tri[0,1,1]
tri[1,1,1] = 87*tri[0,1,1]
masters 1
tri[0,1,1]
";

const BOX_TABLE: &str = "\
box[1,0,1,0] = 1*box[1,0,1,0]
box[0,1,0,1] = 1*box[0,1,0,1]
box[1,1,1,0] = 87*box[1,0,1,0]
box[1,1,1,1] = 1*box[1,1,1,1]
box[1,1,2,1] = 40*box[1,1,1,1] + 69*box[0,1,0,1]
masters 3
box[1,0,1,0]
box[0,1,0,1]
box[1,1,1,1]
";

// Of two loops.
const VACUUM_TABLE: &str = "\
vac[1,1,0] = 1*vac[1,1,0]
vac[1,2,0] = 85*vac[1,1,0]
vac[2,1,0] = 85*vac[1,1,0]
vac[1,1,1] = 97*vac[1,1,0]
vac[2,1,1] = 31*vac[1,1,0]
masters 1
vac[1,1,0]
";

const TRIANGLE_OF_AN_EMPTY_LIST: Files = Files {
    jobs: LISTED_TRIANGLE_JOBS,
    families: TRIANGLE_FAMILY,
    kinematics: TWO_MASSLESS_LEGS,
    list: ("wanted", ""),
};

// An integral of a zero sector may be selected, and so may none: the last two have no masters.
const OTHER_TABLES: &[Printed] = &[
    (&TWO_TADPOLES, "jobs.yaml", TWO_TADPOLES_TABLE),
    (&BUBBLE, "jobs.yaml", BUBBLE_TABLE),
    (&TRIANGLE, "jobs.yaml", TRIANGLE_TABLE),
    (&BOX, "jobs.yaml", BOX_TABLE),
    (&VACUUM, "jobs.yaml", VACUUM_TABLE),
    (&LISTED_TRIANGLE, "jobs.yaml", "tri[1,1,0] = 0\nmasters 0\n"),
    (&TRIANGLE_OF_AN_EMPTY_LIST, "jobs.yaml", "masters 0\n"),
];

#[test]
fn tables_of_other_jobs(rt: HostRuntime) -> Result<(), Fail> {
    all_print(&rt, rt.alloc(), OTHER_TABLES)
}

const SAME_CALLS: &[Printed] = &[
    (&TADPOLE, "-- jobs.yaml d=2", TADPOLE_IN_TWO),
    (&TADPOLE, "-p 2 jobs.yaml d=2", TADPOLE_IN_TWO),
    (&TADPOLE, "jobs.yaml --parallel=64 d=2", TADPOLE_IN_TWO),
];

// Options don't change a table, and two hyphens end them.
#[test]
fn options_beside_a_job(rt: HostRuntime) -> Result<(), Fail> {
    all_print(&rt, rt.alloc(), SAME_CALLS)
}

const BUBBLE_WITH_A_FACTOR: Files = Files {
    jobs: BUBBLE_JOBS,
    families: "\
integralfamilies:
  - {name: bub, loop_momenta: [k1], propagators: [[k1, 0], [k1+3*p1, 0]]}
",
    kinematics: BUBBLE_KINEMATICS,
    list: NO_LIST,
};

const DIVISIBLE: &str = "kira: the prime is divisible by 3\n";

// Modulo 15 the elimination, a mass and a basis need an inverse that isn't there.
const DIVISORS: &[Refused] = &[
    (&TADPOLE, "jobs.yaml prime=15", 5, DIVISIBLE),
    (&TADPOLE, "jobs.yaml prime=15 m2=1/3", 5, DIVISIBLE),
    (&BUBBLE_WITH_A_FACTOR, "jobs.yaml prime=15", 5, DIVISIBLE),
];

#[test]
fn a_divisor_of_the_modulus_is_named(rt: HostRuntime) -> Result<(), Fail> {
    all_refuse(&rt, rt.alloc(), DIVISORS)
}

const BUBBLE_OF_ONE_DENOMINATOR: Files = Files {
    jobs: BUBBLE_JOBS,
    families: "\
integralfamilies:
  - {name: bub, loop_momenta: [k1], propagators: [[k1, 0], [k1, 0]]}
",
    kinematics: BUBBLE_KINEMATICS,
    list: NO_LIST,
};

const DEPENDENT: &[Refused] = &[(
    &BUBBLE_OF_ONE_DENOMINATOR,
    "jobs.yaml",
    4,
    "kira: the denominators of family bub are dependent\n",
)];

#[test]
fn denominators_may_be_dependent(rt: HostRuntime) -> Result<(), Fail> {
    all_refuse(&rt, rt.alloc(), DEPENDENT)
}

// The mass is 3.
const TADPOLE_OVER_ZERO: Files = Files {
    jobs: TADPOLE_JOBS,
    families: "\
integralfamilies:
  - name: tad
    loop_momenta: [k1]
    propagators:
      - [k1, m2/(m2 - 3)]
",
    kinematics: ONE_MASS,
    list: NO_LIST,
};

const BUBBLE_OF_CLASHING_RULES: Files = Files {
    jobs: BUBBLE_JOBS,
    families: BUBBLE_FAMILIES,
    kinematics: "\
kinematics:
  incoming_momenta: [p1]
  kinematic_invariants: [[s, 2]]
  scalarproduct_rules: [[[p1,p1], s], [[p1,p1], 0]]
",
    list: NO_LIST,
};

const BUBBLE_WITHOUT_RULES: Files = Files {
    jobs: BUBBLE_JOBS,
    families: BUBBLE_FAMILIES,
    kinematics: "kinematics: {incoming_momenta: [p1], kinematic_invariants: [[s, 2]]}\n",
    list: NO_LIST,
};

const BOX_OF_MANY_SEEDS: Files = Files {
    jobs: "\
jobs:
  - reduce_sectors:
      reduce:
        - {topologies: [box], sectors: [15], r: 100, s: 1}
      select_integrals: {}
      numeric_point: {prime: 101, d: 7, s: 5, t: 11}
",
    families: BOX_FAMILIES,
    kinematics: BOX_KINEMATICS,
    list: BOX_LIST,
};

// A division by zero is told at its slash, rules may clash or leave a product open, and a job may pass the
// limit of its seeds.
const NO_VALUES: &[Refused] = &[
    (
        &TADPOLE,
        "jobs.yaml m2=5/101",
        4,
        "kira: words:2: division by zero at byte 1\n",
    ),
    (
        &TADPOLE_OVER_ZERO,
        "jobs.yaml",
        4,
        "kira: config/integralfamilies.yaml:5: division by zero at byte 2\n",
    ),
    (
        &BUBBLE_OF_CLASHING_RULES,
        "jobs.yaml",
        4,
        "kira: the scalar product rules contradict each other\n",
    ),
    (
        &BUBBLE_WITHOUT_RULES,
        "jobs.yaml",
        4,
        "kira: the scalar product rules leave a product open\n",
    ),
    (
        &BOX_OF_MANY_SEEDS,
        "jobs.yaml",
        6,
        "kira: more than 131072 seeds\n",
    ),
];

#[test]
fn jobs_without_a_plan(rt: HostRuntime) -> Result<(), Fail> {
    all_refuse(&rt, rt.alloc(), NO_VALUES)
}

const BOX_OF_ANOTHER_LIST: Files = Files {
    jobs: BOX_JOBS,
    families: BOX_FAMILIES,
    kinematics: BOX_KINEMATICS,
    list: ("other", ""),
};

const BOX_OF_AN_UNKNOWN_NAME: Files = Files {
    jobs: BOX_JOBS,
    families: BOX_FAMILIES,
    kinematics: BOX_KINEMATICS,
    list: ("boxlist", "box[1,1,1,1]\n# none\nbix[1,1,1,1]\n"),
};

const BOX_OF_THREE_INDICES: Files = Files {
    jobs: BOX_JOBS,
    families: BOX_FAMILIES,
    kinematics: BOX_KINEMATICS,
    list: ("boxlist", "box[1,1,1]\n"),
};

const BOX_OF_NO_INTEGRAL: Files = Files {
    jobs: BOX_JOBS,
    families: BOX_FAMILIES,
    kinematics: BOX_KINEMATICS,
    list: ("boxlist", "box 1\n"),
};

// A list file is named by its own name, and its lines are read once all list files are loaded.
const LIST_FAULTS: &[Refused] = &[
    (
        &BOX_OF_ANOTHER_LIST,
        "jobs.yaml",
        3,
        "kira: boxlist:0: no such file\n",
    ),
    (
        &BOX_OF_AN_UNKNOWN_NAME,
        "jobs.yaml",
        3,
        "kira: boxlist:3: unknown name\n",
    ),
    (
        &BOX_OF_THREE_INDICES,
        "jobs.yaml",
        3,
        "kira: boxlist:1: wrong count\n",
    ),
    (
        &BOX_OF_NO_INTEGRAL,
        "jobs.yaml",
        3,
        "kira: boxlist:1: not an integral\n",
    ),
];

#[test]
fn faults_of_list_files(rt: HostRuntime) -> Result<(), Fail> {
    all_refuse(&rt, rt.alloc(), LIST_FAULTS)
}

const USAGE: &str =
    "kira: usage: kira [-p N] [--save=FILE] [--save-limit=N] [--units=N] JOBFILE [NAME=VALUE]... or kira [-p N] --sample=N\n";

// Words of no call, and words that are not served.
const REFUSED_WORDS: &[Refused] = &[
    (&TADPOLE, "", 2, USAGE),
    (&TADPOLE, "--units=1 jobs.yaml", 2, USAGE),
    (&TADPOLE, "-p 0 jobs.yaml", 2, USAGE),
    (&TADPOLE, "--sample=2 jobs.yaml", 2, USAGE),
    (&TADPOLE, "-p 2 -p 2 jobs.yaml", 2, USAGE),
    (&TADPOLE, "--help jobs.yaml", 2, USAGE),
    (&TADPOLE, "--save=s jobs.yaml", 21, "kira: not yet\n"),
    (&TADPOLE, "--sample=2", 21, "kira: not yet\n"),
];

#[test]
fn words_that_are_refused(rt: HostRuntime) -> Result<(), Fail> {
    all_refuse(&rt, rt.alloc(), REFUSED_WORDS)
}

const HELP: &[Printed] = &[(&TADPOLE, "--help", USAGE)];

#[test]
fn the_usage_line(rt: HostRuntime) -> Result<(), Fail> {
    all_print(&rt, rt.alloc(), HELP)
}

const AT_FOUR: &[Refused] = &[(
    &TADPOLE,
    "-p 2 jobs.yaml m3=1",
    3,
    "kira: words:4: unknown name\n",
)];

// The place of an override counts the options.
#[test]
fn places_count_all_words(rt: HostRuntime) -> Result<(), Fail> {
    all_refuse(&rt, rt.alloc(), AT_FOUR)
}

// Whether the call is refused where the load with this number fails.
fn fails_at_load(alloc: Global, load: u64) -> Result<bool, Fail> {
    let mut files = held(alloc, &BOX, vec![in alloc; load]?)?;
    let ended = call_over(alloc, "jobs.yaml", &mut files)?;
    Ok(ended.is(7, b"", b"kira: reading failed\n"))
}

#[test]
fn a_failing_load_is_a_read_fault(rt: HostRuntime) -> Result<(), Fail> {
    for load in 1..5u64 {
        let is_right = fails_at_load(rt.alloc(), load)?;
        assert!(rt; is_right, "{load}");
    }
    Ok(())
}

// A sink that takes so many bytes of each write, and fails at the write or flush with this number.
fn failing_sink(alloc: Global, piece: usize, write: u64) -> Result<MemorySink, Fail> {
    let failing = vec![in alloc; write]?;
    Ok(MemorySink::new(alloc, failing, piece.max(1), 65536)?)
}

// Whether the call fails by this sink, and has sent so many bytes of its table then.
fn stops_after(alloc: Global, out: MemorySink, sent: usize) -> Result<bool, Fail> {
    let mut files = held(alloc, &TADPOLE, Vec::new(alloc))?;
    let ended = call_with(alloc, "jobs.yaml", &mut files, out)?;
    let table = &TADPOLE_TABLE.as_bytes()[..sent.min(TADPOLE_TABLE.len())];
    Ok(ended.is(9, table, b"kira: writing failed\n"))
}

// Whether each of so many writes, and the flush behind them, may fail: the pieces before it are sent.
fn each_may_fail(alloc: Global, piece: usize, writes: u64) -> Result<bool, Fail> {
    for sent in 0..writes.saturating_add(1) {
        let out = failing_sink(alloc, piece, sent.saturating_add(1))?;
        if !stops_after(alloc, out, piece.saturating_mul(sent as usize))? {
            return Ok(false);
        }
    }
    Ok(true)
}

// The text has 73 bytes, so that so many writes are made of each piece, and then one flush.
const PIECES: &[(usize, u64)] = &[(1, 73), (7, 11), (10, 8)];

#[test]
fn a_failing_write_leaves_a_prefix(rt: HostRuntime) -> Result<(), Fail> {
    for (piece, writes) in PIECES {
        let is_right = each_may_fail(rt.alloc(), *piece, *writes)?;
        assert!(rt; is_right, "{piece}");
    }
    Ok(())
}
