//! Small jobs with what they say, and faults of several files in their order, worked out by hand.

use job_plan::{File, InputKind, Outline, Override, PlanError, outline, read_override};
use job_schema::{Divisor, Ratio, Setting};
use std::alloc::Global;
use yaml_text::Tree;

pub(crate) const KINEMATICS: &'static str =
    "kinematics :\n  incoming_momenta: []\n  outgoing_momenta: []\n  kinematic_invariants:\n    - [m2, 2]\n  scalarproduct_rules: []\n";

pub(crate) const FAMILIES: &'static str =
    "integralfamilies:\n  - name: \"tad\"\n    loop_momenta: [k1]\n    top_level_sectors: [1]\n    propagators:\n      - [\"k1\", \"m2\"]\n";

pub(crate) const JOB: &'static str =
    "jobs:\n  - reduce_sectors:\n      reduce:\n        - {topologies: [tad], sectors: [1], r: 2, s: 0}\n      select_integrals:\n        select_mandatory_recursively:\n          - {topologies: [tad], sectors: [1], r: 3, s: 0}\n      run_initiate: true\n      run_triangular: true\n      run_back_substitution: true\n      numeric_point: {prime: 101, d: 7, m2: 3}\n";

const NO_FAMILY: &'static str = "integralfamilies:\n  []";

/// The words of a command, of which the first is the name of the job file.
fn words_of(alloc: Global, words: &[&str]) -> Option<Vec<Override>> {
    let mut made = Vec::new(alloc);
    let mut place = 2;
    for word in words {
        if word.len() > 1000 || place > 1000 {
            return None;
        }
        made.push(read_override(alloc, place, word).ok()?).ok()?;
        place += 1;
    }
    Some(made)
}

pub(crate) fn tree_of(alloc: Global, text: &str) -> Option<Tree> {
    if text.len() > 1000 {
        return None;
    }
    match yaml_text::read(alloc, text.as_bytes()) {
        Ok(tree) => Some(tree),
        Err(_) => None,
    }
}

/// The trees of the three files.
#[derive(Drop)]
struct Trees {
    kinematics: Tree,
    families: Tree,
    jobs: Tree,
}

fn trees_of(alloc: Global, kinematics: &str, families: &str, jobs: &str) -> Option<Trees> {
    let kinematics = tree_of(alloc, kinematics)?;
    let families = tree_of(alloc, families)?;
    let jobs = tree_of(alloc, jobs)?;
    Some(Trees {
        kinematics,
        families,
        jobs,
    })
}

/// What the files and the words say, or `None` where a text is no tree or too long, or memory was refused.
fn outline_of(
    alloc: Global,
    kinematics: &str,
    families: &str,
    jobs: &str,
    words: &[&str],
) -> Option<Result<Outline, PlanError>> {
    let trees = trees_of(alloc, kinematics, families, jobs)?;
    let words = words_of(alloc, words)?;
    Some(outline(
        alloc,
        &trees.families,
        &trees.kinematics,
        &trees.jobs,
        &words,
    ))
}

/// The outline of a job without a fault.
pub(crate) fn sound_outline(
    alloc: Global,
    kinematics: &str,
    families: &str,
    jobs: &str,
    words: &[&str],
) -> Option<Outline> {
    outline_of(alloc, kinematics, families, jobs, words)?.ok()
}

fn has_fault(outcome: &Result<Outline, PlanError>, file: File, line: u32, kind: InputKind) -> bool {
    match outcome {
        Err(PlanError::Input(fault)) => {
            fault.file == file && fault.line == line && fault.kind == kind
        }
        _ => false,
    }
}

// The word is at fault, and a file that is read before the words goes before it.
#[test]
fn names_the_first_fault(rt: HostRuntime) {
    for (families, file, line, kind) in [
        (NO_FAMILY, File::Families, 2, InputKind::OutOfRange),
        (FAMILIES, File::Words, 2, InputKind::BadOverride),
    ] {
        match outline_of(rt.alloc(), KINEMATICS, families, JOB, &["m2"]) {
            Some(outcome) => assert!(rt; has_fault(&outcome, file, line, kind)),
            None => assert!(rt; false),
        }
    }
}

/// A whole number that stands on line 11 of the file of jobs.
pub(crate) fn whole(numerator: u128) -> Setting {
    Setting {
        file: File::Jobs,
        line: 11,
        ratio: Ratio {
            is_negative: false,
            numerator,
            divisor: None,
        },
    }
}

fn has_family(outline: &Outline, number: u32, name: &str, width: u32) -> bool {
    number < outline.family_count()
        && outline.family_name(number) == name
        && outline.families()[number as usize].width == width
}

// d is 7, and m2 is 3.
fn has_tadpole_point(outline: &Outline) -> bool {
    let point = outline.numeric_point();
    point.prime.value() == 101 && point.settings.as_slice() == [whole(7), whole(3)].as_slice()
}

fn is_tadpole(outline: &Outline) -> bool {
    outline.list_count() == 0
        && outline.family_count() == 1
        && has_family(outline, 0, "tad", 1)
        && outline.kinematics().invariants.len() == 1
        && has_tadpole_point(outline)
}

fn tadpole(alloc: Global) -> Option<Outline> {
    sound_outline(alloc, KINEMATICS, FAMILIES, JOB, &[])
}

#[test]
fn reads_the_tadpole(rt: HostRuntime) {
    match tadpole(rt.alloc()) {
        Some(outline) => assert!(rt; is_tadpole(&outline)),
        None => assert!(rt; false),
    }
}

/// The invariant s is 1.
pub(crate) const ONE_MOMENTUM: &'static str =
    "kinematics:\n  incoming_momenta: [p]\n  kinematic_invariants: [[s, 2], [m2, 2]]\n  scalarproduct_rules: [[[p, p], s]]\n  symbol_to_replace_by_one: s\n";

pub(crate) const TWO_FAMILIES: &'static str =
    "integralfamilies:\n  - {name: bub, loop_momenta: [k], propagators: [[k, m2], [k+p, 0]]}\n  - {name: sun, loop_momenta: [k, l], top_level_sectors: [7], propagators: [[k, m2], [l, 0], [k+l+p, 0], [k+p, 0], [l+p, 0]]}\n";

pub(crate) const TWO_LISTS: &'static str =
    "jobs:\n  - reduce_sectors:\n      reduce:\n        - {topologies: [sun], sectors: [7], r: 3, s: 1}\n        - {topologies: [bub], sectors: [3], r: 2, s: 0}\n      select_integrals:\n        select_mandatory_list:\n          - [sun, first]\n          - [bub, \"the second\"]\n      numeric_point: {prime: 101, m2: 1/2}\n";

fn two_families(alloc: Global) -> Option<Outline> {
    sound_outline(alloc, ONE_MOMENTUM, TWO_FAMILIES, TWO_LISTS, &["d=-3"])
}

fn has_list(outline: &Outline, number: u32, name: &str) -> bool {
    number < outline.list_count() && outline.list_name(number) == name
}

// One loop and one external momentum give 2 denominators, and two loops give 5.
fn names_two_families(outline: &Outline) -> bool {
    outline.family_count() == 2
        && has_family(outline, 0, "bub", 2)
        && has_family(outline, 1, "sun", 5)
        && outline.list_count() == 2
        && has_list(outline, 0, "first")
        && has_list(outline, 1, "the second")
}

#[test]
fn reads_two_families(rt: HostRuntime) {
    match two_families(rt.alloc()) {
        Some(outline) => assert!(rt; names_two_families(&outline)),
        None => assert!(rt; false),
    }
}

// The parameters are d, which a word gives, and m2.
fn has_two_settings(outline: &Outline) -> bool {
    let dimension = Setting {
        file: File::Words,
        line: 2,
        ratio: Ratio {
            is_negative: true,
            numerator: 3,
            divisor: None,
        },
    };
    let mass = Setting {
        file: File::Jobs,
        line: 10,
        ratio: Ratio {
            is_negative: false,
            numerator: 1,
            divisor: Some(Divisor { at: 1, number: 2 }),
        },
    };
    outline.numeric_point().settings.as_slice() == [dimension, mass].as_slice()
}

#[test]
fn words_go_before_the_file(rt: HostRuntime) {
    match two_families(rt.alloc()) {
        Some(outline) => assert!(rt; has_two_settings(&outline)),
        None => assert!(rt; false),
    }
}
