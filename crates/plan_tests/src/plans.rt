//! Plans of small jobs, and why there is none, worked out by hand.

ghost use Rattle.std.specs.Prelude.{◌≡◌, ◌≤◌, ◌^◌, All, IfSome, length};

use crate::outlines::{FAMILIES, JOB, KINEMATICS, ONE_MOMENTUM, TWO_LISTS, sound_outline};
use integral_index::Order;
use job_plan::{Excess, File, InputFault, Outline, Plan, PlanError, Singular, plan};
use sparse_row::Row;
use std::alloc::Global;

/// The families of `TWO_LISTS` with sectors that are zero.
const TWO_FAMILIES: &'static str =
    "integralfamilies:\n  - {name: bub, loop_momenta: [k], zero_sectors: [2, 1, 2], propagators: [[k, m2], [k+p, 0]]}\n  - {name: sun, loop_momenta: [k, l], top_level_sectors: [7], zero_sectors: [8, 3], propagators: [[k, m2], [l, 0], [k+l+p, 0], [k+p, 0], [l+p, 0]]}\n";

const CLASH: &'static str =
    "kinematics: {incoming_momenta: [p], scalarproduct_rules: [[[p,p], 7], [[p,p], 0]]}";

const OPEN: &'static str = "kinematics: {incoming_momenta: [p]}";

const CLOSED: &'static str =
    "kinematics: {incoming_momenta: [p], scalarproduct_rules: [[[p,p], 5]]}";

/// The denominators of the second family are dependent.
const DEPENDENT: &'static str =
    "integralfamilies:\n  - {name: bub, loop_momenta: [k], propagators: [[k, 0], [k+p, 0]]}\n  - {name: two, loop_momenta: [k], propagators: [[k, 1], [k, 2]]}\n";

const BUBBLE_JOB: &'static str =
    "jobs:\n  - reduce_sectors:\n      reduce:\n        - {topologies: [bub], sectors: [3], r: 2, s: 0}\n      select_integrals: {}\n      numeric_point: {prime: 101, d: 7}\n";

/// The texts of list files.
fn texts_of(alloc: Global, lists: &[&str]) -> Option<Vec<Vec<u8>>>
    ensures { IfSome result (λ texts. All (λ text. length text.items ≤ 2 ^ 24) texts.items) }
{
    let mut texts = Vec::new(alloc);
    for list in lists {
        if list.len() > 1000 {
            return None;
        }
        let text = Vec::from_slice(alloc, list.as_bytes()).ok()?;
        texts.push(text).ok()?;
    }
    Some(texts)
}

/// The plan of an outline whose list files have these texts.
fn planned(alloc: Global, outline: &Outline, lists: &[&str]) -> Option<Result<Plan, PlanError>> {
    let texts = texts_of(alloc, lists)?;
    if texts.len() != outline.list_count() as usize {
        return None;
    }
    Some(plan(alloc, outline, &texts))
}

/// The plan of a job, or `None` where it has no outline.
fn plan_of(
    alloc: Global,
    kinematics: &str,
    families: &str,
    jobs: &str,
    words: &[&str],
    lists: &[&str],
) -> Option<Result<Plan, PlanError>> {
    let outline = sound_outline(alloc, kinematics, families, jobs, words)?;
    planned(alloc, &outline, lists)
}

/// The plan of a job that has one.
pub(crate) fn sound_plan(
    alloc: Global,
    kinematics: &str,
    families: &str,
    jobs: &str,
    words: &[&str],
    lists: &[&str],
) -> Option<Plan> {
    plan_of(alloc, kinematics, families, jobs, words, lists)?.ok()
}

fn has_family(plan: &Plan, number: u32, name: &str, zeros: &[u32]) -> bool {
    number < plan.family_count()
        && plan.family_name(number) == name
        && plan.zeros(number).listed() == zeros
}

fn has_count(plan: &Plan, count: usize) -> bool {
    plan.names().len() == count && plan.zero_lists().len() == count
}

// The terms of an equation, from the greatest integral to the least.
type Terms<'a> = &'a [(&'a [i8], u64)];

fn has_terms(row: &Row, wanted: Terms) -> bool {
    let terms = row.terms();
    if terms.len() != wanted.len() {
        return false;
    }
    for place in 0..terms.len() {
        let (indices, coefficient) = wanted[place];
        if terms[place].integral.indices() != indices || terms[place].coefficient != coefficient {
            return false;
        }
    }
    true
}

fn has_equation(plan: &Plan, place: usize, wanted: Terms) -> bool {
    match plan.equations() {
        Ok(rows) => match rows.get(place) {
            Some(row) => has_terms(row, wanted),
            None => false,
        },
        Err(_) => false,
    }
}

fn tadpole(alloc: Global) -> Option<Plan> {
    sound_plan(alloc, KINEMATICS, FAMILIES, JOB, &[], &[])
}

// D = k*k - 3, whose derivative times k is 6 + 2*D. So (7 - 2a)*I(a) - 6a*I(a+1) is the equation of the seed a.
fn is_tadpole(plan: &Plan) -> bool {
    plan.modulus().value() == 101
        && plan.order() == Order::Standard
        && has_count(plan, 1)
        && has_family(plan, 0, "tad", &[])
        && has_equation(plan, 0, &[(&[2], 95), (&[1], 5)])
        && has_equation(plan, 1, &[(&[3], 89), (&[2], 3)])
}

#[test]
fn plans_the_tadpole(rt: HostRuntime) {
    match tadpole(rt.alloc()) {
        Some(plan) => assert!(rt; is_tadpole(&plan)),
        None => assert!(rt; false),
    }
}

fn two_families(alloc: Global) -> Option<Plan> {
    sound_plan(
        alloc,
        ONE_MOMENTUM,
        TWO_FAMILIES,
        TWO_LISTS,
        &["d=-3"],
        &["", ""],
    )
}

// The seeds of sun are 15 of sector 4, 12 each of sectors 5 and 6, and 3 of sector 7; bub has one.
fn has_two_families(plan: &Plan) -> bool {
    plan.seed_count() == 43
        && has_count(plan, 2)
        && has_family(plan, 0, "bub", &[1, 2])
        && has_family(plan, 1, "sun", &[3, 8])
}

#[test]
fn plans_two_families(rt: HostRuntime) {
    match two_families(rt.alloc()) {
        Some(plan) => assert!(rt; has_two_families(&plan)),
        None => assert!(rt; false),
    }
}

// The dimension is -3, m2 is 1/2, which is 51, and s is 1. For bub the derivatives of the denominators by k, times
// k, are 1 + 2*D1 and 50 + D1 + D2, and the integrals of sector 2 are zero. For sun that of the third denominator
// is 51 + D1 + D3 - D5. The first 90 equations are those of sector 4 of sun.
fn has_two_bases(plan: &Plan) -> bool {
    has_equation(plan, 90, &[(&[2, 1], 100), (&[1, 2], 51), (&[1, 1], 95)])
        && has_equation(
            plan,
            0,
            &[
                (&[0, 0, 2, 0, -1], 1),
                (&[-1, 0, 2, 0, 0], 100),
                (&[0, 0, 2, 0, 0], 50),
                (&[0, 0, 1, 0, 0], 97),
            ],
        )
}

#[test]
fn plans_two_bases(rt: HostRuntime) {
    match two_families(rt.alloc()) {
        Some(plan) => assert!(rt; has_two_bases(&plan)),
        None => assert!(rt; false),
    }
}

// The fault with its numbers; a vector has its first entry and its length.
#[derive(PartialEq, Eq, Drop)]
pub(crate) enum Cause {
    None,
    Divisor(File, u32, u32),
    Open(u64, usize),
    Dependent(u32, u64, usize),
    Clash(usize),
    Composite(u64),
    Input(InputFault),
    TooMany(Excess, u64),
    Other,
}

fn first(vector: &[u64]) -> u64 {
    match vector {
        [entry, ..] => *entry,
        [] => 0,
    }
}

fn cause_of(outcome: &Result<Plan, PlanError>) -> Cause {
    match outcome {
        Ok(_) => Cause::None,
        Err(PlanError::Singular(singular)) => match singular {
            Singular::ZeroDivisor { file, line, at } => Cause::Divisor(*file, *line, *at),
            Singular::RulesOpen { vector } => {
                Cause::Open(first(vector.entries()), vector.entries().len())
            }
            Singular::NotBasis { family, vector } => {
                Cause::Dependent(*family, first(vector.entries()), vector.entries().len())
            }
        },
        Err(PlanError::RulesClash { multipliers, .. }) => Cause::Clash(multipliers.entries().len()),
        Err(PlanError::Composite(composite)) => Cause::Composite(composite.divisor),
        Err(PlanError::Input(fault)) => Cause::Input(*fault),
        Err(PlanError::TooMany { what, count }) => Cause::TooMany(*what, *count),
        Err(_) => Cause::Other,
    }
}

/// The texts of the files and the words, with why there is no plan.
#[derive(Drop)]
pub(crate) struct Refused {
    pub(crate) kinematics: &'static str,
    pub(crate) families: &'static str,
    pub(crate) jobs: &'static str,
    pub(crate) words: &'static [&'static str],
    pub(crate) lists: &'static [&'static str],
    pub(crate) cause: Cause,
}

// The dimension is 1/0; modulo 15 the mass 1/3 has no value; two rules of one product clash; no rule leaves
// it open; and two squares of one momentum are dependent.
const REFUSED: [Refused; 5] = [
    Refused {
        kinematics: KINEMATICS,
        families: FAMILIES,
        jobs: JOB,
        words: &["d=1/0"],
        lists: &[],
        cause: Cause::Divisor(File::Words, 2, 1),
    },
    Refused {
        kinematics: KINEMATICS,
        families: FAMILIES,
        jobs: JOB,
        words: &["prime=15", "m2=1/3"],
        lists: &[],
        cause: Cause::Composite(3),
    },
    Refused {
        kinematics: CLASH,
        families: DEPENDENT,
        jobs: BUBBLE_JOB,
        words: &[],
        lists: &[],
        cause: Cause::Clash(2),
    },
    Refused {
        kinematics: OPEN,
        families: DEPENDENT,
        jobs: BUBBLE_JOB,
        words: &[],
        lists: &[],
        cause: Cause::Open(1, 1),
    },
    Refused {
        kinematics: CLOSED,
        families: DEPENDENT,
        jobs: BUBBLE_JOB,
        words: &[],
        lists: &[],
        cause: Cause::Dependent(1, 1, 2),
    },
];

pub(crate) fn is_refused(alloc: Global, refused: &Refused) -> bool {
    match plan_of(
        alloc,
        refused.kinematics,
        refused.families,
        refused.jobs,
        refused.words,
        refused.lists,
    ) {
        Some(outcome) => cause_of(&outcome) == refused.cause,
        None => false,
    }
}

#[test]
fn refuses_a_plan(rt: HostRuntime) {
    for refused in &REFUSED {
        assert!(rt; is_refused(rt.alloc(), refused));
    }
}
