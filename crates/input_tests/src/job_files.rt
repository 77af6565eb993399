//! Small files of jobs and words with what they say, and some of their faults, worked out by hand.

ghost use Rattle.std.specs.Prelude.{◌≡◌, ◌≤◌, ◌<◌, ◌^◌, length, All, IsTrue};

use crate::shared::{fault_in, is_fault, names_of, tree_of};
use input_schema::{File, InputFault, InputKind, SchemaError};
use job_schema::{
    Divisor, Frame, Job, NumericPoint, Override, PointInput, Ratio, Setting, override_point,
    read_jobs, read_override,
};
use seed_sets::Spec;
use sqlite_items::Items;
use std::alloc::Global;
use std::test::Fail;
use text_tokens::Name;

// Sector 7 of the vacuum is in none of its top level sectors, and 8 is none of its sectors.
const OUTSIDE: &'static str =
    "jobs:\n  - reduce_sectors:\n      reduce:\n        - topologies: [vac]\n          sectors:\n            - 1\n            - 7\n            - 8\n          r: 1\n          s: 0\n      select_integrals: {}\n      numeric_point: {}\n";

// The prime and the dimension have a value, m2 has none.
const POINT: &'static str =
    "jobs:\n  - reduce_sectors:\n      reduce:\n        - {topologies: [tad], sectors: [1], r: 2, s: 0}\n      select_integrals: {}\n      numeric_point: {prime: 101, d: -7/2}\n";

// The width and the top level sectors of the tadpole, of the bubble, and of a vacuum of three denominators.
const FRAMES: &[(u32, &[u32])] = &[(1, &[1]), (2, &[3]), (3, &[5, 6])];

// What a job is read with.
#[derive(Drop)]
struct Declared {
    names: Vec<Name>,
    frames: Vec<Frame>,
    parameters: Vec<Name>,
}

fn frames_of(alloc: Global) -> Result<Vec<Frame>, Fail> {
    let mut frames = Vec::new(alloc);
    for (width, top_level) in FRAMES {
        let top_level = Items::from_slice(alloc, top_level)?;
        frames.push(Frame {
            width: *width,
            top_level,
        })?;
    }
    Ok(frames)
}

fn declare(alloc: Global) -> Result<Declared, Fail> {
    Ok(Declared {
        names: names_of(alloc, &["tad", "bub", "vac"])?,
        frames: frames_of(alloc)?,
        parameters: names_of(alloc, &["d", "m2"])?,
    })
}

fn are_narrow(frames: &[Frame]) -> bool
    ensures { IsTrue result → All (λ frame. frame.width ≤ 20) frames.now }
{
    frames.iter().all(|frame| frame.width <= 20)
}

// None where the text has no tree, and else what reading the tree answers.
fn job_of(alloc: Global, declared: &Declared, text: &str) -> Option<Result<Job, SchemaError>> {
    let names = declared.names.as_slice();
    let frames = declared.frames.as_slice();
    if names.len() > 10 || frames.len() != names.len() || !are_narrow(frames) {
        return None;
    }
    match tree_of(alloc, text) {
        Some(tree) => Some(read_jobs(alloc, names, frames, &declared.parameters, &tree)),
        None => None,
    }
}

#[test]
fn refuses_a_sector_outside(rt: HostRuntime) -> Result<(), Fail> {
    let declared = declare(rt.alloc())?;
    let answer = job_of(rt.alloc(), &declared, OUTSIDE).ok_or("no tree")?;
    assert!(rt; is_fault(fault_in(answer), File::Jobs, 7, InputKind::SectorOutside));
    Ok(())
}

fn words_of(alloc: Global, words: &[&str]) -> Option<Vec<Override>> {
    let mut made = Vec::new(alloc);
    let mut place = 2;
    for word in words {
        if word.len() > 1000 || place > 1000 {
            return None;
        }
        made.push(read_override(alloc, place, word).ok()?).ok()?;
        place += 1;
    }
    Some(made)
}

fn written_point(alloc: Global, declared: &Declared) -> Option<PointInput> {
    match job_of(alloc, declared, POINT) {
        Some(Ok(job)) => Some(job.point),
        _ => None,
    }
}

// None where a word or the file can't be read, and else what the words make of the point of the file.
fn point_of(
    alloc: Global,
    declared: &Declared,
    words: &[&str],
) -> Option<Result<NumericPoint, SchemaError>> {
    let words = words_of(alloc, words)?;
    let point = written_point(alloc, declared)?;
    if point.settings.len() != declared.parameters.len() {
        return None;
    }
    Some(override_point(alloc, &declared.parameters, point, &words))
}

fn fault_of_words(alloc: Global, declared: &Declared, words: &[&str]) -> Option<InputFault> {
    fault_in(point_of(alloc, declared, words)?)
}

// A word without a value is at fault where it stands; without one for m2, the numeric point of the file lacks it.
#[test]
fn refuses_words(rt: HostRuntime) -> Result<(), Fail> {
    let declared = declare(rt.alloc())?;
    let fault = fault_of_words(rt.alloc(), &declared, &["m2"]);
    assert!(rt; is_fault(fault, File::Words, 2, InputKind::BadOverride));
    let fault = fault_of_words(rt.alloc(), &declared, &[]);
    assert!(rt; is_fault(fault, File::Jobs, 6, InputKind::NoValue));
    Ok(())
}

// The words m2=007 and prime=7 over the file, where -7/2 has its slash at 2.
const SETTINGS: &[Setting] = &[
    Setting {
        file: File::Jobs,
        line: 6,
        ratio: Ratio {
            is_negative: true,
            numerator: 7,
            divisor: Some(Divisor { at: 2, number: 2 }),
        },
    },
    Setting {
        file: File::Words,
        line: 2,
        ratio: Ratio {
            is_negative: false,
            numerator: 7,
            divisor: None,
        },
    },
];

fn has_point(
    alloc: Global,
    declared: &Declared,
    words: &[&str],
    prime: u64,
    settings: &[Setting],
) -> bool {
    match point_of(alloc, declared, words) {
        Some(Ok(point)) => point.prime.value() == prime && point.settings.as_slice() == settings,
        _ => false,
    }
}

// A word's value is taken in place of the file's.
#[test]
fn words_go_before_the_file(rt: HostRuntime) -> Result<(), Fail> {
    let declared = declare(rt.alloc())?;
    assert!(rt; has_point(rt.alloc(), &declared, &["m2=007", "prime=7"], 7, SETTINGS));
    Ok(())
}

const TWO_FAMILIES: &'static str =
    "jobs:\n  - reduce_sectors:\n      run_triangular: true\n      select_integrals:\n        select_mandatory_list:\n          - [bub, \"some file\"]\n      reduce:\n        - {topologies: [tad, vac], sectors: [1], r: 2, s: 0}\n        - {topologies: [bub], sectors: [1, 3], r: 4, s: 1, d: 2}\n      numeric_point: {prime: 101}\n";

// Pairs of a family and a sector, families outer.
const SPECS: &[Spec] = &[
    Spec {
        family: 0,
        sector: 1,
        r: 2,
        s: 0,
        d: None,
    },
    Spec {
        family: 2,
        sector: 1,
        r: 2,
        s: 0,
        d: None,
    },
    Spec {
        family: 1,
        sector: 1,
        r: 4,
        s: 1,
        d: Some(2),
    },
    Spec {
        family: 1,
        sector: 3,
        r: 4,
        s: 1,
        d: Some(2),
    },
];

fn written_job(alloc: Global, declared: &Declared, text: &str) -> Option<Job> {
    match job_of(alloc, declared, text) {
        Some(Ok(job)) => Some(job),
        _ => None,
    }
}

fn has_one_file(job: &Job, family: u32, name: &str) -> bool {
    let files = job.select.files.as_slice();
    files.len() == 1 && files[0].family == family && files[0].name.as_str() == name
}

#[test]
fn reads_specs_and_list_files(rt: HostRuntime) -> Result<(), Fail> {
    let declared = declare(rt.alloc())?;
    let job = written_job(rt.alloc(), &declared, TWO_FAMILIES).ok_or("no job")?;
    assert!(rt; job.reduce.as_slice() == SPECS);
    assert!(rt; has_one_file(&job, 1, "some file") && job.select.specs.len() == 0);
    assert!(rt; job.point.line == 10);
    Ok(())
}

// 256 pairs of a family and a sector are not too many.
#[test]
fn takes_256_specs(rt: HostRuntime) -> Result<(), Fail> {
    let declared = declare(rt.alloc())?;
    let job = written_job(rt.alloc(), &declared, MANY).ok_or("no job")?;
    assert!(rt; job.reduce.len() == 256);
    Ok(())
}

const MANY: &'static str =
    "jobs:\n  - reduce_sectors:\n      reduce:\n        - {topologies: [tad, tad, tad, tad, tad, tad, tad, tad, tad, tad, tad, tad, tad, tad, tad, tad, tad, tad, tad, tad, tad, tad, tad, tad, tad, tad, tad, tad, tad, tad, tad, tad, tad, tad, tad, tad, tad, tad, tad, tad, tad, tad, tad, tad, tad, tad, tad, tad, tad, tad, tad, tad, tad, tad, tad, tad, tad, tad, tad, tad, tad, tad, tad, tad, tad, tad, tad, tad, tad, tad, tad, tad, tad, tad, tad, tad, tad, tad, tad, tad, tad, tad, tad, tad, tad, tad, tad, tad, tad, tad, tad, tad, tad, tad, tad, tad, tad, tad, tad, tad, tad, tad, tad, tad, tad, tad, tad, tad, tad, tad, tad, tad, tad, tad, tad, tad, tad, tad, tad, tad, tad, tad, tad, tad, tad, tad, tad, tad], sectors: [1, 1], r: 1, s: 0}\n      select_integrals: {}\n      numeric_point: {}\n";
