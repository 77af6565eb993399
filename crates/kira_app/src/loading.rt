//! What the files of a job hold, loaded in their order.

ghost use Rattle.std.specs.Prelude.{◌≡◌, ◌⊎◌, ◌≤◌, ◌<◌, ◌^◌, Ok, [], ◌∷◌, ◌++◌, All, codes, length, map, IfOk, OnOk, IfErr};
ghost use Rattle.std.specs.Str.{IsAscii};
ghost use Rattle.input_schema.specs.Readings as input;
ghost use Rattle.job_point.specs.Steps.{Is};
ghost use Rattle.kira_app.specs.Steps.{OfReading, plain, plainly, texts_of, bytes_of};
ghost use Rattle.kira_app.specs.Sources.{tree_in, list_of, TreeOf, KinematicsOf, FamiliesOf, TreesOf, ListsOf, OutlineOf, Outlines, SourcesWith, ReadsSources};
ghost use Rattle.kira_app.specs.Loads.{three_files, names_of, Loads, LoadsFor, HasLoaded};
ghost use Rattle.kira_app.specs.Told.{Tells, Answers, IsMissed, IsPresent};

use crate::job_files::{Sources, Trees};
use crate::{Refusal, Status};
use job_plan::{
    File, InputFault, InputKind, Outline, Override, PlanError, jobs_never_say_missing,
    outlines_have_a_modulus,
};
use kira_outside::{Files, LoadFault};
use std::alloc::Global;
use yaml_text::{Text, Tree, YamlError};

/// The most bytes that a file may have.
const MOST_BYTES: usize = 1 << 24;

// The status of a fault of an input.
fn input_fault(file: File, line: u32, kind: InputKind) -> Status
    ensures { result ≡ Status.Input (record { file = file; line = line; kind = kind }) }
{
    Status::Input(InputFault { file, line, kind })
}

// The tree of a file with these bytes.
fn parse(alloc: Global, file: File, bytes: &[u8]) -> Result<Tree, Status>
    ensures tree { Answers (OfReading (input.Is (tree_in file bytes.now))) (plainly result) }
    ensures present { IfErr result IsPresent }
{
    if bytes.len() > MOST_BYTES {
        return Err(input_fault(file, 0, InputKind::TooLong));
    }
    match yaml_text::read(alloc, bytes) {
        Ok(tree) => Ok(tree),
        Err(YamlError::Fault(fault)) => {
            Err(input_fault(file, fault.line, InputKind::Yaml(fault.kind)))
        }
        Err(YamlError::OutOfMemory) => Err(Status::OutOfMemory),
    }
}

// Loads a file of this name, and reads its tree. One byte more than it may have is asked for.
fn load_tree<F: Files>(alloc: Global, files: &mut F, file: File, name: &str) -> Result<Tree, Status>
    ensures tree { Tells (F.held files.old) (F.faults files.old) (F.faults files.new) (TreeOf file name.now) (plainly result) }
    ensures missing { IfErr result (IsMissed (F.held files.old) (F.faults files.old) (F.faults files.new)) }
    ensures loads { Loads (F.loaded files.old) (F.loaded files.new) (name.now ∷ []) }
    ensures same { F.held files.new ≡ F.held files.old }
{
    match files.load(alloc, name, MOST_BYTES + 1) {
        Ok(bytes) => parse(alloc, file, &bytes),
        Err(LoadFault::Missing) => Err(input_fault(file, 0, InputKind::Missing)),
        Err(LoadFault::Failed) => Err(Status::ReadFault),
        Err(LoadFault::OutOfMemory) => Err(Status::OutOfMemory),
    }
}

// Loads the last of the three files.
fn load_kinematics<F: Files>(
    alloc: Global,
    files: &mut F,
    jobs: Tree,
    families: Tree,
) -> Result<Trees, Status>
    ensures trees { Tells (F.held files.old) (F.faults files.old) (F.faults files.new) (KinematicsOf jobs families) (plainly result) }
    ensures missing { IfErr result (IsMissed (F.held files.old) (F.faults files.old) (F.faults files.new)) }
    ensures loads { Loads (F.loaded files.old) (F.loaded files.new) (codes "config/kinematics.yaml" ∷ []) }
    ensures same { F.held files.new ≡ F.held files.old }
{
    let kinematics = load_tree(alloc, files, File::Kinematics, "config/kinematics.yaml")?;
    Ok(Trees {
        jobs,
        families,
        kinematics,
    })
}

// Loads the files behind the job file.
fn load_families<F: Files>(alloc: Global, files: &mut F, jobs: Tree) -> Result<Trees, Status>
    ensures trees { Tells (F.held files.old) (F.faults files.old) (F.faults files.new) (FamiliesOf jobs) (plainly result) }
    ensures missing { IfErr result (IsMissed (F.held files.old) (F.faults files.old) (F.faults files.new)) }
    ensures loads { LoadsFor (F.loaded files.old) (F.loaded files.new) (codes "config/integralfamilies.yaml" ∷ codes "config/kinematics.yaml" ∷ []) result }
    ensures same { F.held files.new ≡ F.held files.old }
{
    let families = load_tree(alloc, files, File::Families, "config/integralfamilies.yaml")?;
    load_kinematics(alloc, files, jobs, families)
}

// Loads the three files in order, each only where the one before it has a tree.
fn load_trees<F: Files>(alloc: Global, files: &mut F, name: &str) -> Result<Trees, Status>
    ensures trees { Tells (F.held files.old) (F.faults files.old) (F.faults files.new) (TreesOf name.now) (plainly result) }
    ensures missing { IfErr result (IsMissed (F.held files.old) (F.faults files.old) (F.faults files.new)) }
    ensures loads { LoadsFor (F.loaded files.old) (F.loaded files.new) (three_files name.now) result }
    ensures same { F.held files.new ≡ F.held files.old }
{
    let jobs = load_tree(alloc, files, File::Jobs, name)?;
    load_families(alloc, files, jobs)
}

/// The outline of the trees and of the words that override their values.
pub(crate) fn outline(
    alloc: Global,
    trees: &Trees,
    overrides: &[Override],
) -> Result<Outline, Status>
    ensures { Answers (OutlineOf overrides.now trees.now) (plainly result) }
{
    match job_plan::outline(
        alloc,
        &trees.families,
        &trees.kinematics,
        &trees.jobs,
        overrides,
    ) {
        Ok(outline) => Ok(outline),
        Err(PlanError::Input(fault)) => Err(Status::Input(fault)),
        Err(PlanError::OutOfMemory) => Err(Status::OutOfMemory),
        Err(_) => unreachable!(),
    }
}

/// A refusal with this name in its message; want of memory, where the name can't be copied.
pub(crate) fn named(alloc: Global, status: Status, name: &str) -> Refusal
    requires ascii { IsAscii name.now }
    requires short { length name.now < 2 ^ 32 }
    ensures { (result ≡ record { status = status; name = name.now }) ⊎ (result.status ≡ Status.OutOfMemory) }
{
    match Text::new(alloc, name) {
        Ok(name) => Refusal { status, name },
        Err(_) => Refusal::plain(alloc, Status::OutOfMemory),
    }
}

// Loads the list file with this number and name.
fn load_list<F: Files>(
    alloc: Global,
    files: &mut F,
    number: u32,
    name: &str,
) -> Result<Vec<u8>, Refusal>
    requires ascii { IsAscii name.now }
    requires short { length name.now < 2 ^ 32 }
    ensures list { Tells (F.held files.old) (F.faults files.old) (F.faults files.new) (λ held. Is (list_of number name.now held)) (bytes_of result) }
    ensures short { IfOk result (λ bytes. length bytes.items ≤ 2 ^ 24) }
    ensures missing { IfErr result (λ refusal. IsMissed (F.held files.old) (F.faults files.old) (F.faults files.new) refusal.status) }
    ensures loads { Loads (F.loaded files.old) (F.loaded files.new) (name.now ∷ []) }
    ensures same { F.held files.new ≡ F.held files.old }
{
    let list = File::List(number);
    match files.load(alloc, name, MOST_BYTES + 1) {
        Ok(bytes) if bytes.len() <= MOST_BYTES => Ok(bytes),
        Ok(_) => Err(named(alloc, input_fault(list, 0, InputKind::TooLong), name)),
        Err(LoadFault::Missing) => {
            Err(named(alloc, input_fault(list, 0, InputKind::Missing), name))
        }
        Err(LoadFault::Failed) => Err(Refusal::plain(alloc, Status::ReadFault)),
        Err(LoadFault::OutOfMemory) => Err(Refusal::plain(alloc, Status::OutOfMemory)),
    }
}

// Puts a text behind the others.
fn push_text(alloc: Global, texts: &mut Vec<Vec<u8>>, text: Vec<u8>) -> Result<(), Refusal>
    ensures ok { OnOk result (texts.new.items ≡ texts.old.items ++ text ∷ []) }
    ensures err { IfErr result (λ refusal. refusal ≡ plain Status.OutOfMemory) }
{
    match texts.push(text) {
        Ok(()) => Ok(()),
        Err(_) => Err(Refusal::plain(alloc, Status::OutOfMemory)),
    }
}

// Loads the list files of an outline in their order.
fn load_lists<F: Files>(
    alloc: Global,
    files: &mut F,
    outline: &Outline,
) -> Result<Vec<Vec<u8>>, Refusal>
    ensures lists { Tells (F.held files.old) (F.faults files.old) (F.faults files.new) (ListsOf outline.now.select.files) (texts_of result) }
    ensures short { IfOk result (λ lists. All (λ text. length text.items ≤ 2 ^ 24) lists.items) }
    ensures count { IfOk result (λ lists. length lists.items ≡ length outline.now.select.files) }
    ensures missing { IfErr result (λ refusal. IsMissed (F.held files.old) (F.faults files.old) (F.faults files.new) refusal.status) }
    ensures loads { LoadsFor (F.loaded files.old) (F.loaded files.new) (names_of outline.now.select.files) result }
    ensures same { F.held files.new ≡ F.held files.old }
{
    let mut lists = Vec::new(alloc);
    for number in 0..outline.list_count() {
        let text = load_list(alloc, files, number, outline.list_name(number))?;
        push_text(alloc, &mut lists, text)?;
    }
    Ok(lists)
}

// The trees of the job with this name, and their outline.
fn outlined<F: Files>(
    alloc: Global,
    files: &mut F,
    jobfile: &str,
    overrides: &[Override],
) -> Result<(Trees, Outline), Status>
    ensures outlines { Tells (F.held files.old) (F.faults files.old) (F.faults files.new) (Outlines overrides.now jobfile.now) (plainly result) }
    ensures outline { IfOk result (λ both. OutlineOf overrides.now both.0 (Ok both.1)) }
    ensures missing { IfErr result (IsMissed (F.held files.old) (F.faults files.old) (F.faults files.new)) }
    ensures loads { LoadsFor (F.loaded files.old) (F.loaded files.new) (three_files jobfile.now) result }
    ensures same { F.held files.new ≡ F.held files.old }
{
    jobs_never_say_missing();
    let trees = load_trees(alloc, files, jobfile)?;
    let outline = outline(alloc, &trees, overrides)?;
    Ok((trees, outline))
}

// The trees with the list files of their outline.
fn with_lists<F: Files>(
    alloc: Global,
    files: &mut F,
    trees: Trees,
    outline: &Outline,
    overrides: &[Override],
) -> Result<Sources, Refusal>
    requires { OutlineOf overrides.now trees (Ok outline.now) }
    ensures sources { Tells (F.held files.old) (F.faults files.old) (F.faults files.new) (SourcesWith trees outline.now) result }
    ensures missing { IfErr result (λ refusal. IsMissed (F.held files.old) (F.faults files.old) (F.faults files.new) refusal.status) }
    ensures loads { LoadsFor (F.loaded files.old) (F.loaded files.new) (names_of outline.now.select.files) result }
    ensures same { F.held files.new ≡ F.held files.old }
{
    outlines_have_a_modulus();
    let lists = load_lists(alloc, files, outline)?;
    Ok(Sources { trees, lists })
}

/// What the files of the job hold: the trees of the job file, of the families and of the kinematics, which
/// have an outline with these words, and then the list files that it names.
///
/// # Errors
///
/// The first file that can't be read, is missing or too long, or the first fault of the trees and the words.
pub fn sources<F: Files>(
    alloc: Global,
    jobfile: &str,
    overrides: &[Override],
    files: &mut F,
) -> Result<Sources, Refusal>
    ensures sources { Tells (F.held files.old) (F.faults files.old) (F.faults files.new) (ReadsSources overrides.now jobfile.now) result }
    ensures missing { IfErr result (λ refusal. IsMissed (F.held files.old) (F.faults files.old) (F.faults files.new) refusal.status) }
    ensures loads { HasLoaded overrides.now jobfile.now (F.held files.old) (F.loaded files.old) (F.loaded files.new) result }
    ensures same { F.held files.new ≡ F.held files.old }
{
    match outlined(alloc, files, jobfile, overrides) {
        Ok((trees, outline)) => with_lists(alloc, files, trees, &outline, overrides),
        Err(status) => Err(Refusal::plain(alloc, status)),
    }
}
