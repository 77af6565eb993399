//! The file of jobs.

ghost use Rattle.std.specs.Prelude.{◌≡◌, ◌<◌, ◌≤◌, ◌^◌, length, All};
ghost use Rattle.std.specs.Option.{option_copied};
ghost use Rattle.input_schema.specs.Readings.{Gives, lent};
ghost use Rattle.job_schema.specs.Jobs as spec;

use crate::frames::Frame;
use crate::groups::specs;
use crate::points::{PointInput, read_point};
use crate::selections::{Selection, read_selection};
use input_schema::{
    File, InputKind, Key, SchemaError, fault, fields, flag, items, needed, optional,
};
use seed_sets::Spec;
use sqlite_items::Items;
use std::alloc::Global;
use text_tokens::Name;
use yaml_text::{Pair, Tree};

/// A job: what is reduced, what is selected, and at which point. The keys follow Kira, arXiv:1705.05610.
#[derive(Debug, Drop)]
pub struct Job {
    /// The specs whose seeds give the equations.
    pub reduce: Items<Spec>,
    /// What is selected.
    pub select: Selection,
    /// The numeric point, as far as the file gives it.
    pub point: PointInput,
}

fn run_flag(node: Option<&Tree>) -> Result<(), SchemaError>
    ensures { Gives (spec.run_flag (option_copied node.entry)) result }
{
    match node {
        None => Ok(()),
        Some(node) => flag(File::Jobs, node),
    }
}

fn run_flags(pairs: &[Pair]) -> Result<(), SchemaError>
    ensures { Gives (spec.run_flags pairs.now) result }
{
    run_flag(optional(pairs, "run_symmetries"))?;
    run_flag(optional(pairs, "run_initiate"))?;
    run_flag(optional(pairs, "run_triangular"))?;
    run_flag(optional(pairs, "run_back_substitution"))
}

fn reduced_in(
    alloc: Global,
    names: &[Name],
    frames: &[Frame],
    line: u32,
    pairs: &[Pair],
) -> Result<Items<Spec>, SchemaError>
    requires few { length names.now < 2 ^ 32 }
    requires same { length frames.now ≡ length names.now }
    requires widths { All (λ frame. frame.width ≤ 20) frames.now }
    ensures { Gives (spec.reduced_in names.now frames.now line pairs.now) result }
{
    let node = needed(File::Jobs, line, pairs, "reduce")?;
    specs(alloc, names, frames, 1, node)
}

fn selected_in(
    alloc: Global,
    names: &[Name],
    frames: &[Frame],
    line: u32,
    pairs: &[Pair],
) -> Result<Selection, SchemaError>
    requires few { length names.now < 2 ^ 32 }
    requires same { length frames.now ≡ length names.now }
    requires widths { All (λ frame. frame.width ≤ 20) frames.now }
    ensures { Gives (spec.selected_in names.now frames.now line pairs.now) result }
{
    let node = needed(File::Jobs, line, pairs, "select_integrals")?;
    read_selection(alloc, names, frames, node)
}

fn point_in(
    alloc: Global,
    parameters: &[Name],
    line: u32,
    pairs: &[Pair],
) -> Result<PointInput, SchemaError>
    ensures { Gives (spec.point_in parameters.now line pairs.now) result }
{
    let node = needed(File::Jobs, line, pairs, "numeric_point")?;
    read_point(alloc, parameters, node)
}

fn job_of(
    alloc: Global,
    names: &[Name],
    frames: &[Frame],
    parameters: &[Name],
    line: u32,
    pairs: &[Pair],
) -> Result<Job, SchemaError>
    requires few { length names.now < 2 ^ 32 }
    requires same { length frames.now ≡ length names.now }
    requires widths { All (λ frame. frame.width ≤ 20) frames.now }
    ensures { Gives (spec.job_of names.now frames.now parameters.now line pairs.now) result }
{
    let reduce = reduced_in(alloc, names, frames, line, pairs)?;
    let select = selected_in(alloc, names, frames, line, pairs)?;
    run_flags(pairs)?;
    let point = point_in(alloc, parameters, line, pairs)?;
    Ok(Job {
        reduce,
        select,
        point,
    })
}

fn job_pairs(node: &Tree) -> Result<&[Pair], SchemaError>
    ensures { Gives (spec.job_pairs node.now) (lent result) }
{
    let table = [
        Key::needed("reduce"),
        Key::needed("select_integrals"),
        Key::optional("run_symmetries"),
        Key::optional("run_initiate"),
        Key::optional("run_triangular"),
        Key::optional("run_back_substitution"),
        Key::needed("numeric_point"),
    ];
    fields(File::Jobs, &table, node)
}

/// The value of the one key that a map has.
fn under<'a>(name: &str, node: &'a Tree) -> Result<&'a Tree, SchemaError>
    ensures { Gives (spec.under name.now node.now) (lent result) }
{
    let table = [Key::needed(name)];
    let pairs = fields(File::Jobs, &table, node)?;
    needed(File::Jobs, node.line, pairs, name)
}

/// The one job of the file.
fn job_node(tree: &Tree) -> Result<&Tree, SchemaError>
    ensures { Gives (spec.job_node tree.now) (lent result) }
{
    let nodes = items(File::Jobs, under("jobs", tree)?, 1, usize::MAX)?;
    if nodes.len() == 1 {
        Ok(&nodes[0])
    } else {
        Err(fault(File::Jobs, nodes[1].line, InputKind::ManyJobs))
    }
}

fn read_job(
    alloc: Global,
    names: &[Name],
    frames: &[Frame],
    parameters: &[Name],
    node: &Tree,
) -> Result<Job, SchemaError>
    requires few { length names.now < 2 ^ 32 }
    requires same { length frames.now ≡ length names.now }
    requires widths { All (λ frame. frame.width ≤ 20) frames.now }
    ensures { Gives (spec.job names.now frames.now parameters.now node.now) result }
{
    let pairs = job_pairs(node)?;
    job_of(alloc, names, frames, parameters, node.line, pairs)
}

/// The job of a file of jobs. `names` are the families' names, `frames` what is known of each, and
/// `parameters` the names of the dimension and of the invariants that may have a value.
///
/// # Errors
///
/// The first fault of the file: its keys, list lengths, names, numbers and sectors are tested in the
/// order that docs/FORMATS.md tells.
pub fn read_jobs(
    alloc: Global,
    names: &[Name],
    frames: &[Frame],
    parameters: &[Name],
    tree: &Tree,
) -> Result<Job, SchemaError>
    requires few { length names.now < 2 ^ 32 }
    requires same { length frames.now ≡ length names.now }
    requires widths { All (λ frame. frame.width ≤ 20) frames.now }
    ensures { Gives (spec.jobs names.now frames.now parameters.now tree.now) result }
{
    let item = job_node(tree)?;
    let node = under("reduce_sectors", item)?;
    read_job(alloc, names, frames, parameters, node)
}
