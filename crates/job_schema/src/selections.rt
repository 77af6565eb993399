//! What a job selects: specs, and list files.

ghost use Rattle.std.specs.Prelude.{◌≡◌, ◌<◌, ◌≤◌, ◌^◌, length, All, IfOk};
ghost use Rattle.std.specs.Option.{option_copied};
ghost use Rattle.input_schema.specs.Readings.{Gives, lent};
ghost use Rattle.job_schema.specs.Jobs as spec;

use crate::frames::Frame;
use crate::groups::specs;
use input_schema::{File, Key, SchemaError, fields, items, optional, pair, reference, scalar};
use seed_sets::Spec;
use sqlite_items::Items;
use std::alloc::Global;
use text_tokens::Name;
use yaml_text::{Pair, Text, Tree};

/// A file with integrals of a family to be selected. The project's own.
#[derive(Debug, Drop)]
pub struct ListFile {
    /// The place of the family in the job, from 0.
    pub family: u32,
    /// The name of the file.
    pub name: Text,
}

/// What a job selects: all integrals of the specs, and those that the list files name.
#[derive(Debug, Drop)]
pub struct Selection {
    /// The specs, in the order in which they are written.
    pub specs: Items<Spec>,
    /// The list files, at most 16.
    pub files: Items<ListFile>,
}

fn list_file(alloc: Global, names: &[Name], node: &Tree) -> Result<ListFile, SchemaError>
    requires { length names.now < 2 ^ 32 }
    ensures { Gives (spec.list_file names.now node.now) result }
{
    let (family, name) = pair(File::Jobs, node)?;
    let family = reference(alloc, File::Jobs, family, names)? as u32;
    let name = Text::new(alloc, scalar(File::Jobs, name)?.as_str())?;
    Ok(ListFile { family, name })
}

fn named_files(alloc: Global, names: &[Name], node: &Tree) -> Result<Items<ListFile>, SchemaError>
    requires { length names.now < 2 ^ 32 }
    ensures { Gives (spec.named_files names.now node.now) result }
{
    let nodes = items(File::Jobs, node, 0, 16)?;
    let mut files = Items::new(alloc);
    for item in nodes {
        files.push(list_file(alloc, names, item)?)?;
    }
    Ok(files)
}

fn list_files(
    alloc: Global,
    names: &[Name],
    node: Option<&Tree>,
) -> Result<Items<ListFile>, SchemaError>
    requires { length names.now < 2 ^ 32 }
    ensures { Gives (spec.list_files names.now (option_copied node.entry)) result }
{
    match node {
        None => Ok(Items::new(alloc)),
        Some(node) => named_files(alloc, names, node),
    }
}

fn selected_specs(
    alloc: Global,
    names: &[Name],
    frames: &[Frame],
    node: Option<&Tree>,
) -> Result<Items<Spec>, SchemaError>
    requires few { length names.now < 2 ^ 32 }
    requires same { length frames.now ≡ length names.now }
    requires widths { All (λ frame. frame.width ≤ 20) frames.now }
    ensures { Gives (spec.selected_specs names.now frames.now (option_copied node.entry)) result }
{
    match node {
        None => Ok(Items::new(alloc)),
        Some(node) => specs(alloc, names, frames, 0, node),
    }
}

fn selection_pairs(node: &Tree) -> Result<&[Pair], SchemaError>
    ensures { Gives (spec.selection_pairs node.now) (lent result) }
{
    let table = [
        Key::optional("select_mandatory_recursively"),
        Key::optional("select_mandatory_list"),
    ];
    fields(File::Jobs, &table, node)
}

fn specs_in(
    alloc: Global,
    names: &[Name],
    frames: &[Frame],
    pairs: &[Pair],
) -> Result<Items<Spec>, SchemaError>
    requires few { length names.now < 2 ^ 32 }
    requires same { length frames.now ≡ length names.now }
    requires widths { All (λ frame. frame.width ≤ 20) frames.now }
    ensures { Gives (spec.specs_in names.now frames.now pairs.now) result }
{
    let node = optional(pairs, "select_mandatory_recursively");
    selected_specs(alloc, names, frames, node)
}

fn files_in(alloc: Global, names: &[Name], pairs: &[Pair]) -> Result<Items<ListFile>, SchemaError>
    requires { length names.now < 2 ^ 32 }
    ensures { Gives (spec.files_in names.now pairs.now) result }
{
    list_files(alloc, names, optional(pairs, "select_mandatory_list"))
}

/// What a map under `select_integrals` selects.
pub(crate) fn read_selection(
    alloc: Global,
    names: &[Name],
    frames: &[Frame],
    node: &Tree,
) -> Result<Selection, SchemaError>
    requires few { length names.now < 2 ^ 32 }
    requires same { length frames.now ≡ length names.now }
    requires widths { All (λ frame. frame.width ≤ 20) frames.now }
    ensures { Gives (spec.selection names.now frames.now node.now) result }
{
    let pairs = selection_pairs(node)?;
    let specs = specs_in(alloc, names, frames, pairs)?;
    let files = files_in(alloc, names, pairs)?;
    Ok(Selection { specs, files })
}
