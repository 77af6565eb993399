//! The items of families and sectors that a job names, and the specs that they stand for.

ghost use Rattle.std.specs.Prelude.{◌≡◌, ◌<◌, ◌≤◌, ◌^◌, ℕ, ◌↔◌, ◌++◌, map, nat_lt, length, All, Contains, IfOk, OnOk};
ghost use Rattle.std.specs.List.{list_any};
ghost use Rattle.std.specs.Option.{option_copied};
ghost use Rattle.integral_index.specs.ZeroSectors.{is_subsector};
ghost use Rattle.input_schema.specs.Names.{reference};
ghost use Rattle.input_schema.specs.Readings.{Gives, lent, each};
ghost use Rattle.input_schema.specs.declared.faults.File.TheVariants.{Jobs};
ghost use Rattle.job_schema.specs.Specs as spec;

use crate::frames::Frame;
use input_schema::{
    File, InputKind, Key, SchemaError, fault, fields, items, needed, number, optional, reference,
    wide_number,
};
use out_of_memory::OutOfMemory;
use seed_sets::Spec;
use sqlite_items::Items;
use std::alloc::Global;
use text_tokens::Name;
use yaml_text::{Pair, Tree};

/// An item of what a job seeds or selects: all pairs of its families and its sectors, within its bounds.
/// Source of the bounds: arXiv:1705.05610.
#[derive(Debug, Drop)]
pub struct Group {
    /// The places of the families in the job, from 0.
    pub families: Items<u32>,
    /// The sector numbers, each below 2 to the power of each family's width.
    pub sectors: Items<u32>,
    /// The most that the positive indices may add up to; at most 100.
    pub r: u32,
    /// The most that the negative indices may add up to, without the sign; at most 100.
    pub s: u32,
    /// The most dots, where there is such a bound; at most 100.
    pub d: Option<u32>,
}

fn topology(alloc: Global, node: &Tree, names: &[Name]) -> Result<u32, SchemaError>
    requires { length names.now < 2 ^ 32 }
    ensures place { Gives (reference Jobs node.now names.now) result }
    ensures within { IfOk result (λ place. place < length names.now) }
{
    let place = reference(alloc, File::Jobs, node, names)?;
    Ok(place as u32)
}

/// The places of one family or more, by their names.
fn topologies(alloc: Global, node: &Tree, names: &[Name]) -> Result<Items<u32>, SchemaError>
    requires { length names.now < 2 ^ 32 }
    ensures places { Gives (spec.topologies names.now node.now) result }
    ensures some { IfOk result (λ places. 1 ≤ length places) }
    ensures within { IfOk result (λ places. All (λ place. place < length names.now) places) }
{
    let nodes = items(File::Jobs, node, 1, usize::MAX)?;
    let mut places = Items::new(alloc);
    for item in nodes {
        places.push(topology(alloc, item, names)?)?;
    }
    Ok(places)
}

/// These families, each once, so that a sector is tested once for each.
fn distinct(alloc: Global, families: &[u32]) -> Result<Vec<u32>, OutOfMemory>
    ensures { IfOk result (λ found. (place : ℕ) → Contains found.items place ↔ Contains families.now place) }
{
    let mut found = Vec::from_slice(alloc, families)?;
    found.sort_unstable();
    found.dedup();
    Ok(found)
}

/// Whether the sector has no bit behind the last denominator of each of these families.
fn fits(frames: &[Frame], families: &[u32], sector: u128) -> bool
    requires within { All (λ place. place < length frames.now) families.now }
    requires widths { All (λ frame. frame.width ≤ 20) frames.now }
    ensures { result ≡ spec.fits frames.now families.now sector }
{
    for place in families {
        if sector >= 1 << frames[*place as usize].width {
            return false;
        }
    }
    true
}

/// Whether the sector is a subset of one of these.
fn is_within(sector: u32, top_level: &[u32]) -> bool
    ensures { result ≡ list_any (λ top. is_subsector sector top) top_level.now }
{
    top_level.iter().any(|top| sector & *top == sector)
}

/// Whether the sector is a subset of a top level sector of each of these families.
fn is_covered(frames: &[Frame], families: &[u32], sector: u32) -> bool
    requires { All (λ place. place < length frames.now) families.now }
    ensures { result ≡ spec.is_covered frames.now families.now sector }
{
    for place in families {
        if !is_within(sector, frames[*place as usize].top_level.as_slice()) {
            return false;
        }
    }
    true
}

/// A sector of each of these families, within a top level sector of each.
fn sector(frames: &[Frame], families: &[u32], node: &Tree) -> Result<u32, SchemaError>
    requires some { 1 ≤ length families.now }
    requires within { All (λ place. place < length frames.now) families.now }
    requires widths { All (λ frame. frame.width ≤ 20) frames.now }
    ensures { Gives (spec.sector frames.now families.now node.now) result }
{
    let written = wide_number(File::Jobs, node)?;
    if !fits(frames, families, written) {
        return Err(fault(File::Jobs, node.line, InputKind::OutOfRange));
    }
    let sector = written as u32;
    if !is_covered(frames, families, sector) {
        return Err(fault(File::Jobs, node.line, InputKind::SectorOutside));
    }
    Ok(sector)
}

/// One sector or more of each of these families, which are told once each.
fn tested_sectors(
    alloc: Global,
    frames: &[Frame],
    families: &[u32],
    node: &Tree,
) -> Result<Items<u32>, SchemaError>
    requires some { 1 ≤ length families.now }
    requires within { All (λ place. place < length frames.now) families.now }
    requires widths { All (λ frame. frame.width ≤ 20) frames.now }
    ensures { Gives (spec.sectors frames.now families.now node.now) result }
{
    let nodes = items(File::Jobs, node, 1, usize::MAX)?;
    let mut found = Items::new(alloc);
    for item in nodes {
        found.push(sector(frames, families, item)?)?;
    }
    Ok(found)
}

/// One sector or more of each of these families.
fn sectors(
    alloc: Global,
    frames: &[Frame],
    families: &[u32],
    node: &Tree,
) -> Result<Items<u32>, SchemaError>
    requires some { 1 ≤ length families.now }
    requires within { All (λ place. place < length frames.now) families.now }
    requires widths { All (λ frame. frame.width ≤ 20) frames.now }
    ensures { Gives (spec.sectors frames.now families.now node.now) result }
{
    let tested = distinct(alloc, families)?;
    tested_sectors(alloc, frames, &tested, node)
}

fn bound(node: &Tree) -> Result<u32, SchemaError>
    ensures { Gives (spec.bound node.now) result }
{
    number(File::Jobs, node, 0, 100)
}

fn optional_bound(node: Option<&Tree>) -> Result<Option<u32>, SchemaError>
    ensures { Gives (spec.optional_bound (option_copied node.entry)) result }
{
    match node {
        None => Ok(None),
        Some(node) => Ok(Some(bound(node)?)),
    }
}

/// The bounds of an item.
#[derive(Drop)]
struct Bounds {
    r: u32,
    s: u32,
    d: Option<u32>,
}

/// A bound that must be there.
fn needed_bound(line: u32, pairs: &[Pair], key: &str) -> Result<u32, SchemaError>
    ensures { Gives (spec.needed_bound line pairs.now key.now) result }
{
    bound(needed(File::Jobs, line, pairs, key)?)
}

fn read_bounds(line: u32, pairs: &[Pair]) -> Result<Bounds, SchemaError>
    ensures { Gives (spec.bounds line pairs.now) result }
{
    let r = needed_bound(line, pairs, "r")?;
    let s = needed_bound(line, pairs, "s")?;
    let d = optional_bound(optional(pairs, "d"))?;
    Ok(Bounds { r, s, d })
}

fn group_families(
    alloc: Global,
    line: u32,
    pairs: &[Pair],
    names: &[Name],
) -> Result<Items<u32>, SchemaError>
    requires { length names.now < 2 ^ 32 }
    ensures families { Gives (spec.group_families names.now line pairs.now) result }
    ensures some { IfOk result (λ families. 1 ≤ length families) }
    ensures within { IfOk result (λ families. All (λ place. place < length names.now) families) }
{
    topologies(alloc, needed(File::Jobs, line, pairs, "topologies")?, names)
}

fn group_sectors(
    alloc: Global,
    line: u32,
    pairs: &[Pair],
    frames: &[Frame],
    families: &[u32],
) -> Result<Items<u32>, SchemaError>
    requires some { 1 ≤ length families.now }
    requires within { All (λ place. place < length frames.now) families.now }
    requires widths { All (λ frame. frame.width ≤ 20) frames.now }
    ensures { Gives (spec.group_sectors frames.now line pairs.now families.now) result }
{
    sectors(
        alloc,
        frames,
        families,
        needed(File::Jobs, line, pairs, "sectors")?,
    )
}

/// The item that a map with these pairs tells.
fn group_of(
    alloc: Global,
    names: &[Name],
    frames: &[Frame],
    line: u32,
    pairs: &[Pair],
) -> Result<Group, SchemaError>
    requires few { length names.now < 2 ^ 32 }
    requires same { length frames.now ≡ length names.now }
    requires widths { All (λ frame. frame.width ≤ 20) frames.now }
    ensures { Gives (spec.group_of names.now frames.now line pairs.now) result }
{
    let families = group_families(alloc, line, pairs, names)?;
    let sectors = group_sectors(alloc, line, pairs, frames, families.as_slice())?;
    let Bounds { r, s, d } = read_bounds(line, pairs)?;
    Ok(Group {
        families,
        sectors,
        r,
        s,
        d,
    })
}

/// The pairs of an item.
fn group_pairs(node: &Tree) -> Result<&[Pair], SchemaError>
    ensures { Gives (spec.group_pairs node.now) (lent result) }
{
    let table = [
        Key::needed("topologies"),
        Key::needed("sectors"),
        Key::needed("r"),
        Key::needed("s"),
        Key::optional("d"),
    ];
    fields(File::Jobs, &table, node)
}

/// An item: families, sectors and bounds.
fn read_group(
    alloc: Global,
    names: &[Name],
    frames: &[Frame],
    node: &Tree,
) -> Result<Group, SchemaError>
    requires few { length names.now < 2 ^ 32 }
    requires same { length frames.now ≡ length names.now }
    requires widths { All (λ frame. frame.width ≤ 20) frames.now }
    ensures { Gives (spec.group names.now frames.now node.now) result }
{
    let pairs = group_pairs(node)?;
    group_of(alloc, names, frames, node.line, pairs)
}

/// Whether the items have more than 256 pairs of a family and a sector. The pairs aren't built for it.
fn are_many(groups: &[Group]) -> bool
    ensures { result ≡ nat_lt 256 (spec.pair_count groups.now) }
{
    let mut room = 256;
    for group in groups {
        let pairs = group.families.len().saturating_mul(group.sectors.len());
        if pairs > room {
            return true;
        }
        room -= pairs;
    }
    false
}

/// Adds the specs of a family and all sectors of an item.
fn push_specs_of_family(
    specs: &mut Items<Spec>,
    group: &Group,
    family: u32,
) -> Result<(), OutOfMemory>
    ensures { OnOk result (specs.new ≡ specs.old ++ map (spec.spec_of group.now family) group.now.sectors) }
{
    for sector in group.sectors.as_slice() {
        specs.push(Spec {
            family,
            sector: *sector,
            r: group.r,
            s: group.s,
            d: group.d,
        })?;
    }
    Ok(())
}

/// Adds the specs of an item, families outer.
fn push_specs_of_group(specs: &mut Items<Spec>, group: &Group) -> Result<(), OutOfMemory>
    ensures { OnOk result (specs.new ≡ specs.old ++ spec.specs_of_group group.now) }
{
    for family in group.families.as_slice() {
        push_specs_of_family(specs, group, *family)?;
    }
    Ok(())
}

/// The specs of all items.
fn specs_of_groups(alloc: Global, groups: &[Group]) -> Result<Items<Spec>, OutOfMemory>
    ensures { IfOk result (λ specs. specs ≡ spec.specs_of_groups groups.now) }
{
    let mut specs = Items::new(alloc);
    for group in groups {
        push_specs_of_group(&mut specs, group)?;
    }
    Ok(specs)
}

/// The specs of a list of at least so many items.
///
/// # Errors
///
/// The first fault of the list, in the order of its items and of each item's keys; then OutOfRange at
/// the list, where there are more than 256 pairs of a family and a sector.
pub(crate) fn specs(
    alloc: Global,
    names: &[Name],
    frames: &[Frame],
    least: usize,
    node: &Tree,
) -> Result<Items<Spec>, SchemaError>
    requires few { length names.now < 2 ^ 32 }
    requires same { length frames.now ≡ length names.now }
    requires widths { All (λ frame. frame.width ≤ 20) frames.now }
    ensures { Gives (spec.specs names.now frames.now least node.now) result }
{
    let nodes = items(File::Jobs, node, least, usize::MAX)?;
    let mut groups = Vec::new(alloc);
    for item in nodes {
        groups.push(read_group(alloc, names, frames, item)?)?;
    }
    if are_many(&groups) {
        return Err(fault(File::Jobs, node.line, InputKind::OutOfRange));
    }
    Ok(specs_of_groups(alloc, &groups)?)
}
