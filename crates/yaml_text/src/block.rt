//! Blocks of lines: lists by dashes, maps by keys, and single values.

ghost use Rattle.std.specs.Prelude.{◌≡◌, ◌+◌, ◌<◌, ◌≤◌, ◌^◌, [], ◌∷◌, length, take, drop, true};
ghost use Rattle.yaml_text.specs.Blocks as spec;
ghost use Rattle.std.specs.Str.{IsAscii};
ghost use Rattle.yaml_text.specs.NestsBlock.{NestsBlock};
ghost use Rattle.yaml_text.specs.Outcomes.{Gives};
ghost use Rattle.yaml_text.specs.declared.fault.YamlError.TheVariants.{Fault};

use crate::fault::{YamlError, YamlFault, YamlKind};
use crate::flow::{flow, key, pair};
use crate::keys::Keys;
use crate::line::{Line, byte_at};
use crate::token::{Pieces, Token};
use crate::tree::{Pair, Tree, Value};
use sqlite_items::Items;
use std::alloc::Global;

fn is_deeper(indent: u32, line: &Line<'_>) -> bool
    ensures { result ≡ spec.is_deeper indent line.now }
{
    indent < line.indent()
}

fn is_item(indent: u32, line: &Line<'_>) -> bool
    ensures { result ≡ spec.is_item indent line.now }
{
    line.indent() == indent && line.is_dash()
}

/// How many lines in front are deeper.
fn deep(indent: u32, lines: &[Line<'_>]) -> usize
    ensures value { result ≡ spec.deep indent lines.now }
    ensures within { result ≤ length lines.now }
{
    let mut at = 0;
    while at < lines.len() && is_deeper(indent, &lines[at]) {
        at += 1;
    }
    at
}

fn goes_on(indent: u32, line: &Line<'_>) -> bool
    ensures { result ≡ spec.goes_on indent line.now }
{
    is_deeper(indent, line) || is_item(indent, line)
}

/// How many lines in front are deeper or begin items.
fn listed(indent: u32, lines: &[Line<'_>]) -> usize
    ensures value { result ≡ spec.listed indent lines.now }
    ensures within { result ≤ length lines.now }
{
    let mut at = 0;
    while at < lines.len() && goes_on(indent, &lines[at]) {
        at += 1;
    }
    at
}

/// How many lines the value of a key takes behind which nothing stands.
fn below(indent: u32, lines: &[Line<'_>]) -> usize
    ensures value { result ≡ spec.below indent lines.now }
    ensures within { result ≤ length lines.now }
{
    let deeper = deep(indent, lines);
    if deeper == 0 {
        listed(indent, lines)
    } else {
        deeper
    }
}

/// How many lines the value of a key takes, behind which this stands.
#[tactic(auto, unfolding(crate::specs::Blocks::value_lines))]
fn value_lines(indent: u32, rest: &[u8], lines: &[Line<'_>]) -> usize
    ensures value { result ≡ spec.value_lines indent rest.now lines.now }
    ensures within { result ≤ length lines.now }
{
    if rest.is_empty() {
        below(indent, lines)
    } else {
        0
    }
}

fn refuse(line: u32, kind: YamlKind) -> YamlError
    ensures { result ≡ Fault (record { line = line; kind = kind }) }
{
    YamlError::Fault(YamlFault { line, kind })
}

/// A block of one value on one line.
#[tactic(auto, unfolding(crate::specs::Blocks::single))]
fn single(
    alloc: Global,
    depth: usize,
    first: &Line<'_>,
    rest: &[Line<'_>],
) -> Result<Tree, YamlError>
    ensures { Gives (spec.single depth first.now rest.now) result }
{
    let value = flow(alloc, depth, first.number(), first.text())?;
    if !rest.is_empty() {
        return Err(refuse(rest[0].number(), YamlKind::Indent));
    }
    Ok(value)
}

/// Reads the blocks inside lists and maps by a function that it is given, so that each rule is proved
/// by itself.
#[derive(Clone, Copy)]
struct Blocks<F> {
    alloc: Global,
    /// How many lists and maps may still be opened inside.
    depth: usize,
    block: F,
}

impl<F: for<'t> Fn(Global, usize, Line<'t>, &[Line<'t>]) -> Result<Tree, YamlError>> Blocks<F> {
    fn block<'t>(&self, first: Line<'t>, rest: &[Line<'t>]) -> Result<Tree, YamlError>
        requires { NestsBlock self.now.depth (F.pre self.now.block) (F.post self.now.block) }
        ensures { Gives (spec.block_of self.now.depth first.entry rest.now) result }
    {
        (self.block)(self.alloc, self.depth, first, rest)
    }

    /// A block inside, or an empty value on this line.
    fn inside(&self, number: u32, lines: &[Line<'_>]) -> Result<Tree, YamlError>
        requires { NestsBlock self.now.depth (F.pre self.now.block) (F.post self.now.block) }
        ensures { Gives (spec.inside (spec.block self.now.depth) number lines.now) result }
    {
        if lines.is_empty() {
            return Ok(Tree {
                line: number,
                value: Value::Empty,
            });
        }
        self.block(lines[0].again(), &lines[1..])
    }

    /// An item: what stands behind the dash, and the deeper lines.
    #[tactic(auto, unfolding(crate::specs::Blocks::content, crate::specs::Blocks::item_line))]
    fn item<'t>(&self, line: &Line<'t>, deeper: &[Line<'t>]) -> Result<Tree, YamlError>
        requires nests { NestsBlock self.now.depth (F.pre self.now.block) (F.post self.now.block) }
        requires dash { spec.is_dash line.now.text ≡ true }
        ensures { Gives (spec.inside (spec.block self.now.depth) line.now.number (spec.content line.now deeper.now)) result }
    {
        let first = line.item_line();
        if first.text().is_empty() {
            self.inside(line.number(), deeper)
        } else {
            self.block(first, deeper)
        }
    }

    /// The value behind a key, with the lines that it takes.
    #[tactic(auto, unfolding(crate::specs::Blocks::value))]
    fn value(&self, number: u32, rest: &[u8], lines: &[Line<'_>]) -> Result<Tree, YamlError>
        requires nests { NestsBlock self.now.depth (F.pre self.now.block) (F.post self.now.block) }
        requires ascii { IsAscii rest.now }
        requires short { length rest.now < 2 ^ 32 }
        ensures { Gives (spec.value (spec.block self.now.depth) self.now.depth number rest.now lines.now) result }
    {
        if rest.is_empty() {
            self.inside(number, lines)
        } else {
            flow(self.alloc, self.depth, number, rest)
        }
    }

    /// The items of a list of this indentation.
    fn items<'s, 't>(
        &self,
        indent: u32,
        first: &'s Line<'t>,
        rest: &'s [Line<'t>],
    ) -> Result<Items<Tree>, YamlError>
        requires { NestsBlock self.now.depth (F.pre self.now.block) (F.post self.now.block) }
        ensures { Gives (spec.items (spec.block self.now.depth) indent 0 [] (first.now ∷ rest.now)) result }
    {
        let mut found = Items::new(self.alloc);
        let mut line = first;
        let mut at = 0;
        loop {
            if !is_item(indent, line) {
                return Err(refuse(line.number(), YamlKind::Indent));
            }
            let end = at + deep(indent, &rest[at..]);
            let item = self.item(line, &rest[at..end])?;
            found.push(item)?;
            if end == rest.len() {
                return Ok(found);
            }
            line = &rest[end];
            at = end + 1;
        }
    }

    /// The pairs of a map of this indentation.
    fn pairs<'s, 't>(
        &self,
        indent: u32,
        first: &'s Line<'t>,
        rest: &'s [Line<'t>],
    ) -> Result<Items<Pair>, YamlError>
        requires { NestsBlock self.now.depth (F.pre self.now.block) (F.post self.now.block) }
        ensures { Gives (spec.pairs (spec.block self.now.depth) self.now.depth indent 0 [] [] (first.now ∷ rest.now)) result }
    {
        let mut keys = Keys::new(self.alloc);
        let mut found = Items::new(self.alloc);
        let mut line = first;
        let mut at = 0;
        loop {
            let number = line.number();
            if line.indent() != indent {
                return Err(refuse(number, YamlKind::Indent));
            }
            let mut pieces = Pieces::new(line.text());
            let words = key(&mut keys, number, YamlKind::NoColon, pieces.take())?;
            let text = pieces.rest();
            let end = at + value_lines(indent, text, &rest[at..]);
            let value = self.value(number, text, &rest[at..end])?;
            let pair = pair(self.alloc, number, &words, value)?;
            found.push(pair)?;
            if end == rest.len() {
                return Ok(found);
            }
            line = &rest[end];
            at = end + 1;
        }
    }

    /// A block with one more list or map around what is inside.
    fn nested<'t>(&self, first: Line<'t>, rest: &[Line<'t>]) -> Result<Tree, YamlError>
        requires room { self.now.depth < usize.MAX }
        requires nests { NestsBlock self.now.depth (F.pre self.now.block) (F.post self.now.block) }
        ensures { Gives (spec.block_of (self.now.depth + 1) first.entry rest.now) result }
    {
        let (line, indent) = (first.number(), first.indent());
        if first.is_dash() {
            let items = self.items(indent, &first, rest)?;
            return Ok(Tree {
                line,
                value: Value::List(items),
            });
        }
        if first.has_key() {
            let pairs = self.pairs(indent, &first, rest)?;
            return Ok(Tree {
                line,
                value: Value::Map(pairs),
            });
        }
        single(self.alloc, self.depth + 1, &first, rest)
    }
}

/// Whether a list or a map begins with this line.
fn begins_block(first: &Line<'_>) -> bool
    ensures { result ≡ spec.begins_block first.now }
{
    first.is_dash() || first.has_key()
}

/// A block where no list and no map may be opened.
#[tactic(auto, unfolding(crate::specs::Blocks::block))]
fn shallow(alloc: Global, first: &Line<'_>, rest: &[Line<'_>]) -> Result<Tree, YamlError>
    ensures { Gives (spec.block_of 0 first.now rest.now) result }
{
    if begins_block(first) {
        return Err(refuse(first.number(), YamlKind::TooDeep));
    }
    single(alloc, 0, first, rest)
}

/// A block of lines, with lists and maps no deeper than `depth`.
///
/// # Errors
///
/// The first fault of its structure, or that memory was refused.
pub fn block<'t>(
    alloc: Global,
    depth: usize,
    first: Line<'t>,
    rest: &[Line<'t>],
) -> Result<Tree, YamlError>
    ensures { Gives (spec.block_of depth first.entry rest.now) result }
{
    if depth == 0 {
        return shallow(alloc, &first, rest);
    }
    Blocks {
        alloc,
        depth: depth - 1,
        block,
    }
    .nested(first, rest)
}
