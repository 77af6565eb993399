//! Reads a whole text.

ghost use Rattle.std.specs.Prelude.{◌<◌, ◌+◌, ◌^◌, length};
ghost use Rattle.yaml_text.specs.Blocks.{block, max_depth, reading};
ghost use Rattle.yaml_text.specs.Outcomes.{Gives};

use crate::block::block;
use crate::fault::YamlError;
use crate::line::{Line, lines};
use crate::tree::{Tree, Value};
use std::alloc::Global;

/// How many lists and maps may stand inside one another.
const MAX_DEPTH: usize = 16;

/// A block of all lines.
fn whole(alloc: Global, lines: &[Line<'_>]) -> Result<Tree, YamlError>
    ensures { Gives (block max_depth lines.now) result }
{
    if lines.is_empty() {
        return Ok(Tree {
            line: 1,
            value: Value::Empty,
        });
    }
    block(alloc, MAX_DEPTH, lines[0].again(), &lines[1..])
}

/// Reads a text of fewer than 2^32 - 1 bytes as a tree.
///
/// # Errors
///
/// `Fault` exactly where the text has no tree, with the line and the kind of its first fault;
/// `OutOfMemory` where memory was refused.
#[tactic(auto, unfolding(crate::specs::Blocks::reading))]
pub fn read(alloc: Global, bytes: &[u8]) -> Result<Tree, YamlError>
    requires { length bytes.now + 1 < 2 ^ 32 }
    ensures { Gives (reading bytes.now) result }
{
    let lines = lines(alloc, bytes)?;
    whole(alloc, lines.as_slice())
}
