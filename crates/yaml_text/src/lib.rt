//! Reads the part of YAML in which the input files are written, as a tree, or names its first fault.
#![tactic(auto)]

mod block;
mod fault;
mod flow;
mod keys;
mod laws;
mod line;
mod reader;
mod text;
mod token;
mod tree;

pub use fault::{YamlError, YamlFault, YamlKind};
pub use laws::{one_grammar, one_reading, word_is_scalar};
pub use line::{bare, first_line, skip, trim_end};
pub use reader::read;
pub use text::Text;
pub use tree::{Pair, Tree, Value};
