//! What a text is read as.

use crate::text::Text;
use sqlite_items::Items;

/// A node of the tree, and the line on which it begins, counted from 1. An empty value has the line
/// of its key or dash.
#[cycle(tree)]
#[derive(Drop)]
pub struct Tree {
    /// The line on which the node begins, counted from 1.
    pub line: u32,
    /// What the node is.
    pub value: Value,
}

/// What a node is.
#[cycle(tree)]
#[derive(Drop)]
pub enum Value {
    /// Nothing is written.
    Empty,
    /// A plain or double-quoted text, without its quotes.
    Scalar(Text),
    /// The items, as they are written.
    List(Items<Tree>),
    /// The pairs, as they are written. No two have one key.
    Map(Items<Pair>),
}

/// A key of a map with its value, and the line of the key.
#[cycle(tree)]
#[derive(Drop)]
pub struct Pair {
    /// The key, without quotes.
    pub key: Text,
    /// The line of the key, counted from 1.
    pub line: u32,
    /// What the key stands for.
    pub value: Tree,
}
