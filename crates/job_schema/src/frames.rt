//! What specs have to know of a family.

use sqlite_items::Items;

/// A family as specs refer to it. The project's own.
#[derive(Debug, Drop)]
pub struct Frame {
    /// How many denominators it has, at most 20.
    pub width: u32,
    /// Its top level sectors.
    pub top_level: Items<u32>,
}
