//! The words of the order in which pages are written: what several crates say alike, each defined once.
//!
//! `specs/` has them: the plain state of an engine (`World.antt`), edges and ways along them (`Edges.antt`, `Paths.antt`,
//! `Levels.antt`), the calls that tell which names and prints are unborn (`Calls.antt`), what is told of the counts of data
//! pages (`Pool.antt`), lists of contents (`Contents.antt`) and counting (`Counting.antt`). There is no code but the two
//! types below, which code and contracts share.
#![tactic(auto)]

/// What an edge waits for.
#[derive(Clone, Copy, Debug, PartialEq, Eq)]
pub enum Kind {
    /// The write of the page before, and then a barrier.
    Live,
    /// A barrier alone.
    Barrier,
}

/// A block, whose value is its map entry, or a data page, whose value is 1 with a print and 0 without.
#[derive(Clone, Copy, Debug, PartialEq, Eq, Hash, Drop)]
pub enum Slot {
    /// The map entry of a block.
    Name(u32),
    /// The print of a data page.
    Print(u32),
}
