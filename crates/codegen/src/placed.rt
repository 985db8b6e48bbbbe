// What the two passes keep, and what an emitter answers.
use ir::item::Item;
use thiserror::Error;

/// An item and where it stands in the code. Places are indices of instructions.
#[derive(Clone, Copy, PartialEq, Eq, Debug)]
pub struct Placed {
    /// The item of the typed list.
    pub item: Item,
    /// The index of its first instruction.
    pub index: u16,
    /// The index after its last instruction.
    pub after: u16,
    /// The index where the innermost open loop starts, 0 if no loop is open.
    pub start: u16,
}

/// Where an open construct goes on. Both are indices of instructions.
#[derive(Clone, Copy, PartialEq, Eq, Debug)]
pub struct Aim {
    /// Where a condition goes if it is true, and where an arm of a CASE goes at its end.
    pub yes: u16,
    /// Where a condition goes if it is false, where an arm of a CASE begins, and where an ELSE or a loop ends.
    pub no: u16,
}

/// The size of a code and the stack that it needs. The number of cells is not here, since the items do not tell it.
#[derive(Clone, Copy, PartialEq, Eq, Debug)]
pub struct CodeSize {
    /// How many instructions there are, HALT included.
    pub count: u16,
    /// The largest number of words stacked anywhere in the code.
    pub depth: u16,
}

/// Why a list of items has no code.
#[derive(Clone, Copy, PartialEq, Eq, Debug, Error)]
pub enum Excess {
    /// There are over 131,072 items.
    #[error("there are more items than the longest source gives")]
    Items,
    /// There are over 16,383 instructions, or more than the table has entries.
    #[error("the code has too many instructions")]
    Room,
}
