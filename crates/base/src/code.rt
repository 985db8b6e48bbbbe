// What goes into a card.
use crate::instr::Instr;

/// A code: the cells that it uses, the stack words that it needs, and its instructions.
#[derive(Clone, Copy, PartialEq, Eq, Debug)]
pub struct Code<'a> {
    /// How many cells of the store it uses.
    pub cells: u16,
    /// How many words it needs on the stack.
    pub depth: u16,
    /// The instructions, from index 0.
    pub instructions: &'a [Instr],
}

/// The figures of a code whose instructions stand elsewhere, as in a table that was lent.
#[derive(Clone, Copy, PartialEq, Eq, Debug)]
pub struct Figures {
    /// How many cells of the store the code uses.
    pub cells: u16,
    /// How many words it needs on the stack.
    pub depth: u16,
    /// How many instructions it has.
    pub count: u16,
}
