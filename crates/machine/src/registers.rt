// The registers, and what one step does to them.
use super::ending::Ending;

/// The registers of a machine.
#[derive(Clone, Copy, PartialEq, Eq, Debug)]
pub struct Registers {
    /// The index of the next instruction, or of the one that ended the run.
    pub pc: u32,
    /// How many words are stacked.
    pub height: u16,
    /// How many steps were made, the ending one included.
    pub steps: u64,
    /// How many steps wrote a cell. A write of the word that the cell held already counts too.
    pub writes: u64,
    /// The ending of the run, or `None` while it goes on.
    pub ending: Option<Ending>,
}

/// A step that is worked out and not yet made. An index in it is that of an instruction.
#[derive(Clone, Copy, PartialEq, Eq, Debug)]
pub enum Move {
    /// Words are popped, and the run goes on at an index.
    On {
        pops: u16,
        pc: u32,
    },
    /// Words are popped and one is pushed, and the run goes on at the next index.
    Push {
        pops: u16,
        word: u16,
    },
    /// Words are popped and a cell is written, and the run goes on at an index. A cell over 65,535 is in no store.
    Write {
        pops: u16,
        cell: u32,
        word: u16,
        pc: u32,
    },
}
