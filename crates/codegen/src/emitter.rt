// The memory that code is made in. It is made once and used for any number of lists.
ghost use Rattle.std.specs.Prelude.{IfOk};
ghost use Rattle.codegen.specs.Measure.{Emits};
ghost use Rattle.codegen.specs.Passes.{IsBlank};

use crate::backward::Backward;
use crate::forward::place_all;
use crate::measure::measure;
use crate::placed::{CodeSize, Excess, Placed};
use base::instr::Instr;
use base::limits::{MOST_INSTRUCTIONS, MOST_ITEMS};
use base::reserved::Reserved;
use ir::item::Item;
use std::alloc::{AllocError, Global};

/// Makes the code of typed lists, one after another, in memory that is reserved once.
#[derive(Drop)]
pub struct Emitter {
    // Each item gives at most one entry of each list.
    starts: Reserved<u16, MOST_ITEMS>,
    placed: Reserved<Placed, MOST_ITEMS>,
    backward: Backward,
}

impl Emitter {
    /// Answers an emitter with all the memory that it needs. No other call asks for memory, and this one fails only
    /// where there is too little.
    pub fn new(heap: Global) -> Result<Emitter, AllocError>
        ensures { IfOk result (λ e. IsBlank e) }
    {
        Ok(Emitter {
            starts: Reserved::new(heap)?,
            placed: Reserved::new(heap)?,
            backward: Backward::new(heap)?,
        })
    }

    /// Writes the code of the items to the front of the table, and answers its figures. Refuses with `Items` where
    /// there are over 131,072 items, and else with `Room` where the code has over 16,383 instructions or more than
    /// the table has entries. A refusal leaves the table as it was.
    pub fn emit(&mut self, items: &[Item], table: &mut [Instr]) -> Result<CodeSize, Excess>
        ensures { Emits items.now table.old table.new result }
    {
        if items.len() > MOST_ITEMS {
            return Err(Excess::Items);
        }
        let limit = table.len().min(MOST_INSTRUCTIONS);
        let figures = measure(items, limit as u32).ok_or(Excess::Room)?;
        place_all(items, &mut self.starts, &mut self.placed);
        self.backward.resolve(&mut self.placed);
        self.backward.hand_over(table);
        Ok(figures)
    }
}
