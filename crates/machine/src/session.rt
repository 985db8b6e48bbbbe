// A code on the machine, from call to call.
ghost use Rattle.std.specs.Prelude.{◌≡◌, ◌<◌, ◌≤◌};
ghost use Rattle.base.specs.Limits.{most_words, most_steps};
ghost use Rattle.base.specs.Refusals.{told};
ghost use Rattle.base.specs.Stores.{read_of, refusal_of as store_refusal};

use crate::fault::SessionFault;
use crate::machine::Machine;
use crate::registers::Registers;
use crate::resources::Resources;
use base::limits::MOST_STEPS;
use base::list::Bounded;
use base::store::{Store, StoreFault};

/// A session keeps the cells and the depth that it was started with, and the registers. Code, stack and store are lent to it
/// at every call, and each resume judges them anew.
#[derive(Drop)]
pub struct Session {
    cells: u16,
    depth: u16,
    registers: Registers,
    ghost deep: { depth ≤ most_words },
    ghost low: { registers.height ≤ depth },
    ghost counted: { registers.writes ≤ registers.steps },
    ghost within: { registers.steps ≤ most_steps },
}

impl Session {
    ghost use Rattle.machine.specs.Faults.{refusal_of};
    ghost use Rattle.machine.specs.Resources.{fit, state_of, resume_of, resume_leaves, Lasts};
    ghost use Rattle.machine.specs.Sessions.{registers_after, Starts};

    /// A session at instruction 0 with an empty stack, for a code that uses `cells` cells of the store and needs `depth`
    /// words on the stack. Refuses with 30 where the code has no instruction or over 16,383, with 31 where the stack has
    /// fewer words than the depth, and with 32 where the store has fewer cells. Changes nothing that is lent.
    pub fn start<S: Store>(
        cells: u16,
        depth: u16,
        resources: &Resources<'_, '_, '_, S>,
    ) -> Result<Session, SessionFault>
        ensures { Starts (told refusal_of result) cells depth (fit S.Store.words cells depth resources.now) }
    {
        resources.fit(cells, depth)?;
        Ok(Session {
            cells,
            depth,
            registers: Registers {
                pc: 0,
                height: 0,
                steps: 0,
                writes: 0,
                ending: None,
            },
        })
    }

    /// The registers as the last call left them.
    pub fn report(&self) -> Registers
        ensures { result ≡ self.now.registers }
    {
        self.registers
    }

    /// The word of a cell of the store. Refuses with 36, at the cell, where the store has no such cell.
    pub fn look<S: Store>(&self, store: &S, cell: u16) -> Result<u16, StoreFault>
        ensures { told store_refusal result ≡ read_of (S.Store.words store.now) cell }
    {
        store.read(cell)
    }

    /// Makes `limit` steps, fewer only if the run ends or 4,000,000,000 in all are reached, and answers the registers.
    /// Refuses with 30, 31 and 32 as `start` does, then with 33 where the limit is 0, with 34 where the run has ended, and
    /// with 35 where all 4,000,000,000 steps were made. A refusal changes nothing.
    pub fn resume<S: Store>(
        &mut self,
        resources: &mut Resources<'_, '_, '_, S>,
        limit: u64,
    ) -> Result<Registers, SessionFault>
        ensures answer { told refusal_of result
            ≡ registers_after (resume_of S.Store.words self.old resources.old limit) }
        ensures left { state_of S.Store.words self.new resources.new
            ≡ resume_leaves S.Store.words self.old resources.old limit }
        ensures lasts { Lasts S.Store.keeps self.old self.new resources.old resources.new }
    {
        resources.fit(self.cells, self.depth)?;
        if limit == 0 {
            return Err(SessionFault::NoSteps);
        }
        if self.registers.ending.is_some() {
            return Err(SessionFault::Ended);
        }
        if self.registers.steps >= MOST_STEPS {
            return Err(SessionFault::UsedUp);
        }
        let granted = limit.min(MOST_STEPS - self.registers.steps);
        let mut list = Bounded::of_first(&mut *resources.stack, usize::from(self.registers.height));
        let mut machine = Machine {
            code: resources.code,
            depth: self.depth,
            stack: &mut list,
            store: &mut *resources.store,
            pc: self.registers.pc,
            steps: self.registers.steps,
            writes: self.registers.writes,
            ending: self.registers.ending,
        };
        machine.run(granted);
        self.registers = machine.registers();
        Ok(self.registers)
    }
}
