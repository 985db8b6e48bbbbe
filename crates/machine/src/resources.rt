// What the calls of a session are lent.
ghost use Rattle.std.specs.Prelude.{◌≡◌};
ghost use Rattle.base.specs.Refusals.{told};

use crate::fault::SessionFault;
use base::instr::Instr;
use base::limits::MOST_INSTRUCTIONS;
use base::store::Store;

/// What a caller lends to a call of a session. It may be anything: the start and each resume judge it.
#[derive(Drop)]
pub struct Resources<'a, 'b, 'c, S> {
    /// The instructions of the code, from index 0.
    pub code: &'a [Instr],
    /// The words for the stack, the lowest first.
    pub stack: &'b mut [u16],
    /// The store of the cells.
    pub store: &'c mut S,
}

impl<S: Store> Resources<'_, '_, '_, S> {
    ghost use Rattle.machine.specs.Faults.{refusal_of};
    ghost use Rattle.machine.specs.Resources.{fit};

    // Checks that what is lent is enough for a code with these cells and this depth.
    pub(crate) fn fit(&self, cells: u16, depth: u16) -> Result<(), SessionFault>
        ensures { told refusal_of result ≡ fit S.Store.words cells depth self.now }
    {
        if self.code.is_empty() || self.code.len() > MOST_INSTRUCTIONS {
            return Err(SessionFault::BadCode);
        }
        if self.stack.len() < depth as usize {
            return Err(SessionFault::ShortStack);
        }
        if self.store.size() < cells {
            return Err(SessionFault::ShortStore);
        }
        Ok(())
    }
}
