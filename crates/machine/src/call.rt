// Calls and their answers as values, and lists of them.
ghost use Rattle.std.specs.Prelude.{◌≡◌};
ghost use Rattle.base.specs.Refusals.{told};
ghost use Rattle.machine.specs.Faults.{call_refusal};
ghost use Rattle.machine.specs.Resources.{state_of, call_of, call_leaves, calls_of, calls_leave, Lasts};
ghost use Rattle.machine.specs.Calls.{open_exchange, calls_in, answers_in};

use crate::fault::CallFault;
use crate::registers::Registers;
use crate::resources::Resources;
use crate::session::Session;
use base::store::Store;

/// A call of a session, as a value.
#[derive(Clone, Copy, PartialEq, Eq, Debug)]
pub enum Call {
    /// A resume with this limit of steps.
    Resume(u64),
    /// A look at this cell.
    Look(u16),
    /// A report.
    Report,
}

/// The answer to a call.
#[derive(Clone, Copy, PartialEq, Eq, Debug)]
pub enum Answer {
    /// The answer to a resume or to a report.
    Registers(Registers),
    /// The answer to a look: the word of the cell.
    Word(u16),
}

/// A call, and its answer once it is made.
#[derive(Clone, Copy, PartialEq, Eq, Debug)]
pub struct Exchange {
    /// The call.
    pub call: Call,
    /// Its answer once the call is made. Before that it says nothing; `of` puts the word 0 here.
    pub answer: Result<Answer, CallFault>,
}

impl Exchange {
    /// The exchange of a call that is not made yet.
    pub fn of(call: Call) -> Exchange
        ensures { result ≡ open_exchange call }
    {
        Exchange {
            call,
            answer: Ok(Answer::Word(0)),
        }
    }
}

impl Session {
    /// Makes one call. Refuses with 30 to 35 where a resume does, and with 36 where a look does. A refusal changes nothing.
    pub fn call<S: Store>(
        &mut self,
        resources: &mut Resources<'_, '_, '_, S>,
        call: Call,
    ) -> Result<Answer, CallFault>
        ensures answer { told call_refusal result ≡ call_of S.Store.words self.old resources.old call }
        ensures left { state_of S.Store.words self.new resources.new
            ≡ call_leaves S.Store.words self.old resources.old call }
        ensures lasts { Lasts S.Store.keeps self.old self.new resources.old resources.new }
    {
        match call {
            Call::Resume(limit) => {
                let registers = self.resume(resources, limit)?;
                Ok(Answer::Registers(registers))
            }
            Call::Look(cell) => {
                let w = self.look(resources.store, cell)?;
                Ok(Answer::Word(w))
            }
            Call::Report => Ok(Answer::Registers(self.report())),
        }
    }

    /// Makes the calls one after another, and puts the answer of each beside it. A refusal is the answer to its call, and
    /// the next call is made.
    pub fn play<S: Store>(
        &mut self,
        resources: &mut Resources<'_, '_, '_, S>,
        exchanges: &mut [Exchange],
    )
        ensures calls { calls_in exchanges.new ≡ calls_in exchanges.old }
        ensures answers { answers_in exchanges.new
            ≡ calls_of S.Store.words self.old resources.old (calls_in exchanges.old) }
        ensures left { state_of S.Store.words self.new resources.new
            ≡ calls_leave S.Store.words self.old resources.old (calls_in exchanges.old) }
        ensures lasts { Lasts S.Store.keeps self.old self.new resources.old resources.new }
    {
        for exchange in exchanges.iter_mut() {
            exchange.answer = self.call(resources, exchange.call);
        }
    }
}
