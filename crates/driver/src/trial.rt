// The memory of a trial. It is made once and used for any number of sources.
ghost use Rattle.std.specs.Prelude.{◌≡◌, length, [], IfOk};
ghost use Rattle.base.specs.Limits.{most_instructions};
ghost use Rattle.base.specs.Refusals.{told};
ghost use Rattle.sema.specs.Works.{holds, nodes_of, nothing};
ghost use Rattle.compiler.specs.Compile.{compilation};
ghost use Rattle.machine.specs.Faults.{refusal_of as session_refusal};
ghost use Rattle.driver.specs.Faults.{refusal_of};
ghost use Rattle.driver.specs.Trials.{lending, compile_answer, Makes, Tries};

use crate::fault::TrialFault;
use base::code::Code;
use base::instr::Instr;
use base::limits::MOST_INSTRUCTIONS;
use base::store::Store;
use compiler::compiler::Compiler;
use compiler::fault::CompileFault;
use machine::call::Exchange;
use machine::fault::SessionFault;
use machine::resources::Resources;
use machine::session::Session;
use std::alloc::{AllocError, Global};

/// Compiles sources and makes calls on their code, in memory that is reserved once. Its table has room for every
/// code.
#[derive(Drop)]
pub struct Trial {
    compiler: Compiler,
    table: Vec<Instr>,
    ghost room: { length table.items ≡ most_instructions },
}

// Starts a session with a code, and makes the calls on it.
fn make<S: Store>(
    code: Code<'_>,
    stack: &mut [u16],
    store: &mut S,
    exchanges: &mut [Exchange],
) -> Result<Session, SessionFault>
    ensures did { let before = lending exchanges.old stack.old (S.Store.words store.old) in
        let after = lending exchanges.new stack.new (S.Store.words store.new) in
        Makes (told session_refusal result) code.entry before after }
    ensures keeps { S.Store.keeps store.old store.new }
{
    let mut resources = Resources {
        code: code.instructions,
        stack,
        store,
    };
    let mut session = Session::start(code.cells, code.depth, &resources)?;
    session.play(&mut resources, exchanges);
    Ok(session)
}

impl Trial {
    /// Answers a trial with all the memory that it needs. No other call asks for memory, and this one fails only
    /// where there is too little.
    pub fn new(heap: Global) -> Result<Trial, AllocError>
        ensures { IfOk result (λ t. (holds t.compiler.workspace ≡ nothing) × (nodes_of t.compiler.workspace ≡ [])) }
    {
        Ok(Trial {
            compiler: Compiler::new(heap)?,
            table: vec![in heap; Instr::default(); MOST_INSTRUCTIONS]?,
        })
    }

    /// Answers the code of a source, which is lent until the next call. Refuses with 1 to 14, as the compiler does.
    pub fn ready(&mut self, source: &[u8]) -> Result<Code<'_>, CompileFault>
        ensures { compile_answer result ≡ compilation source.now most_instructions }
    {
        let figures = self.compiler.compile(source, self.table.as_mut_slice())?;
        Ok(Code {
            cells: figures.cells,
            depth: figures.depth,
            instructions: &self.table.as_slice()[0..figures.count as usize],
        })
    }

    /// Compiles a source, starts a session with its code, makes the calls in order, and answers the session. Each
    /// call has its answer in its exchange; a call that is refused has its refusal there, and the next call is
    /// made. Refuses with 1 to 14 as the compiler does, with 31 where the stack has fewer words than the depth, and
    /// else with 32 where the store has fewer cells than the code uses. A refusal comes before the first call and
    /// leaves stack, store and exchanges as they were.
    pub fn play<S: Store>(
        &mut self,
        source: &[u8],
        stack: &mut [u16],
        store: &mut S,
        exchanges: &mut [Exchange],
    ) -> Result<Session, TrialFault>
        ensures did { let before = lending exchanges.old stack.old (S.Store.words store.old) in
            let after = lending exchanges.new stack.new (S.Store.words store.new) in
            Tries (told refusal_of result) source.now before after }
        ensures keeps { S.Store.keeps store.old store.new }
    {
        let code = self.ready(source)?;
        let session = make(code, stack, store, exchanges)?;
        Ok(session)
    }
}
