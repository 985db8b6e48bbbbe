// The single run: it starts, resumes once, and leaves every stack word zero.
ghost use Rattle.std.specs.Prelude.{◌≡◌, length, replicate};
ghost use Rattle.base.specs.Refusals.{told};
ghost use Rattle.machine.specs.Faults.{refusal_of};
ghost use Rattle.machine.specs.Sessions.{registers_after, single as single_of, single_leaves};

use crate::fault::SessionFault;
use crate::registers::Registers;
use crate::resources::Resources;
use crate::session::Session;
use base::code::Code;
use base::store::Store;

// A guard over the stack words, which sets them all to zero when it goes out of scope.
struct Wipe<'a> {
    words: &'a mut [u16],
}

impl Drop for Wipe<'_> {
    fn drop(self)
        ensures { self.exit.0.now ≡ replicate (length self.entry.words.now) 0 }
    {
        self.words.fill(0);
        let Wipe { words: _ } = self;
    }
}

fn once<S: Store>(
    code: Code<'_>,
    stack: &mut [u16],
    store: &mut S,
    limit: u64,
) -> Result<Registers, SessionFault>
    ensures answer { told refusal_of result
        ≡ registers_after (single_of code.entry limit stack.old (S.Store.words store.old)) }
    ensures left { S.Store.words store.new ≡ single_leaves code.entry limit stack.old (S.Store.words store.old) }
    ensures keeps { S.Store.keeps store.old store.new }
{
    let mut resources = Resources {
        code: code.instructions,
        stack,
        store,
    };
    let mut session = Session::start(code.cells, code.depth, &resources)?;
    session.resume(&mut resources, limit)
}

/// Starts a session of the code, resumes it once with `limit` steps, and answers the registers. Refuses with 30 to 33 as the
/// start and the resume do; the store is then as it was. The stack words are all zero afterwards, after a refusal too.
pub fn single<S: Store>(
    code: Code<'_>,
    stack: &mut [u16],
    store: &mut S,
    limit: u64,
) -> Result<Registers, SessionFault>
    ensures cleared { stack.new ≡ replicate (length stack.old) 0 }
    ensures answer { told refusal_of result
        ≡ registers_after (single_of code.entry limit stack.old (S.Store.words store.old)) }
    ensures left { S.Store.words store.new ≡ single_leaves code.entry limit stack.old (S.Store.words store.old) }
    ensures keeps { S.Store.keeps store.old store.new }
{
    let guard = Wipe { words: stack };
    once(code, guard.words, store, limit)
}
