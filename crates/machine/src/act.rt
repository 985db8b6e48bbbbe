// What one instruction does, worked out without changing anything.
ghost use Rattle.std.specs.Prelude.{◌≡◌, ◌<◌};
ghost use Rattle.base.specs.Lists.{room};
ghost use Rattle.machine.specs.Table.{op_of_number, move_at};

use super::ending::Ending;
use super::registers::Move;
use super::view::View;
use base::instr::Instr;
use base::list::Bounded;
use base::op::Op;
use base::store::Store;

// The instruction of a number.
#[inline(always)]
#[tactic(auto, unfolding(crate::specs::Table::op_of_number))]
fn decode(number: u16) -> Result<Op, Ending>
    ensures { result ≡ op_of_number number }
{
    Ok(Op::try_from(number)?)
}

// The move that the instruction at this index makes, or the ending.
#[inline(always)]
pub(crate) fn act<S: Store>(
    i: &Instr,
    pc: u32,
    stack: &Bounded<'_, u16>,
    store: &S,
) -> Result<Move, Ending>
    requires { pc < 65536 }
    ensures { result ≡ move_at i.now pc stack.now.len (room stack.now) (S.Store.words store.now) }
{
    let op = decode(i.number)?;
    let view = View {
        a: i.a,
        b: i.b,
        pc,
        stack,
        store,
    };
    view.execute(op)
}
