// What an instruction looks at, and what it does.
ghost use Rattle.std.specs.Prelude.{◌≡◌, ◌-◌, ◌<◌, ◌≤◌, IfOk, slice_index};
ghost use Rattle.base.specs.Lists.{room};
ghost use Rattle.machine.specs.declared.registers.Move.TheVariants.{On, Push, Write};
ghost use Rattle.machine.specs.Table.{ready_when, cell_of, row as row_of};

use super::ending::Ending;
use super::registers::Move;
use arith::bits;
use arith::field::Field;
use arith::integer::{self, case_index, subscript, turns};
use arith::logical::{self, odd};
use arith::relation::{Relation, compare, compare_logical};
use arith::shift::Shift;
use base::list::Bounded;
use base::op::Op;
use base::store::Store;

// A view has the operands of an instruction, its index, the stacked words, and the store.
#[derive(Drop)]
pub(crate) struct View<'a, 'b, 'c, S> {
    pub a: u16,
    pub b: u16,
    pub pc: u32,
    pub stack: &'a Bounded<'b, u16>,
    pub store: &'c S,
    ghost near: { pc < 65536 },
}

#[inline(always)]
fn on(pops: u16, pc: u32) -> Move
    ensures { result ≡ On pops pc }
{
    Move::On { pops, pc }
}

#[inline(always)]
fn push(pops: u16, word: u16) -> Move
    ensures { result ≡ Push pops word }
{
    Move::Push { pops, word }
}

#[inline(always)]
fn write(pops: u16, cell: u32, word: u16, pc: u32) -> Move
    ensures { result ≡ Write pops cell word pc }
{
    Move::Write {
        pops,
        cell,
        word,
        pc,
    }
}

impl<S: Store> View<'_, '_, '_, S> {
    // The word at the top of the stack.
    #[inline(always)]
    fn top(&self) -> u16
        requires { 1 ≤ self.now.stack.now.len }
        ensures { result ≡ slice_index (room self.now.stack.now) (self.now.stack.now.len - 1) }
    {
        self.stack.peek(0).unwrap()
    }

    // The word below it.
    #[inline(always)]
    fn below(&self) -> u16
        requires { 2 ≤ self.now.stack.now.len }
        ensures { result ≡ slice_index (room self.now.stack.now) (self.now.stack.now.len - 2) }
    {
        self.stack.peek(1).unwrap()
    }

    // Checks that the operands fit, and then that `words` words are stacked.
    #[inline(always)]
    fn holds(&self, fits: bool, words: u16) -> Result<(), Ending>
        ensures gives { result ≡ ready_when fits words self.now.stack.now.len }
        ensures there { IfOk result (λ _. words ≤ self.now.stack.now.len) }
    {
        if !fits {
            return Err(Ending::BadOperand);
        }
        if self.stack.len() < usize::from(words) {
            return Err(Ending::Missing);
        }
        Ok(())
    }

    #[inline(always)]
    fn cell(&self, c: u32) -> Result<u16, Ending>
        ensures { result ≡ cell_of (S.Store.words self.now.store.now) c }
    {
        let c = u16::try_from(c).map_err(|_| Ending::Outside)?;
        Ok(self.store.read(c)?)
    }

    // The move that the instruction makes, or the ending.
    #[inline(always)]
    pub(crate) fn execute(&self, op: Op) -> Result<Move, Ending>
        ensures { let v = self.now in
            result
            ≡ row_of op v.a v.b v.pc v.stack.now.len (room v.stack.now) (S.Store.words v.store.now) }
    {
        let a = self.a;
        let b = self.b;
        let next = self.pc + 1;
        let single = b == 0;
        let plain = a == 0 && b == 0;
        match op {
            Op::Halt => {
                self.holds(plain, 0)?;
                Err(Ending::Halted)
            }
            Op::Lit => {
                self.holds(single, 0)?;
                Ok(push(0, a))
            }
            Op::Load => {
                self.holds(single, 0)?;
                Ok(push(0, self.cell(u32::from(a))?))
            }
            Op::Stor => {
                self.holds(single, 1)?;
                Ok(write(1, u32::from(a), self.top(), next))
            }
            Op::Ldx => {
                self.holds(true, 1)?;
                let i = subscript(self.top(), b)?;
                Ok(push(1, self.cell(u32::from(a) + u32::from(i))?))
            }
            Op::Stx => {
                self.holds(true, 2)?;
                let i = subscript(self.below(), b)?;
                Ok(write(2, u32::from(a) + u32::from(i), self.top(), next))
            }
            Op::Chk => {
                self.holds(single, 1)?;
                subscript(self.top(), a)?;
                Ok(on(0, next))
            }
            Op::Dup => {
                self.holds(plain, 1)?;
                Ok(push(0, self.top()))
            }
            Op::Drop => {
                self.holds(single, a)?;
                Ok(on(a, next))
            }
            Op::Add => {
                self.holds(plain, 2)?;
                Ok(push(2, integer::add(self.below(), self.top())?))
            }
            Op::Sub => {
                self.holds(plain, 2)?;
                Ok(push(2, integer::sub(self.below(), self.top())?))
            }
            Op::Mul => {
                self.holds(plain, 2)?;
                Ok(push(2, integer::mul(self.below(), self.top())?))
            }
            Op::Div => {
                self.holds(plain, 2)?;
                Ok(push(2, integer::div(self.below(), self.top())?))
            }
            Op::Rem => {
                self.holds(plain, 2)?;
                Ok(push(2, integer::rem(self.below(), self.top())?))
            }
            Op::Neg => {
                self.holds(plain, 1)?;
                Ok(push(1, integer::neg(self.top())?))
            }
            Op::Ladd => {
                self.holds(plain, 2)?;
                Ok(push(2, logical::add(self.below(), self.top())))
            }
            Op::Lsub => {
                self.holds(plain, 2)?;
                Ok(push(2, logical::sub(self.below(), self.top())))
            }
            Op::Lmul => {
                self.holds(plain, 2)?;
                Ok(push(2, logical::mul(self.below(), self.top())))
            }
            Op::Ldiv => {
                self.holds(plain, 2)?;
                Ok(push(2, logical::div(self.below(), self.top())?))
            }
            Op::Lrem => {
                self.holds(plain, 2)?;
                Ok(push(2, logical::rem(self.below(), self.top())?))
            }
            Op::Cmp => {
                let by = Relation::try_from(a)?;
                self.holds(single, 2)?;
                Ok(push(2, compare(by, self.below(), self.top())))
            }
            Op::Lcmp => {
                let by = Relation::try_from(a)?;
                self.holds(single, 2)?;
                Ok(push(2, compare_logical(by, self.below(), self.top())))
            }
            Op::And => {
                self.holds(plain, 2)?;
                Ok(push(2, bits::and(self.below(), self.top())))
            }
            Op::Or => {
                self.holds(plain, 2)?;
                Ok(push(2, bits::or(self.below(), self.top())))
            }
            Op::Xor => {
                self.holds(plain, 2)?;
                Ok(push(2, bits::xor(self.below(), self.top())))
            }
            Op::Not => {
                self.holds(plain, 1)?;
                Ok(push(1, bits::complement(self.top())))
            }
            Op::Fld => {
                let field = Field::new(a, b).ok_or(Ending::BadOperand)?;
                self.holds(true, 1)?;
                Ok(push(1, field.extract(self.top())))
            }
            Op::Dep => {
                let field = Field::new(a, b).ok_or(Ending::BadOperand)?;
                self.holds(true, 2)?;
                Ok(push(2, field.deposit(self.below(), self.top())))
            }
            Op::Shf => {
                let shift = Shift::new(a, b).ok_or(Ending::BadOperand)?;
                self.holds(true, 1)?;
                Ok(push(1, shift.apply(self.top())))
            }
            Op::Br => {
                self.holds(single, 0)?;
                Ok(on(0, u32::from(a)))
            }
            Op::Bre => {
                self.holds(single, 1)?;
                if odd(self.top()) {
                    return Ok(on(1, next));
                }
                Ok(on(1, u32::from(a)))
            }
            Op::Case => {
                self.holds(true, 1)?;
                let i = case_index(self.top(), b)?;
                Ok(on(1, u32::from(a) + u32::from(i)))
            }
            Op::For => {
                self.holds(true, 2)?;
                let variable = self.cell(u32::from(a))?;
                if turns(variable, self.below(), self.top()) {
                    return Ok(on(0, next));
                }
                Ok(on(0, u32::from(b)))
            }
            Op::Next => {
                self.holds(true, 2)?;
                let variable = self.cell(u32::from(a))?;
                let word = integer::add(variable, self.below())?;
                Ok(write(0, u32::from(a), word, u32::from(b)))
            }
        }
    }
}
