// A machine that can make steps. No other crate sees it: a session makes one after it has judged what it was lent.
ghost use Rattle.std.specs.Prelude.{◌≡◌, ◌+◌, ◌<◌, ◌≤◌, length, None, IfOk};
ghost use Rattle.base.specs.Limits.{most_instructions, most_words, most_steps};
ghost use Rattle.base.specs.Lists.{room};

use crate::act::act;
use crate::ending::Ending;
use crate::registers::{Move, Registers};
use base::instr::Instr;
use base::list::Bounded;
use base::store::Store;

// A machine has its code, the depth of its stack, the words stacked, its store, and the other registers. The height is the
// length of the list.
#[derive(Drop)]
pub(crate) struct Machine<'a, 'b, 'c, 'd, S> {
    pub code: &'a [Instr],
    pub depth: u16,
    pub stack: &'b mut Bounded<'c, u16>,
    pub store: &'d mut S,
    pub pc: u32,
    pub steps: u64,
    pub writes: u64,
    pub ending: Option<Ending>,
    ghost deep: { depth ≤ most_words },
    ghost short: { length code.now ≤ most_instructions },
    ghost room: { depth ≤ length (room stack.now) },
    ghost low: { stack.now.len ≤ depth },
    ghost counted: { writes ≤ steps },
    ghost within: { steps ≤ most_steps },
}

impl<S: Store> Machine<'_, '_, '_, '_, S> {
    ghost use Rattle.machine.specs.Machine.{after_move, move_of, goes, Makes, pops as pops_of, step as step_of, run as run_of};
    ghost use Rattle.machine.specs.Registers.{registers_of, state_of, Lasts};

    // The registers as they are now.
    pub(crate) fn registers(&self) -> Registers
        ensures { result ≡ registers_of self.now }
    {
        Registers {
            pc: self.pc,
            height: self.stack.len() as u16,
            steps: self.steps,
            writes: self.writes,
            ending: self.ending,
        }
    }

    // Makes a move. A move that ends the run changes nothing.
    #[inline(always)]
    fn make(&mut self, m: Move) -> Result<(), Ending>
        requires counts { self.old.writes < self.old.steps }
        requires pops { pops_of m ≤ self.old.stack.now.len }
        requires pc { self.old.pc < 65536 }
        ensures did { let before = state_of S.Store.words self.old in
            Makes result before (state_of S.Store.words self.new) (after_move self.old.depth m before) }
        ensures lasts { Lasts S.Store.keeps self.old self.new }
    {
        match m {
            Move::On { pops, pc } => {
                self.stack
                    .cut(usize::from(pops))
                    .map_err(|_| Ending::Missing)?;
                self.pc = pc;
            }
            Move::Push { pops, word } => {
                let pops = usize::from(pops);
                if self.stack.len() - pops >= usize::from(self.depth) {
                    return Err(Ending::TooHigh);
                }
                self.stack.cut(pops).map_err(|_| Ending::Missing)?;
                self.stack.push(word).map_err(|_| Ending::TooHigh)?;
                self.pc += 1;
            }
            Move::Write {
                pops,
                cell,
                word,
                pc,
            } => {
                let cell = u16::try_from(cell).map_err(|_| Ending::Outside)?;
                self.store.write(cell, word)?;
                self.stack
                    .cut(usize::from(pops))
                    .map_err(|_| Ending::Missing)?;
                self.writes += 1;
                self.pc = pc;
            }
        }
        Ok(())
    }

    // The move of the instruction at the program counter.
    #[inline(always)]
    fn fetch(&self) -> Result<Move, Ending>
        ensures moves { result ≡ move_of self.now.code.now (state_of S.Store.words self.now) }
        ensures pc { IfOk result (λ _. self.now.pc < length self.now.code.now) }
    {
        let pc = self.pc;
        let i = self.code.get(pc as usize).ok_or(Ending::Outside)?;
        act(i, pc, self.stack, self.store)
    }

    // Makes the move of the instruction at the program counter.
    #[inline(always)]
    fn advance(&mut self) -> Result<(), Ending>
        requires { self.old.writes < self.old.steps }
        ensures did { let before = state_of S.Store.words self.old in
            Makes result before (state_of S.Store.words self.new) (goes self.old.code.now self.old.depth before) }
        ensures lasts { Lasts S.Store.keeps self.old self.new }
    {
        let m = self.fetch()?;
        self.make(m)
    }

    // Counts a step and makes it, or notes the ending.
    #[inline(always)]
    fn cycle(&mut self)
        requires steps { self.old.steps < most_steps }
        requires going { self.old.ending ≡ None }
        ensures did { let before = state_of S.Store.words self.old in
            state_of S.Store.words self.new ≡ step_of self.old.code.now self.old.depth before }
        ensures lasts { Lasts S.Store.keeps self.old self.new }
    {
        self.steps += 1;
        if let Err(e) = self.advance() {
            self.ending = Some(e);
        }
    }

    // Makes `steps` steps, or fewer if the run ends.
    #[inline(always)]
    pub(crate) fn run(&mut self, steps: u64)
        requires { self.old.steps + steps ≤ most_steps }
        ensures did { let before = state_of S.Store.words self.old in
            state_of S.Store.words self.new ≡ run_of self.old.code.now self.old.depth steps before }
        ensures lasts { Lasts S.Store.keeps self.old self.new }
    {
        for i in 0..steps {
            if self.ending.is_some() {
                return;
            }
            self.cycle();
        }
    }
}
