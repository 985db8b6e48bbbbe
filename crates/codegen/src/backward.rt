// The backward pass makes the code of each item after the code that follows it.
ghost use Rattle.std.specs.Prelude.{◌≡◌, ◌+◌, ◌<◌, ◌≤◌, [], ◌∷◌, ◌++◌, length, reverse, drop, IfOk, slice_index_or};
ghost use Rattle.base.specs.Limits.{most_items, code_room};
ghost use Rattle.base.specs.Stacks.{below};
ghost use Rattle.ir.specs.Instrs.{CASE};
ghost use Rattle.codegen.specs.Items.{aims, blank, table as table_of, without, emits, behind, back, last};
ghost use Rattle.codegen.specs.Passes.{Low};

use crate::placed::{Aim, Placed};
use base::instr::Instr;
use base::limits::{CODE_ROOM, MOST_ITEMS};
use base::op::Op;
use base::reserved::Reserved;
use ir::item::Item;
use std::alloc::{AllocError, Global};
use std::marker::Model;

// Two stacks: the constructs that are open behind an item, and the instructions behind it. The next one is on top.
#[derive(Drop)]
pub(crate) struct Backward {
    todo: Reserved<Aim, MOST_ITEMS>,
    code: Reserved<Instr, CODE_ROOM>,
}

impl Model for Backward {
    ghost use Rattle.std.specs.Prelude.{reverse};
    ghost use Rattle.codegen.specs.Items.{Back};

    ghost Value = { Back };

    ghost view = { λ s. record { code = reverse s.code; todo = reverse s.todo } };
}

impl Backward {
    // Reserves the memory of the pass. Nothing is open, and there is no code.
    pub(crate) fn new(heap: Global) -> Result<Backward, AllocError>
        ensures { IfOk result (λ s. s ≡ blank) }
    {
        Ok(Backward {
            todo: Reserved::new(heap)?,
            code: Reserved::new(heap)?,
        })
    }

    // Puts an instruction in front of the code.
    fn put(&mut self, i: Instr)
        requires { length self.old.code < code_room }
        ensures { self.new ≡ record { code = i ∷ self.old.code; todo = self.old.todo } }
    {
        let _ = self.code.push(i);
    }

    // Opens a construct.
    fn begin(&mut self, yes: u16, no: u16)
        requires { length self.old.todo < most_items }
        ensures { self.new ≡ record { code = self.old.code; todo = aims yes no ∷ self.old.todo } }
    {
        let _ = self.todo.push(Aim { yes, no });
    }

    // Closes the innermost construct.
    fn leave(&mut self)
        ensures { self.new ≡ record { code = self.old.code; todo = below self.old.todo } }
    {
        let _ = self.todo.pop();
    }

    // Where the k-th open construct goes on, counted from 0 at the innermost; 0 and 0 if fewer are open.
    fn aim(&self, k: usize) -> Aim
        ensures { result ≡ slice_index_or self.now.todo k (aims 0 0) }
    {
        self.todo.peek(k).unwrap_or(Aim { yes: 0, no: 0 })
    }

    // Puts a branch to each of the `n` innermost arms. The branch to the innermost arm stands first.
    fn branches(&mut self, n: u16)
        requires { length self.old.code + n ≤ code_room }
        ensures { self.new ≡ record { code = table_of n self.old.todo ++ self.old.code; todo = self.old.todo } }
    {
        for k in (0..n as usize).rev() {
            let arm = self.aim(k);
            self.put(Instr::new(Op::Br, arm.no, 0));
        }
    }

    // Closes the `n` innermost arms.
    fn disarm(&mut self, n: u16)
        ensures { self.new ≡ record { code = self.old.code; todo = without n self.old.todo } }
    {
        for _ in 0..n {
            self.leave();
        }
    }

    // Puts a CASE of `n` arms, which stands at `index`, and its table of branches. Closes the arms and the CASE.
    fn choose(&mut self, index: u16, n: u16)
        requires fits { index < 65535 }
        requires room { length self.old.code + n < code_room }
        ensures { self.new ≡ record {
          code = CASE (index + 1) n ∷ table_of n self.old.todo
              ++ self.old.code;
          todo = below (without n self.old.todo);
        } }
    {
        self.branches(n);
        self.put(Instr::new(Op::Case, index + 1, n));
        self.disarm(n);
        self.leave();
    }

    // Puts the code of one item in front of the code that follows it.
    fn apply(&mut self, x: Placed)
        requires fits { x.index < 65535 }
        requires aimed { length self.old.todo < most_items }
        requires room { length self.old.code + length (emits x.item x.index x.after x.start self.old.todo) ≤ code_room }
        ensures done { self.new ≡ behind x self.old }
        ensures len { length self.new.todo ≤ length self.old.todo + 1 }
    {
        let top = self.aim(0);
        match x.item {
            Item::Plain(i) => self.put(i),
            Item::Test => self.put(Instr::new(Op::Bre, top.no, 0)),
            Item::Or => {
                self.put(Instr::new(Op::Br, top.yes, 0));
                self.leave();
                self.begin(top.yes, x.after);
            }
            Item::If | Item::While | Item::Until => self.leave(),
            Item::Then => {
                self.leave();
                self.begin(x.index, top.no);
            }
            Item::Else => {
                self.put(Instr::new(Op::Br, top.no, 0));
                self.leave();
                self.begin(0, x.after);
            }
            Item::Fi => self.begin(0, x.index),
            Item::Loop => {
                self.put(Instr::new(Op::Br, x.start, 0));
                self.begin(0, x.after);
            }
            Item::Do => {}
            Item::Done => self.begin(x.index, x.start),
            Item::For(c) => {
                self.put(Instr::new(Op::For, c, top.no));
                self.leave();
            }
            Item::Next(c) => {
                self.put(Instr::new(Op::Next, c, x.start));
                self.begin(0, x.after);
            }
            Item::Case(n) => self.choose(x.index, n),
            Item::Arm => self.begin(top.yes, x.index),
            Item::Out => self.put(Instr::new(Op::Br, top.yes, 0)),
            Item::Esac => self.begin(x.index, 0),
        }
    }

    // Makes the code of the placed items, and takes them all out of the list.
    pub(crate) fn resolve(&mut self, rest: &mut Reserved<Placed, MOST_ITEMS>)
        requires low { Low rest.old }
        requires few { length rest.old ≤ most_items }
        requires room { length (back rest.old last).code ≤ code_room }
        ensures { self.new ≡ back rest.old last }
    {
        self.todo.clear();
        self.code.clear();
        self.put(Instr::new(Op::Halt, 0, 0));
        while let Some(x) = rest.pop() {
            self.apply(x);
        }
    }

    // Writes the code to the front of the table.
    pub(crate) fn hand_over(&mut self, table: &mut [Instr])
        requires { length self.old.code ≤ length table.old }
        ensures { table.new ≡ self.old.code ++ drop (length self.old.code) table.old }
    {
        let _ = self.code.hand_over(table);
    }
}
