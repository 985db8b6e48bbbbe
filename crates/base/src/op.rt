// The instructions.
ghost use Rattle.std.specs.Prelude.{◌≡◌, ◌≤◌, MatchResult, Some, None, slice_get};
ghost use Rattle.base.specs.Ops.{ops, number_of, named_by, taken_by, left_by, op_text};

use std::fmt;
use thiserror::Error;

/// The instructions of the machine, in the order of their numbers, from 0. Below, x is the word at the top of the stack, y
/// is the word under it, and a and b are the operands. docs/MACHINE.md says in what order endings are judged.
#[derive(Clone, Copy, PartialEq, Eq, Debug)]
pub enum Op {
    /// Ends the run with 0.
    Halt,
    /// Pushes a.
    Lit,
    /// Pushes cell a.
    Load,
    /// Pops x into cell a.
    Stor,
    /// Pops x and pushes cell a + x. Stops with 3 unless 0 <= x < b.
    Ldx,
    /// Pops x and y, and puts x into cell a + y. Stops with 3 unless 0 <= y < b.
    Stx,
    /// Stops with 3 unless 0 <= x < a, and leaves x.
    Chk,
    /// Pushes x again.
    Dup,
    /// Pops a words.
    Drop,
    /// Pops x and y, and pushes their INTEGER sum.
    Add,
    /// Pops x and y, and pushes the INTEGER difference y - x.
    Sub,
    /// Pops x and y, and pushes their INTEGER product.
    Mul,
    /// Pops x and y, and pushes the INTEGER quotient y / x.
    Div,
    /// Pops x and y, and pushes the INTEGER remainder of y / x.
    Rem,
    /// Pops x and pushes its INTEGER negation.
    Neg,
    /// Pops x and y, and pushes their LOGICAL sum.
    Ladd,
    /// Pops x and y, and pushes the LOGICAL difference y - x.
    Lsub,
    /// Pops x and y, and pushes their LOGICAL product.
    Lmul,
    /// Pops x and y, and pushes the LOGICAL quotient y / x.
    Ldiv,
    /// Pops x and y, and pushes the LOGICAL remainder of y / x.
    Lrem,
    /// Pops x and y, and pushes TRUE where the relation a holds of y and x as INTEGERs, else FALSE.
    Cmp,
    /// Pops x and y, and pushes TRUE where the relation a holds of y and x as LOGICALs, else FALSE.
    Lcmp,
    /// Pops x and y, and pushes the word of the bits that are 1 in both.
    And,
    /// Pops x and y, and pushes the word of the bits that are 1 in at least one.
    Or,
    /// Pops x and y, and pushes the word of the bits that are 1 in exactly one.
    Xor,
    /// Pops x and pushes it with every bit turned.
    Not,
    /// Pops x and pushes b bits of it from bit a.
    Fld,
    /// Pops x and y, and pushes y with b bits from bit a replaced by the lowest bits of x.
    Dep,
    /// Pops x and pushes it shifted by b bits, by the kind of shift with the number a.
    Shf,
    /// Goes to instruction a.
    Br,
    /// Pops x, and goes to instruction a where x is even.
    Bre,
    /// Pops x and goes to instruction a + x. Stops with 4 unless 0 <= x < b.
    Case,
    /// Goes to instruction b unless cell a takes another turn with the step y and the limit x, and leaves both.
    For,
    /// Adds the step y to cell a, goes to instruction b, and leaves y and x.
    Next,
}

impl From<Op> for u16 {
    ghost from_gives = { λ op r. r ≡ number_of op };

    fn from(op: Op) -> u16 {
        op as u16
    }
}

/// A number that no instruction has: it is over 33.
#[derive(Clone, Copy, PartialEq, Eq, Debug, Error)]
#[error("there is no instruction {0}")]
pub struct UnknownOp(pub u16);

impl TryFrom<u16> for Op {
    type Error = UnknownOp;

    ghost try_from_gives = { λ number r. MatchResult r
        (λ op. slice_get ops number ≡ Some op)
        (λ e. (e ≡ record { 0 = number }) × (slice_get ops number ≡ None)) };

    #[inline(always)]
    fn try_from(number: u16) -> Result<Op, UnknownOp> {
        match number {
            0 => Ok(Op::Halt),
            1 => Ok(Op::Lit),
            2 => Ok(Op::Load),
            3 => Ok(Op::Stor),
            4 => Ok(Op::Ldx),
            5 => Ok(Op::Stx),
            6 => Ok(Op::Chk),
            7 => Ok(Op::Dup),
            8 => Ok(Op::Drop),
            9 => Ok(Op::Add),
            10 => Ok(Op::Sub),
            11 => Ok(Op::Mul),
            12 => Ok(Op::Div),
            13 => Ok(Op::Rem),
            14 => Ok(Op::Neg),
            15 => Ok(Op::Ladd),
            16 => Ok(Op::Lsub),
            17 => Ok(Op::Lmul),
            18 => Ok(Op::Ldiv),
            19 => Ok(Op::Lrem),
            20 => Ok(Op::Cmp),
            21 => Ok(Op::Lcmp),
            22 => Ok(Op::And),
            23 => Ok(Op::Or),
            24 => Ok(Op::Xor),
            25 => Ok(Op::Not),
            26 => Ok(Op::Fld),
            27 => Ok(Op::Dep),
            28 => Ok(Op::Shf),
            29 => Ok(Op::Br),
            30 => Ok(Op::Bre),
            31 => Ok(Op::Case),
            32 => Ok(Op::For),
            33 => Ok(Op::Next),
            _ => Err(UnknownOp(number)),
        }
    }
}

impl Op {
    /// How many operands the instruction names: none, `a` alone, or `a` and `b`.
    pub fn operands(self) -> u8
        ensures { result ≡ named_by self }
    {
        match self {
            Op::Lit
            | Op::Load
            | Op::Stor
            | Op::Chk
            | Op::Drop
            | Op::Cmp
            | Op::Lcmp
            | Op::Br
            | Op::Bre => 1,
            Op::Ldx | Op::Stx | Op::Fld | Op::Dep | Op::Shf | Op::Case | Op::For | Op::Next => 2,
            _ => 0,
        }
    }

    /// How many words the instruction with the operand `a` looks at on the stack. For DROP they are `a`.
    pub fn takes(self, a: u16) -> u16
        ensures { result ≡ taken_by self a }
    {
        match self {
            Op::Halt | Op::Lit | Op::Load | Op::Br => 0,
            Op::Stor
            | Op::Ldx
            | Op::Chk
            | Op::Dup
            | Op::Neg
            | Op::Not
            | Op::Fld
            | Op::Shf
            | Op::Bre
            | Op::Case => 1,
            Op::Drop => a,
            _ => 2,
        }
    }

    /// How many words the instruction leaves in place of the words that it looks at. They are at most 2.
    pub fn leaves(self) -> u8
        ensures value { result ≡ left_by self }
        ensures few { result ≤ 2 }
    {
        match self {
            Op::Halt | Op::Stor | Op::Stx | Op::Drop | Op::Br | Op::Bre | Op::Case => 0,
            Op::Dup | Op::For | Op::Next => 2,
            _ => 1,
        }
    }

    // The name of the instruction in a listing.
    fn text(self) -> &'static str
        ensures { result.now ≡ op_text self }
    {
        match self {
            Op::Halt => "HALT",
            Op::Lit => "LIT",
            Op::Load => "LOAD",
            Op::Stor => "STOR",
            Op::Ldx => "LDX",
            Op::Stx => "STX",
            Op::Chk => "CHK",
            Op::Dup => "DUP",
            Op::Drop => "DROP",
            Op::Add => "ADD",
            Op::Sub => "SUB",
            Op::Mul => "MUL",
            Op::Div => "DIV",
            Op::Rem => "REM",
            Op::Neg => "NEG",
            Op::Ladd => "LADD",
            Op::Lsub => "LSUB",
            Op::Lmul => "LMUL",
            Op::Ldiv => "LDIV",
            Op::Lrem => "LREM",
            Op::Cmp => "CMP",
            Op::Lcmp => "LCMP",
            Op::And => "AND",
            Op::Or => "OR",
            Op::Xor => "XOR",
            Op::Not => "NOT",
            Op::Fld => "FLD",
            Op::Dep => "DEP",
            Op::Shf => "SHF",
            Op::Br => "BR",
            Op::Bre => "BRE",
            Op::Case => "CASE",
            Op::For => "FOR",
            Op::Next => "NEXT",
        }
    }
}

// Written by hand, since a derive gives no contract.
impl fmt::Display for Op {
    ghost output = { λ op. Some (op_text op) };

    fn fmt<W: fmt::Write>(&self, f: &mut fmt::Formatter<W>) -> fmt::Result {
        f.pad(self.text())
    }
}
