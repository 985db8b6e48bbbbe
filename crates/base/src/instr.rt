// Instruction records, and how many operands each instruction names.
ghost use Rattle.std.specs.Prelude.{◌≡◌, ◌+◌, ◌≤◌};
ghost use Rattle.base.specs.Ops.{number_of, operands_of};
ghost use Rattle.base.specs.Heights.{height};

use crate::op::Op;

/// The record of an instruction: its number and two operands. A caller may put any words there. In good code the number is
/// at most 33, and an operand that the instruction does not name is 0.
#[derive(Clone, Copy, PartialEq, Eq, Default, Debug)]
pub struct Instr {
    /// The number of the instruction.
    pub number: u16,
    /// The first operand.
    pub a: u16,
    /// The second operand.
    pub b: u16,
}

impl Instr {
    /// The record of the instruction with these operands.
    pub fn new(op: Op, a: u16, b: u16) -> Instr
        ensures { result ≡ record { number = number_of op; a = a; b = b } }
    {
        Instr {
            number: op.into(),
            a,
            b,
        }
    }

    /// How many words are stacked after the instruction, where `h` are stacked before it: at most `h + 2`. A number that no
    /// instruction has leaves `h`.
    #[tactic(auto, using(crate::proofs::Tables::height_some, crate::proofs::Tables::height_none))]
    pub fn height_after(self, h: u32) -> u64
        ensures value { result ≡ height self h }
        ensures bound { result ≤ h + 2 }
    {
        match Op::try_from(self.number) {
            Ok(op) => {
                u64::from(h.saturating_sub(u32::from(op.takes(self.a)))) + u64::from(op.leaves())
            }
            Err(_) => u64::from(h),
        }
    }
}

/// How many operands the instruction of this number names, 0 to 2, or `None` where no instruction has the number.
#[tactic(auto, using(crate::proofs::Tables::operands_at, crate::proofs::Tables::operands_past))]
pub fn operands(number: u16) -> Option<u8>
    ensures { result ≡ operands_of number }
{
    match Op::try_from(number) {
        Ok(op) => Some(op.operands()),
        Err(_) => None,
    }
}
