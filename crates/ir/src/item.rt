// The items of the typed list.
use base::instr::Instr;

/// One item of the typed list: an instruction, or a marker for control.
#[derive(Clone, Copy, PartialEq, Eq, Debug)]
pub enum Item {
    /// An instruction that goes into the code as it stands.
    Plain(Instr),
    /// After each expression of a condition.
    Test,
    /// Between two clauses of a condition.
    Or,
    /// Before the condition of an IF, which is If condition Then body [Else body] Fi.
    If,
    /// Before the body of an IF or a WHILE.
    Then,
    /// Between the two bodies of an IF.
    Else,
    /// After the last body of an IF.
    Fi,
    /// Before the condition of a WHILE, which is While condition Then body Loop.
    While,
    /// After the body of a WHILE.
    Loop,
    /// Before the body of a DO, which is Do body Until condition Done.
    Do,
    /// Before the condition of a DO.
    Until,
    /// After the condition of a DO.
    Done,
    /// Before the body of a FOR, which is first value, STOR, step, limit, For, body, Next, DROP 2: the cell of its variable.
    For(u16),
    /// After the body of a FOR: the cell of its variable.
    Next(u16),
    /// After the index of a CASE, which is index Case {Arm body Out} Esac: how many arms it has.
    Case(u16),
    /// Before the body of an arm.
    Arm,
    /// After the body of an arm.
    Out,
    /// After the last arm of a CASE.
    Esac,
}
