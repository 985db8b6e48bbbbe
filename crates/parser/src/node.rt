// The syntax list: a source in written order, with operands before their operator, and with markers between the parts
// of control statements.
use crate::value_type::ValueType;
use arith::shift::Kind as ShiftKind;
use base::limits::MOST_NODES;
use base::reserved::Reserved;
use lexer::name::Name;

// The list as it is written.
pub(crate) type Nodes = Reserved<Node, MOST_NODES>;

/// A binary operator of an expression.
#[derive(Clone, Copy, PartialEq, Eq, Debug)]
pub enum Operator {
    Times,
    Divide,
    Mod,
    Plus,
    Minus,
    Equal,
    Unequal,
    Less,
    AtMost,
    Greater,
    AtLeast,
    Land,
    Xor,
    Lor,
}

/// One node of the syntax list. A `usize` is an offset in the source, in bytes, which a later refusal may name.
#[derive(Clone, Copy)]
pub enum Node {
    /// A declared name that is no array: name, type, offset.
    Simple(Name, ValueType, usize),
    /// A declared array: name, type, low bound, high bound, offset of the name, offset of the low bound.
    Array(Name, ValueType, u16, u16, usize, usize),
    /// A number, TRUE or FALSE: its word, its type.
    Number(u16, ValueType),
    /// A name in an expression that has no subscript: name, its offset.
    Load(Name, usize),
    /// A name in an expression, after its subscript: name, its offset, offset of the parenthesis.
    Index(Name, usize, usize),
    /// After both operands: the operator, its offset.
    Binary(Operator, usize),
    /// After the operand of a leading `-`: offset of the `-`.
    Negate(usize),
    /// After the operand of LNOT: offset of LNOT.
    Lnot(usize),
    /// After the operand of a conversion: the type that it has then.
    Convert(ValueType),
    /// After the operand of which a field is taken: first and second number, offset of the first.
    Field(u16, u16, usize),
    /// After the operand that is shifted: kind, count, offset of the count.
    Shift(ShiftKind, u16, usize),
    /// After the value that a name without a subscript is assigned: name, its offset, offset of `:=`.
    Store(Name, usize, usize),
    /// After the subscript left of `:=`, where no field is assigned: name, its offset, offset of the parenthesis.
    Checked(Name, usize, usize),
    /// After the value that a name with a subscript is assigned: name, its offset, offset of `:=`.
    StoreAt(Name, usize, usize),
    /// The word of which a field is assigned: name, its offset.
    Fetch(Name, usize),
    /// The word of which a field is assigned, after its subscript: name, its offset, offset of the parenthesis.
    FetchAt(Name, usize, usize),
    /// After the value that a field is assigned: first and second number, offset of the first.
    Deposit(u16, u16, usize),
    /// After each expression of a condition: offset of its first token.
    Test(usize),
    /// Between two clauses of a condition.
    Or,
    /// Before the condition of an IF.
    If,
    /// Before the statement of an IF or a WHILE.
    Then,
    /// Between the two statements of an IF.
    Else,
    /// At the end of an IF.
    Fi,
    /// Before the condition of a WHILE.
    While,
    /// At the end of a WHILE.
    Loop,
    /// Before the statement of a DO.
    Do,
    /// Before the condition of a DO.
    Until,
    /// At the end of a DO.
    Done,
    /// After the first value of a FOR: name of its variable, offset of the name, offset of FOR.
    First(Name, usize, usize),
    /// After the step of a FOR: offset of FOR.
    Step(usize),
    /// The step 1 of a FOR that has no STEP.
    One,
    /// After the limit of a FOR: name of its variable, offset of the name, offset of FOR.
    For(Name, usize, usize),
    /// After the statement of a FOR: name of its variable.
    Next(Name),
    /// At the end of a FOR, whose step and limit are then dropped.
    Drop,
    /// After the index of a CASE: offset of CASE.
    Case(usize),
    /// Before each statement of a CASE.
    Arm,
    /// After each statement of a CASE.
    Out,
    /// At the end of a CASE.
    Esac,
}
