// The rules of types.
ghost use Rattle.std.specs.Prelude.{◌≡◌};
ghost use Rattle.lexer.specs.Names.{name_of};
ghost use Rattle.parser.specs.Nodes.{node_of};
ghost use Rattle.sema.specs.Tables.{row_of};
ghost use Rattle.sema.specs.Tabled.{table_as};
ghost use Rattle.sema.specs.Types.{operator_type as operator_type_of, takes_type, agree as agree_of, rule_of};

use crate::table::NameTable;
use lexer::name::Name;
use parser::node::{Node, Operator};
use parser::value_type::ValueType;

/// What a node of the syntax list requires of the types of the operands before it, and how it changes them. A
/// `usize` is the place of refusal 11, for a node that breaks the rule.
#[derive(Clone, Copy, PartialEq, Eq, Debug)]
pub enum Rule {
    /// Leaves the operands as they are.
    Idle,
    /// Adds an operand of this type.
    Gives(ValueType),
    /// The last two operands, which have to be of one type that the operator takes, become one.
    Joins(Operator, usize),
    /// The last operand has to be of this type, and stays.
    Keeps(ValueType, usize),
    /// The last operand has to be of this type, and is taken away.
    Takes(ValueType, usize),
    /// The last operand, a subscript, has to be INTEGER, and becomes one of this type.
    Picks(ValueType, usize),
    /// The last operand becomes one of this type, whatever its own is.
    Turns(ValueType),
    /// The last operand, the first value of a FOR whose variable has this type, is taken away. Both have to be INTEGER.
    Starts(ValueType, usize),
}

// The type of an operator: LOGICAL for a relation, and the type of its left side for any other.
pub(crate) fn operator_type(operator: Operator, left: ValueType) -> ValueType
    ensures { result ≡ operator_type_of operator left }
{
    match operator {
        Operator::Equal
        | Operator::Unequal
        | Operator::Less
        | Operator::AtMost
        | Operator::Greater
        | Operator::AtLeast => ValueType::Logical,
        _ => left,
    }
}

// Whether an operator takes operands of this type: LAND, XOR and LOR take LOGICALs only.
fn takes_type(operator: Operator, value_type: ValueType) -> bool
    ensures { result ≡ takes_type operator value_type }
{
    match operator {
        Operator::Land | Operator::Xor | Operator::Lor => value_type == ValueType::Logical,
        _ => true,
    }
}

// Whether an operator takes these two types, which have to be the same.
pub(crate) fn agree(operator: Operator, left: ValueType, right: ValueType) -> bool
    ensures { result ≡ agree_of operator left right }
{
    left == right && takes_type(operator, left)
}

// The type of a name; INTEGER if it is not declared.
fn type_of(table: &NameTable, name: Name) -> ValueType
    ensures { result ≡ (row_of (table_as table.now) (name_of name)).value_type }
{
    table.entry(&name).value_type
}

// The rule of a node.
pub(crate) fn rule_of(table: &NameTable, node: Node) -> Rule
    ensures { result ≡ rule_of (table_as table.now) (node_of node) }
{
    match node {
        Node::Number(_, value_type) => Rule::Gives(value_type),
        Node::Load(name, _) => Rule::Gives(type_of(table, name)),
        Node::Index(name, _, paren) => Rule::Picks(type_of(table, name), paren),
        Node::Binary(operator, offset) => Rule::Joins(operator, offset),
        Node::Negate(offset) => Rule::Keeps(ValueType::Integer, offset),
        Node::Lnot(offset) => Rule::Keeps(ValueType::Logical, offset),
        Node::Convert(value_type) => Rule::Turns(value_type),
        Node::Store(name, _, offset) | Node::StoreAt(name, _, offset) => Rule::Takes(
            type_of(table, name),
            offset,
        ),
        Node::Checked(_, _, offset) | Node::FetchAt(_, _, offset) => Rule::Takes(
            ValueType::Integer,
            offset,
        ),
        Node::Step(offset) | Node::Case(offset) => Rule::Takes(ValueType::Integer, offset),
        Node::For(_, _, offset) => Rule::Takes(ValueType::Integer, offset),
        Node::Test(offset) => Rule::Takes(ValueType::Logical, offset),
        Node::First(name, _, offset) => Rule::Starts(type_of(table, name), offset),
        _ => Rule::Idle,
    }
}
