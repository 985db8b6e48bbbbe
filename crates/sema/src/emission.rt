// What each node of the syntax list becomes in the typed list.
ghost use Rattle.std.specs.Prelude.{◌≡◌};
ghost use Rattle.std.specs.Option.{option_map};
ghost use Rattle.ir.specs.declared.item.Item.TheVariants.{Plain};
ghost use Rattle.base.specs.Ops.{number_of};
ghost use Rattle.lexer.specs.Names.{name_of};
ghost use Rattle.parser.specs.declared.value_type.ValueType.TheVariants.{Integer, Logical};
ghost use Rattle.parser.specs.Nodes.{node_of};
ghost use Rattle.ir.specs.Instrs.{ins};
ghost use Rattle.ir.specs.Lists.{op_instr};
ghost use Rattle.sema.specs.Tables.{row_of};
ghost use Rattle.sema.specs.Tabled.{table_as};
ghost use Rattle.sema.specs.Emitting.{op_of, emits, emits_name, emits_step, emits_mark};
ghost use Rattle.sema.specs.Emissions.{items_of, Narrow};

use crate::table::NameTable;
use arith::relation::Relation;
use base::instr::Instr;
use base::op::Op;
use ir::item::Item;
use lexer::name::Name;
use parser::node::{Node, Operator};
use parser::value_type::ValueType;

/// What a node of the syntax list becomes: at most two items of the typed list.
#[derive(Clone, Copy, PartialEq, Eq, Debug)]
pub enum Emission {
    Nothing,
    One(Item),
    Two(Item, Item),
}

// The first cell of a name and the number of its cells. They lie below 4,096 only after the stage of sizes; `Narrow`
// says so.
fn spot(table: &NameTable, name: Name) -> (u16, u16)
    requires { Narrow (table_as table.now) }
    ensures cell { result.0 ≡ (row_of (table_as table.now) (name_of name)).cell }
    ensures cells { result.1 ≡ (row_of (table_as table.now) (name_of name)).cells }
{
    let e = table.entry(&name);
    (e.cell as u16, e.cells as u16)
}

// The instruction of an operator on INTEGERs, that on LOGICALs, and the first operand of both.
fn operations(operator: Operator) -> (Op, Op, u16)
    ensures integer { ins (number_of result.0) result.2 0 ≡ op_instr (op_of operator Integer) }
    ensures logical { ins (number_of result.1) result.2 0 ≡ op_instr (op_of operator Logical) }
{
    match operator {
        Operator::Times => (Op::Mul, Op::Lmul, 0),
        Operator::Divide => (Op::Div, Op::Ldiv, 0),
        Operator::Mod => (Op::Rem, Op::Lrem, 0),
        Operator::Plus => (Op::Add, Op::Ladd, 0),
        Operator::Minus => (Op::Sub, Op::Lsub, 0),
        Operator::Equal => (Op::Cmp, Op::Lcmp, u16::from(Relation::Equal)),
        Operator::Unequal => (Op::Cmp, Op::Lcmp, u16::from(Relation::Unequal)),
        Operator::Less => (Op::Cmp, Op::Lcmp, u16::from(Relation::Less)),
        Operator::AtMost => (Op::Cmp, Op::Lcmp, u16::from(Relation::AtMost)),
        Operator::Greater => (Op::Cmp, Op::Lcmp, u16::from(Relation::Greater)),
        Operator::AtLeast => (Op::Cmp, Op::Lcmp, u16::from(Relation::AtLeast)),
        Operator::Land => (Op::And, Op::And, 0),
        Operator::Xor => (Op::Xor, Op::Xor, 0),
        Operator::Lor => (Op::Or, Op::Or, 0),
    }
}

// The instruction of an operator, by the type of its left side.
fn operation(operator: Operator, value_type: ValueType) -> Instr
    ensures { result ≡ op_instr (op_of operator value_type) }
{
    let (integer, logical, a) = operations(operator);
    match value_type {
        ValueType::Integer => Instr::new(integer, a, 0),
        ValueType::Logical => Instr::new(logical, a, 0),
    }
}

// One instruction.
fn plain(op: Op, a: u16, b: u16) -> Emission
    ensures { result ≡ Emission.One (Plain (ins (number_of op) a b)) }
{
    Emission::One(Item::Plain(Instr::new(op, a, b)))
}

// What a node that names something becomes; none for another node.
fn naming(table: &NameTable, node: Node) -> Option<Emission>
    requires { Narrow (table_as table.now) }
    ensures { option_map items_of result ≡ emits_name (table_as table.now) (node_of node) }
{
    match node {
        Node::Load(name, _) | Node::Fetch(name, _) => Some(plain(Op::Load, spot(table, name).0, 0)),
        Node::Store(name, _, _) | Node::First(name, _, _) => Some(plain(
            Op::Stor,
            spot(table, name).0,
            0,
        )),
        Node::Index(name, _, _) => {
            let (cell, cells) = spot(table, name);
            Some(plain(Op::Ldx, cell, cells))
        }
        Node::StoreAt(name, _, _) => {
            let (cell, cells) = spot(table, name);
            Some(plain(Op::Stx, cell, cells))
        }
        Node::Checked(name, _, _) => Some(plain(Op::Chk, spot(table, name).1, 0)),
        Node::FetchAt(name, _, _) => {
            let (cell, cells) = spot(table, name);
            Some(Emission::Two(
                Item::Plain(Instr::new(Op::Dup, 0, 0)),
                Item::Plain(Instr::new(Op::Ldx, cell, cells)),
            ))
        }
        Node::For(name, _, _) => Some(Emission::One(Item::For(spot(table, name).0))),
        Node::Next(name) => Some(Emission::One(Item::Next(spot(table, name).0))),
        _ => None,
    }
}

// What a node that computes becomes; none for another node.
fn computing(value_type: ValueType, node: Node) -> Option<Emission>
    ensures { option_map items_of result ≡ emits_step value_type (node_of node) }
{
    match node {
        Node::Number(value, _) => Some(plain(Op::Lit, value, 0)),
        Node::Binary(operator, _) => Some(Emission::One(Item::Plain(operation(
            operator, value_type,
        )))),
        Node::Negate(_) => Some(plain(Op::Neg, 0, 0)),
        Node::Lnot(_) => Some(plain(Op::Not, 0, 0)),
        Node::Field(a, b, _) => Some(plain(Op::Fld, a, b)),
        Node::Deposit(a, b, _) => Some(plain(Op::Dep, a, b)),
        Node::Shift(shift, count, _) => Some(plain(Op::Shf, u16::from(shift), count)),
        Node::One => Some(plain(Op::Lit, 1, 0)),
        Node::Drop => Some(plain(Op::Drop, 2, 0)),
        _ => None,
    }
}

// What a marker for control becomes; any other node becomes nothing.
fn marking(arms: u16, node: Node) -> Emission
    ensures { items_of result ≡ emits_mark arms (node_of node) }
{
    match node {
        Node::Test(_) => Emission::One(Item::Test),
        Node::Or => Emission::One(Item::Or),
        Node::If => Emission::One(Item::If),
        Node::Then => Emission::One(Item::Then),
        Node::Else => Emission::One(Item::Else),
        Node::Fi => Emission::One(Item::Fi),
        Node::While => Emission::One(Item::While),
        Node::Loop => Emission::One(Item::Loop),
        Node::Do => Emission::One(Item::Do),
        Node::Until => Emission::One(Item::Until),
        Node::Done => Emission::One(Item::Done),
        Node::Case(_) => Emission::One(Item::Case(arms)),
        Node::Arm => Emission::One(Item::Arm),
        Node::Out => Emission::One(Item::Out),
        Node::Esac => Emission::One(Item::Esac),
        _ => Emission::Nothing,
    }
}

// What a node becomes: `value_type` is the type of the left operand of two, `arms` the number of arms of the next CASE. The
// three parts are those of the definition.
pub(crate) fn emission_of(
    table: &NameTable,
    value_type: ValueType,
    arms: u16,
    node: Node,
) -> Emission
    requires { Narrow (table_as table.now) }
    ensures { items_of result ≡ emits (table_as table.now) value_type arms (node_of node) }
{
    naming(table, node)
        .or_else(|| computing(value_type, node))
        .unwrap_or_else(|| marking(arms, node))
}
