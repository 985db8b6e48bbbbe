// What each stage looks at in a node of the syntax list.
ghost use Rattle.std.specs.Prelude.{◌≡◌};
ghost use Rattle.std.specs.Option.{option_map};
ghost use Rattle.parser.specs.Nodes.{node_of};
ghost use Rattle.sema.specs.Names.{decl_of, use_of};
ghost use Rattle.sema.specs.Views.{declared_name_of, use_of_mention};
ghost use Rattle.sema.specs.Sizes.{range_fault};
ghost use Rattle.sema.specs.Faults.{refusal_of};

use crate::entry::Sort;
use crate::fault::{CheckFault, unless};
use arith::field::Field;
use lexer::name::Name;
use parser::node::Node;
use parser::value_type::ValueType;

/// A name that a node declares.
#[derive(Clone, Copy)]
pub struct Declaration {
    pub name: Name,
    /// Its type.
    pub value_type: ValueType,
    /// The high bound of an array; none for another name.
    pub high: Option<u16>,
    /// The offset of the name in the source, in bytes.
    pub offset: usize,
}

/// A name that a node uses.
#[derive(Clone, Copy)]
pub struct Mention {
    pub name: Name,
    /// What the name has to stand for.
    pub sort: Sort,
    /// The offset of the name in the source, in bytes.
    pub offset: usize,
}

// What a node declares, if it declares a name.
pub(crate) fn declared_by(node: Node) -> Option<Declaration>
    ensures { option_map declared_name_of result ≡ decl_of (node_of node) }
{
    match node {
        Node::Simple(name, value_type, offset) => Some(Declaration {
            name,
            value_type,
            high: None,
            offset,
        }),
        Node::Array(name, value_type, _, high, offset, _) => Some(Declaration {
            name,
            value_type,
            high: Some(high),
            offset,
        }),
        _ => None,
    }
}

// The name that a node uses, if it uses one.
pub(crate) fn used_by(node: Node) -> Option<Mention>
    ensures { option_map use_of_mention result ≡ use_of (node_of node) }
{
    match node {
        Node::Load(name, offset) | Node::Fetch(name, offset) => Some(Mention {
            name,
            sort: Sort::Simple,
            offset,
        }),
        Node::Store(name, offset, _) | Node::First(name, offset, _) | Node::For(name, offset, _) =>
            Some(Mention {
                name,
                sort: Sort::Simple,
                offset,
            }),
        Node::Index(name, offset, _)
        | Node::Checked(name, offset, _)
        | Node::StoreAt(name, offset, _)
        | Node::FetchAt(name, offset, _) => Some(Mention {
            name,
            sort: Sort::Array,
            offset,
        }),
        _ => None,
    }
}

// The fault 12, if a field, a shift or a low bound is out of range. Of a shift only the count is judged, since its
// kind is an enum.
pub(crate) fn range_fault(node: Node) -> Option<CheckFault>
    ensures { option_map refusal_of result ≡ range_fault (node_of node) }
{
    match node {
        Node::Field(from, count, offset) | Node::Deposit(from, count, offset) => unless(
            Field::new(from, count).is_some(),
            CheckFault::OutOfRange(offset),
        ),
        Node::Shift(_, count, offset) => unless(count <= 15, CheckFault::OutOfRange(offset)),
        Node::Array(_, _, low, _, _, offset) => unless(low == 0, CheckFault::OutOfRange(offset)),
        _ => None,
    }
}
