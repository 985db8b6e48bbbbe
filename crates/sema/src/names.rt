// The stage of names.
ghost use Rattle.std.specs.Prelude.{◌≡◌};
ghost use Rattle.std.specs.Option.{option_map};
ghost use Rattle.parser.specs.Nodes.{node_of, node_list as nodes_in};
ghost use Rattle.sema.specs.Faults.{refusal_of, fault_in, least};
ghost use Rattle.sema.specs.Tables.{empty};
ghost use Rattle.sema.specs.Names.{name_fault, name_faults, table_after, table_from};
ghost use Rattle.sema.specs.Tabled.{table_as};

use crate::fault::{CheckFault, answer, soonest};
use crate::table::NameTable;
use crate::view::{declared_by, used_by};
use parser::node::Node;

// Enters the name that a node declares, or judges the name that it uses, and answers the fault, if there is one.
fn name_fault(table: &mut NameTable, node: Node) -> Option<CheckFault>
    ensures fault { option_map refusal_of result ≡ name_fault (table_as table.old) (node_of node) }
    ensures table { table_as table.new ≡ table_after (table_as table.old) (node_of node) }
{
    if let Some(d) = declared_by(node) {
        return table.declare(d).err();
    }
    table.judge(used_by(node)?).err()
}

// Fills the table, and judges every node. Refuses with 7 to 10, by the fault that decides.
pub(crate) fn names(nodes: &[Node], table: &mut NameTable) -> Result<(), CheckFault>
    ensures fault { fault_in result ≡ least (name_faults empty (nodes_in nodes.now)) }
    ensures table { table_as table.new ≡ table_from empty (nodes_in nodes.now) }
{
    table.clear();
    let mut best = None;
    for n in nodes {
        best = soonest(best, name_fault(table, *n));
    }
    answer(best)
}
