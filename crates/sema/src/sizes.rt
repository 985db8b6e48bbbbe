// The stage of sizes.
ghost use Rattle.std.specs.Prelude.{◌≡◌};
ghost use Rattle.std.specs.Option.{option_map};
ghost use Rattle.parser.specs.Nodes.{node_of, node_list as nodes_in};
ghost use Rattle.sema.specs.Faults.{refusal_of, fault_in, least};
ghost use Rattle.sema.specs.Names.{decl_of};
ghost use Rattle.sema.specs.Sizes.{cells_fault, size_faults};
ghost use Rattle.sema.specs.Tabled.{table_as};

use crate::fault::{CheckFault, answer, soonest};
use crate::table::NameTable;
use crate::view::{declared_by, range_fault};
use parser::node::Node;

// The fault 13, if the cells of the names up to and with the one that a node declares are over 4,096.
fn cells_fault(table: &NameTable, node: Node) -> Option<CheckFault>
    ensures { option_map refusal_of result ≡ cells_fault (table_as table.now) (decl_of (node_of node)) }
{
    table.cells_fault(declared_by(node)?)
}

// Judges every node. Refuses with 12 or 13, by the fault that decides.
pub(crate) fn sizes(nodes: &[Node], table: &NameTable) -> Result<(), CheckFault>
    ensures { fault_in result ≡ least (size_faults (table_as table.now) (nodes_in nodes.now)) }
{
    let mut best = None;
    for n in nodes {
        let first = soonest(best, cells_fault(table, *n));
        best = soonest(first, range_fault(*n));
    }
    answer(best)
}
