// The stage of types.
ghost use Rattle.std.specs.Prelude.{◌≡◌, ◌≤◌, [], length};
ghost use Rattle.base.specs.Limits.{most_nodes};
ghost use Rattle.parser.specs.Nodes.{node_list as nodes_in};
ghost use Rattle.sema.specs.Faults.{fault_in, least};
ghost use Rattle.sema.specs.Tabled.{table_as};
ghost use Rattle.sema.specs.Types.{type_faults};

use crate::fault::{CheckFault, answer, soonest};
use crate::operands::Operands;
use crate::rule::rule_of;
use crate::table::NameTable;
use parser::node::Node;

// Judges every node. Refuses with 11, by the fault that decides.
pub(crate) fn types(
    nodes: &[Node],
    table: &NameTable,
    operands: &mut Operands,
) -> Result<(), CheckFault>
    requires { length nodes.now ≤ most_nodes }
    ensures { fault_in result ≡ least (type_faults (table_as table.now) (nodes_in nodes.now) []) }
{
    operands.clear();
    let mut best = None;
    for n in nodes {
        let rule = rule_of(table, *n);
        best = soonest(best, operands.clash(rule));
        operands.follow(rule);
    }
    answer(best)
}
