// The stages after the grammar, and the memory that they share. Each stage reads what the stages before it have left.
ghost use Rattle.std.specs.Prelude.{◌≡◌, ◌≤◌, [], length, IfOk};
ghost use Rattle.base.specs.Limits.{most_nodes};
ghost use Rattle.parser.specs.Nodes.{node_list as nodes_in};
ghost use Rattle.sema.specs.Faults.{fault_in};
ghost use Rattle.sema.specs.Tables.{empty};
ghost use Rattle.sema.specs.Names.{table_from};
ghost use Rattle.sema.specs.Tabled.{table_as};
ghost use Rattle.sema.specs.Works.{verdict};

use crate::arms::Arms;
use crate::fault::CheckFault;
use crate::names::names;
use crate::operands::Operands;
use crate::sizes::sizes;
use crate::table::NameTable;
use crate::types::types;
use base::limits::MOST_ITEMS;
use base::reserved::Reserved;
use ir::item::Item;
use parser::node::Node;
use std::alloc::{AllocError, Global};

#[derive(Drop)]
pub(crate) struct Stages {
    pub(crate) table: NameTable,
    pub(crate) operands: Operands,
    pub(crate) arms: Arms,
    // The typed list.
    pub(crate) items: Reserved<Item, MOST_ITEMS>,
}

impl Stages {
    pub(crate) fn new(heap: Global) -> Result<Stages, AllocError>
        ensures { IfOk result (λ s. (s.items ≡ []) × (table_as s.table ≡ empty)) }
    {
        Ok(Stages {
            table: NameTable::new(),
            operands: Operands::new(heap)?,
            arms: Arms::new(heap)?,
            items: Reserved::new(heap)?,
        })
    }

    // Runs the three stages, each over the whole list before the next. Refuses with 7 to 13.
    pub(crate) fn judge(&mut self, nodes: &[Node]) -> Result<(), CheckFault>
        requires { length nodes.now ≤ most_nodes }
        ensures fault { fault_in result ≡ verdict (nodes_in nodes.now) }
        ensures table { table_as self.new.table ≡ table_from empty (nodes_in nodes.now) }
        ensures arms { self.new.arms ≡ self.old.arms }
        ensures items { self.new.items ≡ self.old.items }
    {
        names(nodes, &mut self.table)?;
        types(nodes, &self.table, &mut self.operands)?;
        sizes(nodes, &self.table)
    }
}
