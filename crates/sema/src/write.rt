// How the typed list is written.
ghost use Rattle.std.specs.Prelude.{◌≡◌, ◌+◌, ◌≤◌, [], ◌++◌, length};
ghost use Rattle.base.specs.Limits.{most_nodes, most_items};
ghost use Rattle.parser.specs.Nodes.{node_list as nodes_in};
ghost use Rattle.sema.specs.Tabled.{table_as};
ghost use Rattle.sema.specs.Emitting.{writes};
ghost use Rattle.sema.specs.Emissions.{items_of, Narrow};

use crate::emission::{Emission, emission_of};
use crate::rule::rule_of;
use crate::stages::Stages;
use base::limits::MOST_ITEMS;
use base::reserved::Reserved;
use ir::item::Item;
use parser::node::Node;

// Adds the items that a node became to the typed list.
fn append(out: &mut Reserved<Item, MOST_ITEMS>, emission: Emission)
    requires { length out.old + 2 ≤ most_items }
    ensures items { out.new ≡ out.old ++ items_of emission }
    ensures len { length out.new ≤ length out.old + 2 }
{
    match emission {
        Emission::Nothing => {}
        Emission::One(x) => {
            let _ = out.push(x);
        }
        Emission::Two(x, y) => {
            let _ = out.push(x);
            let _ = out.push(y);
        }
    }
}

impl Stages {
    // Writes the typed list of nodes that passed every stage and whose arms are counted. The cells lie below 4,096
    // only after the stage of sizes; `Narrow` says so.
    pub(crate) fn write(&mut self, nodes: &[Node])
        requires narrow { Narrow (table_as self.old.table) }
        requires room { length nodes.now ≤ most_nodes }
        ensures items { self.new.items ≡ writes (table_as self.old.table) (nodes_in nodes.now) [] self.old.arms.closed }
        ensures table { self.new.table ≡ self.old.table }
    {
        self.operands.clear();
        self.items.clear();
        for n in nodes {
            let emission = emission_of(&self.table, self.operands.operand(1), self.arms.next(), *n);
            append(&mut self.items, emission);
            self.operands.follow(rule_of(&self.table, *n));
            self.arms.spend(*n);
        }
    }
}
