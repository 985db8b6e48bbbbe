// The memory that sources are checked in.
ghost use Rattle.std.specs.Prelude.{◌≡◌, ◌≤◌, [], length, map, IfOk};
ghost use Rattle.base.specs.Limits.{most_items};
ghost use Rattle.parser.specs.Nodes.{node_list as nodes_in};
ghost use Rattle.sema.specs.Entered.{row_as};
ghost use Rattle.sema.specs.Works.{holds, nodes_of, nothing, ChecksSource};

use crate::entry::NameEntry;
use crate::fault::CheckFault;
use crate::stages::Stages;
use ir::item::Item;
use parser::node::Node;
use std::alloc::{AllocError, Global};

/// The memory that sources are checked in, with the syntax list, the names and the typed list of the last one. It is made
/// once, serves any number of sources, and borrows nothing from them.
#[derive(Drop)]
pub struct Workspace {
    syntax: parser::workspace::Workspace,
    stages: Stages,
}

impl Workspace {
    /// Reserves all memory. This is the only call that asks for any, and it fails where the heap has too little.
    pub fn new(heap: Global) -> Result<Workspace, AllocError>
        ensures { IfOk result (λ w. (holds w ≡ nothing) × (nodes_of w ≡ [])) }
    {
        Ok(Workspace {
            syntax: parser::workspace::Workspace::new(heap)?,
            stages: Stages::new(heap)?,
        })
    }

    /// The typed list of the source that was checked last; empty where it was refused.
    pub fn items(&self) -> &[Item]
        ensures list { result.now ≡ (holds self.now).items }
        ensures few { length result.now ≤ most_items }
    {
        self.stages.items.as_slice()
    }

    /// The names of the source that was checked last, in the order of their declarations; none where it was refused.
    pub fn names(&self) -> &[NameEntry]
        ensures { map row_as result.now ≡ (holds self.now).table.rows }
    {
        self.stages.table.entries()
    }

    /// The syntax list of the source that was checked last; empty where the text or the grammar refused it.
    pub fn nodes(&self) -> &[Node]
        ensures { nodes_in result.now ≡ nodes_of self.now }
    {
        self.syntax.nodes()
    }

    /// Checks a source, and answers how many cells its names take, at most 4,096. Its names and its lists take the place of
    /// those of the last source. Refuses with 1 to 6 where the source is not read, with 7 to 10 by its names, with 11 by its
    /// types and with 12 or 13 by its sizes: with the fault at the smallest place in the first stage that has one. After a
    /// refusal there are no names and the typed list is empty.
    pub fn check(&mut self, source: &[u8]) -> Result<u16, CheckFault>
        ensures { ChecksSource source.now self.new result }
    {
        self.stages.items.clear();
        self.stages.table.clear();
        self.syntax.read(source)?;
        let nodes = self.syntax.nodes();
        if let Err(f) = self.stages.judge(nodes) {
            self.stages.table.clear();
            return Err(f);
        }
        self.stages.arms.count(nodes);
        self.stages.write(nodes);
        Ok(self.stages.table.cells() as u16)
    }
}
