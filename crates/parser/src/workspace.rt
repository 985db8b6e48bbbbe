// The memory that sources are read in.
ghost use Rattle.std.specs.Prelude.{◌≡◌, ◌<◌, length, [], IfOk};
ghost use Rattle.base.specs.Limits.{most_nodes};

use crate::fault::GrammarFault;
use crate::node::{Node, Nodes};
use crate::reader::whole;
use lexer::whole::check;
use std::alloc::{AllocError, Global};

/// The memory that sources are read in, with the syntax list of the last one. It is made once, serves any number of sources,
/// and borrows nothing from them.
#[derive(Drop)]
pub struct Workspace {
    nodes: Nodes,
    // The list never fills its room: the BEGIN of a program has no node.
    ghost few: { length nodes < most_nodes },
}

impl Workspace {
    ghost use Rattle.parser.specs.Nodes.{node_list};
    ghost use Rattle.parser.specs.Works.{list_of, ReadsSource};

    /// Reserves all memory. This is the only call that asks for any, and it fails where the heap has too little.
    #[tactic(auto, unfolding(crate::specs::Nodes::node_list))]
    pub fn new(heap: Global) -> Result<Workspace, AllocError>
        ensures { IfOk result (λ w. list_of w ≡ []) }
    {
        let nodes = Nodes::new(heap)?;
        Ok(Workspace { nodes })
    }

    /// The syntax list of the source that was read last; empty where it was refused.
    pub fn nodes(&self) -> &[Node]
        ensures list { node_list result.now ≡ list_of self.now }
        ensures few { length result.now < most_nodes }
    {
        self.nodes.as_slice()
    }

    /// Reads a source; its list takes the place of the last one. Refuses with 1 to 4 where the text is refused; with 5 at
    /// the first token with which no program begins, or at the length of a source that ends too early; with 6 at the token
    /// that opens level 33. After a refusal the list is empty.
    pub fn read(&mut self, source: &[u8]) -> Result<(), GrammarFault>
        ensures { ReadsSource source.now self.new result }
    {
        self.nodes.clear();
        check(source)?;
        match whole(source, &mut self.nodes) {
            Ok(()) => Ok(()),
            Err(e) => {
                self.nodes.clear();
                Err(e)
            }
        }
    }
}
