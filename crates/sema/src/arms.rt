// How the arms of each CASE are counted, from the end of the list to its beginning.
ghost use Rattle.std.specs.Prelude.{◌≡◌, ◌+◌, ◌<◌, ◌≤◌, length, [], IfOk};
ghost use Rattle.base.specs.Limits.{most_nodes};
ghost use Rattle.parser.specs.Nodes.{node_of, node_list as nodes_in};
ghost use Rattle.base.specs.Stacks.{below};
ghost use Rattle.sema.specs.CaseArms.{first, counts_with, arm_counts, counts_after};

use base::limits::MOST_NODES;
use base::reserved::Reserved;
use parser::node::Node;
use std::alloc::{AllocError, Global};
use std::marker::Model;

// Two stacks of numbers of arms. `opened` has the numbers of the CASEs that are still open, with the innermost on
// top. `closed` has those of the CASEs that are counted, with the first one in the list on top.
#[derive(Drop)]
pub(crate) struct Arms {
    opened: Reserved<u16, MOST_NODES>,
    closed: Reserved<u16, MOST_NODES>,
}

impl Model for Arms {
    ghost use Rattle.std.specs.Prelude.{reverse};
    ghost use Rattle.sema.specs.CaseArms.{Counts};

    ghost Value = { Counts };

    ghost view = { λ s. record { opened = reverse s.opened; closed = reverse s.closed } };
}

impl Arms {
    pub(crate) fn new(heap: Global) -> Result<Arms, AllocError>
        ensures { IfOk result (λ s. s ≡ record { opened = []; closed = [] }) }
    {
        Ok(Arms {
            opened: Reserved::new(heap)?,
            closed: Reserved::new(heap)?,
        })
    }

    // Takes away the number of arms that the innermost open CASE has so far, and answers it.
    fn take(&mut self) -> u16
        ensures value { result ≡ first self.old.opened }
        ensures left { self.new ≡ record { opened = below self.old.opened; closed = self.old.closed } }
    {
        self.opened.pop().unwrap_or(0)
    }

    // Looks at one node: `Esac` begins a number, `Arm` adds one to it, `Case` ends it.
    fn tally(&mut self, node: Node)
        requires few { first self.old.opened < 65535 }
        requires opened { length self.old.opened < most_nodes }
        requires closed { length self.old.closed < most_nodes }
        ensures counts { self.new ≡ counts_with (node_of node) self.old }
        ensures opened { length self.new.opened ≤ length self.old.opened + 1 }
        ensures closed { length self.new.closed ≤ length self.old.closed + 1 }
    {
        match node {
            Node::Case(_) => {
                let n = self.take();
                let _ = self.closed.push(n);
            }
            Node::Arm => {
                let n = self.take();
                let _ = self.opened.push(n + 1);
            }
            Node::Esac => {
                let _ = self.opened.push(0);
            }
            _ => {}
        }
    }

    // Counts the arms of every CASE of a list.
    pub(crate) fn count(&mut self, nodes: &[Node])
        requires { length nodes.now < most_nodes }
        ensures { self.new ≡ arm_counts (nodes_in nodes.now) }
    {
        self.opened.clear();
        self.closed.clear();
        for n in nodes.iter().rev() {
            self.tally(*n);
        }
    }

    // How many arms the next CASE has, whose number is not used yet.
    pub(crate) fn next(&self) -> u16
        ensures { result ≡ first self.now.closed }
    {
        self.closed.peek(0).unwrap_or(0)
    }

    // Takes away the number of the next CASE, if this node is that CASE.
    pub(crate) fn spend(&mut self, node: Node)
        ensures { self.new ≡ record { opened = self.old.opened; closed = counts_after (node_of node) self.old.closed } }
    {
        if let Node::Case(_) = node {
            let _ = self.closed.pop();
        }
    }
}
