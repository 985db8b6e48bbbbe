// The memory that sources are compiled in. It is made once and used for any number of sources, from which it
// borrows nothing.
ghost use Rattle.std.specs.Prelude.{◌≡◌, [], map, IfOk};
ghost use Rattle.parser.specs.Nodes.{node_list as nodes_in};
ghost use Rattle.sema.specs.Entered.{row_as};
ghost use Rattle.sema.specs.Works.{holds, nodes_of, nothing};
ghost use Rattle.compiler.specs.Compile.{Compiles};
ghost use Rattle.codegen.specs.Passes.{IsBlank};

use crate::fault::CompileFault;
use base::code::Figures;
use base::instr::Instr;
use codegen::emitter::Emitter;
use parser::node::Node;
use sema::entry::NameEntry;
use sema::workspace::Workspace;
use std::alloc::{AllocError, Global};

/// Compiles sources, one after another, in memory that is reserved once.
#[derive(Drop)]
pub struct Compiler {
    workspace: Workspace,
    emitter: Emitter,
}

impl Compiler {
    /// Answers a compiler with all the memory that it needs. No other call asks for memory, and this one fails only
    /// where there is too little.
    pub fn new(heap: Global) -> Result<Compiler, AllocError>
        ensures { IfOk result (λ c. (holds c.workspace ≡ nothing) × (nodes_of c.workspace ≡ []) × IsBlank c.emitter) }
    {
        Ok(Compiler {
            workspace: Workspace::new(heap)?,
            emitter: Emitter::new(heap)?,
        })
    }

    /// Compiles a source to the front of the table, and answers its figures: how many cells it uses, its depth in
    /// words, and how many instructions there are. Refuses with 1 to 13 where an earlier stage finds a fault, and
    /// with 14, at the length of the source, where the code has over 16,383 instructions or more than the table has
    /// entries. A refusal leaves the table as it was.
    pub fn compile(&mut self, source: &[u8], table: &mut [Instr]) -> Result<Figures, CompileFault>
        ensures { Compiles source.now self.new.workspace table.old table.new result }
    {
        let cells = self.workspace.check(source)?;
        match self.emitter.emit(self.workspace.items(), table) {
            Ok(f) => Ok(Figures {
                cells,
                depth: f.depth,
                count: f.count,
            }),
            Err(_) => Err(CompileFault::TooLong(source.len())),
        }
    }

    /// Answers the names of the source that was compiled last, with their cells. There are none if a stage before
    /// the code refused it.
    pub fn names(&self) -> &[NameEntry]
        ensures { map row_as result.now ≡ (holds self.now.workspace).table.rows }
    {
        self.workspace.names()
    }

    /// Answers the syntax list of the source that was compiled last. It is empty if the text or the grammar refused
    /// it.
    pub fn nodes(&self) -> &[Node]
        ensures { nodes_in result.now ≡ nodes_of self.now.workspace }
    {
        self.workspace.nodes()
    }
}
