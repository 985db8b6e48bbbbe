// A compiled source with its code.
use crate::mark::tell;
use crate::source::load;
use anyhow::anyhow;
use base::code::{Code, Figures};
use base::instr::Instr;
use base::limits::{MOST_IMAGE_BYTES, MOST_INSTRUCTIONS};
use compiler::compiler::Compiler;
use image::write::encode;
use parser::node::Node;
use sema::entry::NameEntry;
use std::alloc::Global;

/// A source that was compiled, with its code and the compiler that made it.
#[derive(Drop)]
pub struct Compiled {
    source: Vec<u8>,
    compiler: Compiler,
    figures: Figures,
    table: Vec<Instr>,
}

impl Compiled {
    /// Answers the bytes of the source.
    pub fn source(&self) -> &[u8] {
        self.source.as_slice()
    }

    /// Answers the names of the source, with their cells.
    pub fn names(&self) -> &[NameEntry] {
        self.compiler.names()
    }

    /// Answers the syntax list of the source.
    pub fn nodes(&self) -> &[Node] {
        self.compiler.nodes()
    }

    /// Answers the code of the source.
    pub fn code(&self) -> Code<'_> {
        Code {
            cells: self.figures.cells,
            depth: self.figures.depth,
            instructions: self.table.as_slice(),
        }
    }

    /// Answers the image of the code. Fails where there is too little memory.
    pub fn image(&self, heap: Global) -> anyhow::Result<Vec<u8>> {
        let mut bytes = vec![in heap; 0u8; MOST_IMAGE_BYTES]?;
        let n = encode(self.code(), bytes.as_mut_slice())?;
        bytes.truncate(n);
        Ok(bytes)
    }
}

/// Compiles a source that was read from the file of this path. If it is refused, prints why and fails.
pub fn compile_source(rt: &HostRuntime, path: &str, source: Vec<u8>) -> anyhow::Result<Compiled> {
    let mut compiler = Compiler::new(rt.alloc())?;
    let mut table = vec![in rt.alloc(); Instr::default(); MOST_INSTRUCTIONS]?;
    match compiler.compile(source.as_slice(), table.as_mut_slice()) {
        Ok(figures) => {
            table.truncate(figures.count as usize);
            Ok(Compiled {
                source,
                compiler,
                figures,
                table,
            })
        }
        Err(fault) => {
            tell(rt, path, source.as_slice(), fault)?;
            Err(anyhow!("the source is refused"))
        }
    }
}

/// Compiles the source in a file. If the file cannot be read or the source is refused, prints why and fails.
pub fn compile_file(rt: &HostRuntime, path: &str) -> anyhow::Result<Compiled> {
    let source = load(rt, path)?;
    compile_source(rt, path, source)
}
