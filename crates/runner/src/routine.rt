// A routine to be run: a compiled source, or the code of an image.
use anyhow::anyhow;
use arith::integer::value;
use arith::stop::Stop;
use base::code::{Code, Figures};
use base::instr::Instr;
use base::limits::MOST_INSTRUCTIONS;
use base::op::Op;
use base::refusal::Refusal;
use image::fault::ImageFault;
use image::read::decode;
use lexer::search::Named;
use machine::ending::Ending;
use machine::registers::Registers;
use parser::value_type::ValueType;
use report::compiled::{Compiled, compile_source};
use report::line_map::line_map;
use report::mark;
use report::names::{owner, put_text};
use report::source::{Lines, load};
use sema::entry::{NameEntry, Sort};
use std::alloc::Global;
use std::fmt::Write;

/// The code of a source or of an image, with the names and lines of a source.
#[derive(Drop)]
pub struct Routine {
    // the source; without one, the figures and the table are those of an image
    compiled: Option<Compiled>,
    figures: Figures,
    table: Vec<Instr>,
}

// Appends the cell of a name as a source writes it.
fn put_cell(out: &mut String, entry: &NameEntry, cell: u16) -> anyhow::Result<()> {
    put_text(out, entry.name())?;
    if entry.sort == Sort::Array {
        let element = (cell as u32).saturating_sub(entry.cell);
        write!(out, "({element})")?;
    }
    Ok(())
}

// The first cell of the array whose subscript the first instruction checks. LDX names it. CHK does not, but the
// next STX in the code does, since the value between the two assigns nothing.
fn subscripted(code: &[Instr]) -> Option<u16> {
    let first = code.first()?;
    if let Ok(Op::Ldx) = Op::try_from(first.number) {
        return Some(first.a);
    }
    let stx = code
        .iter()
        .find(|i| matches!(Op::try_from(i.number), Ok(Op::Stx)))?;
    Some(stx.a)
}

impl Routine {
    /// Answers the code, with its cells and its depth.
    pub fn code(&self) -> Code<'_> {
        match &self.compiled {
            Some(compiled) => compiled.code(),
            None => Code {
                cells: self.figures.cells,
                depth: self.figures.depth,
                instructions: self.table.as_slice(),
            },
        }
    }

    /// Answers the bytes of the source, or none for an image.
    pub fn source(&self) -> Option<&[u8]> {
        match &self.compiled {
            Some(compiled) => Some(compiled.source()),
            None => None,
        }
    }

    fn names(&self) -> &[NameEntry] {
        match &self.compiled {
            Some(compiled) => compiled.names(),
            None => &[],
        }
    }

    /// Answers a cell as its source names it, or `cell` and its number where no name has it. Fails only where there
    /// is too little memory.
    pub fn name(&self, heap: Global, cell: u16) -> anyhow::Result<String> {
        let mut text = String::new(heap);
        match owner(self.names(), cell) {
            Some(entry) => put_cell(&mut text, entry, cell)?,
            None => write!(text, "cell {cell}")?,
        }
        Ok(text)
    }

    /// Answers the value of a word in a cell: with a sign where the name is an INTEGER, else from 0 to 65,535.
    pub fn value(&self, cell: u16, word: u16) -> i32 {
        match owner(self.names(), cell) {
            Some(entry) if entry.value_type == ValueType::Integer => value(word),
            _ => word as i32,
        }
    }

    // Prints the line of the instruction at which the run stands, and for a bad subscript the array.
    fn tell_line(
        &self,
        rt: &HostRuntime,
        compiled: &Compiled,
        registers: Registers,
    ) -> anyhow::Result<()> {
        let heap = rt.alloc();
        let pc = registers.pc as usize;
        let lines = Lines::of(heap, compiled.source())?;
        let line_of = line_map(heap, compiled, &lines)?;
        let Some(line) = line_of.as_slice().get(pc) else {
            return Ok(());
        };
        let text = mark::shown(heap, lines.from(*line))?;
        println!(rt; "{line:>5}  {text}")?;
        if registers.ending != Some(Ending::Stopped(Stop::BadIndex)) {
            return Ok(());
        }
        let rest = compiled.code().instructions.get(pc..).unwrap_or(&[]);
        if let Some(entry) = subscripted(rest).and_then(|cell| owner(compiled.names(), cell)) {
            let name = std::str::from_utf8(entry.name())?;
            println!(rt; "the array is {name}(0:{})", entry.cells.saturating_sub(1))?;
        }
        Ok(())
    }

    /// Prints the registers after a run: the ending, or that the limit of steps came first, the line of the source,
    /// and the numbers of steps, writes and stacked words.
    pub fn tell_end(&self, rt: &HostRuntime, registers: Registers) -> anyhow::Result<()> {
        let pc = registers.pc;
        match registers.ending {
            Some(ending) => {
                println!(rt; "ending {} at instruction {pc}: {ending}", u8::from(ending))?;
            }
            None => println!(rt;
                "no ending: the limit of steps came first, before instruction {pc}"
            )?,
        }
        if let Some(compiled) = &self.compiled {
            self.tell_line(rt, compiled, registers)?;
        }
        println!(rt;
            "steps {}, writes {}, words stacked {}",
            registers.steps, registers.writes, registers.height
        )?;
        Ok(())
    }
}

fn refused(rt: &HostRuntime, path: &str, fault: ImageFault) -> anyhow::Result<Routine> {
    let Refusal { place, number } = fault.into();
    println!(rt; "{path}: refused with {number} at {place}: {fault}")?;
    Err(anyhow!("the image is refused"))
}

/// Answers the routine in a file. A file is an image if its name ends in `.image` or if its bytes are an image;
/// every other file is a source. If the file cannot be read, or image or source is refused, prints why and fails.
pub fn open(rt: &HostRuntime, path: &str) -> anyhow::Result<Routine> {
    let bytes = load(rt, path)?;
    let mut table = vec![in rt.alloc(); Instr::default(); MOST_INSTRUCTIONS]?;
    match decode(bytes.as_slice(), table.as_mut_slice()) {
        Ok(figures) => {
            table.truncate(figures.count as usize);
            Ok(Routine {
                compiled: None,
                figures,
                table,
            })
        }
        Err(fault) if path.ends_with(".image") => refused(rt, path, fault),
        Err(_) => {
            let figures = Figures {
                cells: 0,
                depth: 0,
                count: 0,
            };
            Ok(Routine {
                compiled: Some(compile_source(rt, path, bytes)?),
                figures,
                table,
            })
        }
    }
}
