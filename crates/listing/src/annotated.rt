// The listing of a source. The instructions that come from a line stand below it.
use base::instr::Instr;
use base::op::Op;
use lexer::search::Named;
use report::compiled::Compiled;
use report::instruction::shown;
use report::line_map::line_map;
use report::mark;
use report::names::owner;
use report::source::Lines;
use sema::entry::NameEntry;
use std::alloc::Global;

// The first of the cells that an instruction names, if it names any.
fn cell(i: Instr) -> Option<u16> {
    match Op::try_from(i.number) {
        Ok(Op::Load | Op::Stor | Op::Ldx | Op::Stx | Op::For | Op::Next) => Some(i.a),
        _ => None,
    }
}

#[derive(Drop)]
struct Page<'a> {
    heap: Global,
    lines: Lines<'a>,
    names: &'a [NameEntry],
    // the line that was printed last, and the largest line that was printed
    here: usize,
    far: usize,
    // The number of words stacked before the next instruction. It is the same on every way to that instruction,
    // since a statement leaves the stack as it was and each part of an expression adds one word.
    height: u32,
}

impl Page<'_> {
    fn line(&self, rt: &HostRuntime, number: usize) -> anyhow::Result<()> {
        let text = mark::shown(self.heap, self.lines.from(number))?;
        if text.is_empty() {
            println!(rt; "{number:>5}")?;
        } else {
            println!(rt; "{number:>5}  {text}")?;
        }
        Ok(())
    }

    // Prints the lines up to `number` that were not printed yet.
    fn on_to(&mut self, rt: &HostRuntime, number: usize) -> anyhow::Result<()> {
        for number in self.far.saturating_add(1)..=number {
            self.line(rt, number)?;
        }
        self.far = self.far.max(number);
        Ok(())
    }

    // Prints the lines up to `number`. An earlier line is printed again if the code comes back to it.
    fn turn_to(&mut self, rt: &HostRuntime, number: usize) -> anyhow::Result<()> {
        if number > self.far {
            self.on_to(rt, number)?;
        } else if number != self.here {
            self.line(rt, number)?;
        }
        self.here = number;
        Ok(())
    }

    fn instruction(&mut self, rt: &HostRuntime, index: usize, i: Instr) -> anyhow::Result<()> {
        let text = shown(self.heap, i)?;
        let height = self.height;
        if let Some(entry) = cell(i).and_then(|cell| owner(self.names, cell)) {
            let name = std::str::from_utf8(entry.name())?;
            println!(rt; "{index:>12} {height:>6}  {text}  ({name})")?;
        } else {
            println!(rt; "{index:>12} {height:>6}  {text}")?;
        }
        self.height = u32::try_from(i.height_after(height)).unwrap_or(u32::MAX);
        Ok(())
    }
}

/// Prints the figures of a source's code, and each line with the instructions that come from it.
pub fn listing(rt: &HostRuntime, compiled: &Compiled) -> anyhow::Result<()> {
    let heap = rt.alloc();
    let code = compiled.code();
    let lines = Lines::of(heap, compiled.source())?;
    let line_of = line_map(heap, compiled, &lines)?;
    let count = lines.count();
    let mut page = Page {
        heap,
        lines,
        names: compiled.names(),
        here: 0,
        far: 0,
        height: 0,
    };
    println!(rt;
        "cells {}, depth {}, instructions {}",
        code.cells,
        code.depth,
        code.instructions.len()
    )?;
    println!(rt; " line  source\n       index height  instruction")?;
    for (index, (i, line)) in code.instructions.iter().zip(line_of.iter()).enumerate() {
        page.turn_to(rt, *line)?;
        page.instruction(rt, index, *i)?;
    }
    page.on_to(rt, count)
}
