// `spl list`: the contents of an image, or a source with the code of its lines.
use crate::annotated::listing;
use anyhow::anyhow;
use base::code::Figures;
use base::instr::Instr;
use base::limits::MOST_INSTRUCTIONS;
use base::op::Op;
use base::refusal::Refusal;
use image::fault::ImageFault;
use image::read::decode;
use image::write::{entry_size, size};
use report::compiled::compile_source;
use report::source::load;

// Prints an instruction with the operands that it names. It goes straight to the output: with a text of its own for each
// instruction a listing takes a fifth longer.
fn line(rt: &HostRuntime, index: usize, offset: usize, i: Instr) -> anyhow::Result<()> {
    let op = Op::try_from(i.number)?;
    match op.operands() {
        2 => println!(rt; "{index:>5} {offset:>7}  {op:<4} {} {}", i.a, i.b)?,
        1 => println!(rt; "{index:>5} {offset:>7}  {op:<4} {}", i.a)?,
        _ => println!(rt; "{index:>5} {offset:>7}  {op}")?,
    }
    Ok(())
}

fn lines(rt: &HostRuntime, figures: Figures, bytes: usize, code: &[Instr]) -> anyhow::Result<()> {
    let Figures {
        cells,
        depth,
        count,
    } = figures;
    println!(rt; "cells {cells}, depth {depth}, instructions {count}, bytes {bytes}")?;
    let mut offset = size(cells) + size(depth) + size(count);
    for (index, i) in code.iter().enumerate() {
        line(rt, index, offset, *i)?;
        offset = offset.saturating_add(entry_size(*i).unwrap_or(0));
    }
    Ok(())
}

fn refused(rt: &HostRuntime, path: &str, fault: ImageFault) -> anyhow::Result<()> {
    let Refusal { place, number } = fault.into();
    println!(rt; "{path}: refused with {number} at {place}: {fault}")?;
    Err(anyhow!("the image is refused"))
}

/// Prints the figures and the instructions of the image in a file, or the lines of a source with the code of each.
/// A file is an image if its name ends in `.image` or if its bytes are an image; every other file is a source. If
/// image or source is refused, prints why and fails.
pub fn list(rt: &HostRuntime, path: &str) -> anyhow::Result<()> {
    let bytes = load(rt, path)?;
    let mut table = vec![in rt.alloc(); Instr::default(); MOST_INSTRUCTIONS]?;
    match decode(bytes.as_slice(), table.as_mut_slice()) {
        Ok(figures) => {
            table.truncate(figures.count as usize);
            lines(rt, figures, bytes.len(), table.as_slice())
        }
        Err(fault) if path.ends_with(".image") => refused(rt, path, fault),
        Err(_) => listing(rt, &compile_source(rt, path, bytes)?),
    }
}
