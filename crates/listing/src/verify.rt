// `spl verify`: whether an image is the image of a source, and if not, where they differ.
use anyhow::anyhow;
use base::code::Code;
use base::instr::Instr;
use base::limits::MOST_INSTRUCTIONS;
use base::refusal::Refusal;
use image::fault::ImageFault;
use image::read::decode;
use report::compiled::{Compiled, compile_file};
use report::instruction::shown;
use report::source::load;

// Prints a figure if it differs.
fn figure(rt: &HostRuntime, what: &str, source: usize, image: usize) -> anyhow::Result<()> {
    if source != image {
        println!(rt; "{what}: {source} of the source, {image} of the image")?;
    }
    Ok(())
}

// Prints an instruction, or that there is none.
fn put(rt: &HostRuntime, whose: &str, i: Option<&Instr>) -> anyhow::Result<()> {
    match i {
        Some(i) => {
            let text = shown(rt.alloc(), *i)?;
            println!(rt; "  {whose}  {text}")?;
        }
        None => println!(rt; "  {whose}  none")?,
    }
    Ok(())
}

// The first index at which two codes differ, if they do.
fn parting(source: &[Instr], image: &[Instr]) -> Option<usize> {
    let shorter = source.len().min(image.len());
    source
        .iter()
        .zip(image.iter())
        .position(|(one, other)| one != other)
        .or((source.len() != image.len()).then_some(shorter))
}

fn differences(rt: &HostRuntime, source: Code<'_>, image: Code<'_>) -> anyhow::Result<()> {
    figure(rt, "cells", source.cells as usize, image.cells as usize)?;
    figure(rt, "depth", source.depth as usize, image.depth as usize)?;
    let here = source.instructions;
    let there = image.instructions;
    figure(rt, "instructions", here.len(), there.len())?;
    if let Some(index) = parting(here, there) {
        println!(rt; "they part at instruction {index}:")?;
        put(rt, "source", here.get(index))?;
        put(rt, "image ", there.get(index))?;
    }
    Ok(())
}

fn refused(rt: &HostRuntime, fault: ImageFault) -> anyhow::Result<()> {
    let Refusal { place, number } = fault.into();
    println!(rt; "it is refused with {number} at {place}: {fault}")?;
    Ok(())
}

// Prints how the bytes differ from the image, or why they are no image.
fn tell(rt: &HostRuntime, compiled: &Compiled, bytes: &[u8]) -> anyhow::Result<()> {
    let mut table = vec![in rt.alloc(); Instr::default(); MOST_INSTRUCTIONS]?;
    match decode(bytes, table.as_mut_slice()) {
        Ok(figures) => {
            table.truncate(figures.count as usize);
            let image = Code {
                cells: figures.cells,
                depth: figures.depth,
                instructions: table.as_slice(),
            };
            differences(rt, compiled.code(), image)
        }
        Err(fault) => refused(rt, fault),
    }
}

/// Compiles the source in the file `path`, and prints whether the bytes of the file `target` are its image. If they
/// are not, prints where they differ and fails. If the source is refused, prints why and fails.
pub fn verify(rt: &HostRuntime, path: &str, target: &str) -> anyhow::Result<()> {
    let compiled = compile_file(rt, path)?;
    let image = compiled.image(rt.alloc())?;
    let bytes = load(rt, target)?;
    if bytes.as_slice() == image.as_slice() {
        println!(rt; "{target} is the image of {path}")?;
        return Ok(());
    }
    println!(rt; "{target} is not the image of {path}")?;
    tell(rt, &compiled, bytes.as_slice())?;
    Err(anyhow!("the image is another"))
}
