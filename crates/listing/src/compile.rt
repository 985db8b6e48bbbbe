// `spl compile`: compiles a source into the file of its image.
use anyhow::anyhow;
use base::code::Figures;
use base::instr::Instr;
use base::limits::MOST_INSTRUCTIONS;
use image::read::decode;
use lexer::whole::Tokens;
use report::compiled::{Compiled, compile_file};
use std::fs;
use std::fs::File;
use std::io::Write as _;

// Whether `bytes` are the image, and are read back as the code from which it was made.
fn holds(
    rt: &HostRuntime,
    compiled: &Compiled,
    image: &[u8],
    bytes: &[u8],
) -> anyhow::Result<bool> {
    let mut table = vec![in rt.alloc(); Instr::default(); MOST_INSTRUCTIONS]?;
    let Figures {
        cells,
        depth,
        count,
    } = decode(bytes, table.as_mut_slice())?;
    table.truncate(count as usize);
    let code = compiled.code();
    Ok(
        bytes == image
            && cells == code.cells
            && depth == code.depth
            && table.as_slice() == code.instructions,
    )
}

// Writes the image to a new file and to the disk, reads it back, and gives it the name of the target.
fn fill(
    rt: &HostRuntime,
    compiled: &Compiled,
    image: &[u8],
    mut file: File,
    beside: &str,
    target: &str,
) -> anyhow::Result<()> {
    file.write_all(image)?;
    file.sync_all()?;
    let bytes = fs::read(rt, beside)?;
    if !holds(rt, compiled, image, bytes.as_slice())? {
        return Err(anyhow!("what was written is read back otherwise"));
    }
    fs::rename(rt, beside, target)?;
    Ok(())
}

// Whether both names are names of one file.
fn is_same(rt: &HostRuntime, one: &str, other: &str) -> bool {
    match (fs::canonicalize(rt, one), fs::canonicalize(rt, other)) {
        (Ok(one), Ok(other)) => one == other,
        _ => false,
    }
}

// Whether the folder of a path exists. A path without a folder passes.
fn has_folder(rt: &HostRuntime, target: &str) -> bool {
    match target.rsplit_once('/') {
        Some((folder, _)) if !folder.is_empty() => fs::metadata(rt, folder).is_ok(),
        _ => true,
    }
}

// Why a file is not to be written: it is the source, its folder does not exist, or it is not a plain file.
fn objection(rt: &HostRuntime, path: &str, target: &str) -> Option<&'static str> {
    if is_same(rt, path, target) {
        return Some("it is the source");
    }
    if !has_folder(rt, target) {
        return Some("its folder is not there: make the folder first");
    }
    match fs::metadata(rt, target) {
        Ok(found) if !found.is_file() => Some("it is no plain file"),
        _ => None,
    }
}

// Writes the image to the file `beside`, which then takes the name of the target. Until then the target stays as it
// was. If `beside` exists already, nothing is written.
fn put(
    rt: &HostRuntime,
    compiled: &Compiled,
    image: &[u8],
    beside: &str,
    target: &str,
) -> anyhow::Result<()> {
    let file = File::create_new(rt, beside)?;
    if let Err(e) = fill(rt, compiled, image, file, beside, target) {
        let _ = fs::remove_file(rt, beside);
        return Err(e);
    }
    Ok(())
}

// Writes the image to the target. If it is not written, prints why and fails.
fn store(
    rt: &HostRuntime,
    compiled: &Compiled,
    image: &[u8],
    path: &str,
    target: &str,
) -> anyhow::Result<()> {
    if let Some(why) = objection(rt, path, target) {
        println!(rt; "{target}: cannot be written: {why}")?;
        return Err(anyhow!("the image cannot be written"));
    }
    let beside = format!(in rt.alloc(); "{target}.part")?;
    if let Err(e) = put(rt, compiled, image, beside.as_str(), target) {
        println!(rt; "{target}: cannot be written by way of {beside}: {e}")?;
        return Err(anyhow!("the image cannot be written"));
    }
    Ok(())
}

// Prints the figures of the source and of its image.
fn figures(rt: &HostRuntime, compiled: &Compiled, image: &[u8]) -> anyhow::Result<()> {
    let source = compiled.source();
    let mut tokens = Tokens::new(rt.alloc())?;
    tokens.cut(source)?;
    let code = compiled.code();
    println!(rt; "source bytes {:>6}", source.len())?;
    println!(rt; "tokens       {:>6}", tokens.as_slice().len())?;
    println!(rt; "names        {:>6}", compiled.names().len())?;
    println!(rt; "cells        {:>6}", code.cells)?;
    println!(rt; "depth        {:>6}", code.depth)?;
    println!(rt; "instructions {:>6}", code.instructions.len())?;
    println!(rt; "image bytes  {:>6}", image.len())?;
    Ok(())
}

/// Compiles the source in the file `path`, writes its image to the file `target`, and prints its figures. If the
/// source is refused or the image cannot be written, prints why and fails.
pub fn compile(rt: &HostRuntime, path: &str, target: &str) -> anyhow::Result<()> {
    let compiled = compile_file(rt, path)?;
    let image = compiled.image(rt.alloc())?;
    store(rt, &compiled, image.as_slice(), path, target)?;
    figures(rt, &compiled, image.as_slice())
}
