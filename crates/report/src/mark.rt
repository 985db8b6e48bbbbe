// How a refused source is printed: the reason, the number and place, the line, and a mark under the column.
use crate::source::Spot;
use anyhow::anyhow;
use base::refusal::Refusal;
use std::alloc::Global;
use std::fmt::Display;

/// Answers the bytes before the first line feed as text. A carriage return is shown as a blank, every other byte
/// that cannot be printed as a question mark.
pub fn shown(heap: Global, bytes: &[u8]) -> anyhow::Result<String> {
    let mut text = String::new(heap);
    for b in bytes.iter().take_while(|b| **b != b'\n') {
        text.push(match b {
            b'\r' => ' ',
            b' '..=b'~' => *b as char,
            _ => '?',
        })?;
    }
    Ok(text)
}

/// Prints why a source is refused: number and place, the line, and a mark under the column. A place at the length
/// of the source is marked behind the last byte. It always fails, so that the command ends with status 1.
pub fn tell<E: Copy + Display + Into<Refusal>>(
    rt: &HostRuntime,
    path: &str,
    source: &[u8],
    fault: E,
) -> anyhow::Result<()> {
    let Refusal { place, number } = fault.into();
    let spot = Spot::TOP.onward(source, place.min(source.len()));
    let line = spot.line;
    let column = spot.column();
    println!(rt; "{path}:{line}:{column}: refused with {number} at {place}: {fault}")?;
    let text = shown(rt.alloc(), spot.rest_of(source))?;
    println!(rt; "{text}")?;
    println!(rt; "{:>column$}", "^")?;
    if place >= source.len() {
        println!(rt; "the source ends there")?;
    }
    Err(anyhow!("the source is refused"))
}
