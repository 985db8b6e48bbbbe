// `spl run`: runs a source or an image to its ending or to a limit of steps.
use crate::routine::{Routine, open};
use crate::settings::Settings;
use base::store::words::Words;
use driver::trial::Trial;
use machine::call::{Answer, Call, Exchange};
use machine::registers::Registers;
use machine::resources::Resources;
use machine::session::Session;
use std::alloc::Global;

// The limit of steps if no option gives one.
const LIMIT: u64 = 10000000;

// What the calls answered: the registers, and the words of the cells.
#[derive(Drop)]
struct Outcome {
    registers: Registers,
    words: Vec<u16>,
}

// A resume, a report, and a look at each cell.
fn exchanges(heap: Global, limit: u64, cells: u16) -> anyhow::Result<Vec<Exchange>> {
    let mut list = Vec::new(heap);
    list.push(Exchange::of(Call::Resume(limit)))?;
    list.push(Exchange::of(Call::Report))?;
    for cell in 0..cells {
        list.push(Exchange::of(Call::Look(cell)))?;
    }
    Ok(list)
}

// Makes the calls: for a source by `Trial::play`, whose contract is the promise, for an image by a session of its
// code.
fn play(
    heap: Global,
    routine: &Routine,
    store: &mut Words<'_>,
    exchanges: &mut [Exchange],
) -> anyhow::Result<()> {
    let code = routine.code();
    let mut stack = vec![in heap; 0u16; code.depth as usize]?;
    if let Some(source) = routine.source() {
        let mut trial = Trial::new(heap)?;
        trial.play(source, stack.as_mut_slice(), store, exchanges)?;
        return Ok(());
    }
    let mut resources = Resources {
        code: code.instructions,
        stack: stack.as_mut_slice(),
        store,
    };
    let mut session = Session::start(code.cells, code.depth, &resources)?;
    session.play(&mut resources, exchanges);
    Ok(())
}

// The registers of the last answer that has some, and the words of the answers in order.
fn gathered(heap: Global, exchanges: &[Exchange]) -> anyhow::Result<Outcome> {
    let mut outcome = Outcome {
        registers: Registers {
            pc: 0,
            height: 0,
            steps: 0,
            writes: 0,
            ending: None,
        },
        words: Vec::new(heap),
    };
    for exchange in exchanges {
        match exchange.answer? {
            Answer::Registers(registers) => outcome.registers = registers,
            Answer::Word(word) => outcome.words.push(word)?,
        }
    }
    Ok(outcome)
}

// Runs the routine over a store of the words `before`, and gathers the answers to the calls.
fn make(heap: Global, routine: &Routine, before: &[u16], limit: u64) -> anyhow::Result<Outcome> {
    let mut memory = Vec::from_slice(heap, before)?;
    let mut store = Words {
        cells: memory.as_mut_slice(),
    };
    let mut exchanges = exchanges(heap, limit, routine.code().cells)?;
    play(heap, routine, &mut store, exchanges.as_mut_slice())?;
    gathered(heap, exchanges.as_slice())
}

// Prints a cell before and after the run, with a mark if its word changed.
fn row(
    rt: &HostRuntime,
    routine: &Routine,
    cell: u16,
    before: u16,
    after: u16,
) -> anyhow::Result<()> {
    let name = routine.name(rt.alloc(), cell)?;
    let old = routine.value(cell, before);
    let new = routine.value(cell, after);
    if old == new {
        println!(rt; "{cell:>5}  {name:<20} {old:>6} {new:>6}")?;
    } else {
        println!(rt; "{cell:>5}  {name:<20} {old:>6} {new:>6}  changed")?;
    }
    Ok(())
}

fn table(rt: &HostRuntime, routine: &Routine, before: &[u16], after: &[u16]) -> anyhow::Result<()> {
    println!(rt; " cell  name                 before  after")?;
    let cells = 0..routine.code().cells;
    for (cell, (old, new)) in cells.zip(before.iter().zip(after.iter())) {
        row(rt, routine, cell, *old, *new)?;
    }
    Ok(())
}

/// Runs the source or the image in a file, and prints how the run ends and its cells before and after. The options
/// give the first words of the store and a limit of steps, 10,000,000 without one. Fails where the file cannot be
/// read, its source or image is refused, or an option is wrong.
pub fn run(rt: &HostRuntime, path: &str, options: &[String]) -> anyhow::Result<()> {
    let heap = rt.alloc();
    let settings = Settings::of(rt, options, LIMIT)?;
    settings.judge(rt, path)?;
    let routine = open(rt, path)?;
    let before = settings.store(heap, routine.code().cells)?;
    let outcome = make(heap, &routine, before.as_slice(), settings.limit)?;
    routine.tell_end(rt, outcome.registers)?;
    table(rt, &routine, before.as_slice(), outcome.words.as_slice())
}
