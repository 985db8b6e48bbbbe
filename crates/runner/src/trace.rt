// `spl trace`: prints one line for each step of a source or an image.
use crate::routine::{Routine, open};
use crate::settings::Settings;
use base::instr::Instr;
use base::op::Op;
use base::store::Store;
use base::store::words::Words;
use machine::registers::Registers;
use machine::resources::Resources;
use machine::session::Session;
use report::fields::put_words;
use report::instruction::shown;
use std::alloc::Global;
use std::fmt::Write;

// The limit of steps if no option gives one.
const LIMIT: u64 = 200;

// The cell that an instruction writes if these words are stacked, the top last. STX has its index under the value.
fn target(i: Instr, stacked: &[u16]) -> Option<u16> {
    match (Op::try_from(i.number), stacked) {
        (Ok(Op::Stor | Op::Next), _) => Some(i.a),
        (Ok(Op::Stx), [.., index, _]) => i.a.checked_add(*index),
        _ => None,
    }
}

// Appends a step that is not made yet: its number, its index, the instruction, and the words stacked, the top last.
fn put_step(
    out: &mut String,
    heap: Global,
    registers: Registers,
    i: Option<Instr>,
    stacked: &[u16],
) -> anyhow::Result<()> {
    write!(
        out,
        "{:>6} {:>6}  ",
        registers.steps.saturating_add(1),
        registers.pc
    )?;
    match i {
        Some(i) => {
            let text = shown(heap, i)?;
            write!(out, "{text:<15}")?;
        }
        None => out.push_str("past the code  ")?,
    }
    out.push_str("  ")?;
    put_words(out, stacked)?;
    Ok(())
}

// Appends the cell that a step wrote, with its new word.
fn put_write(
    out: &mut String,
    heap: Global,
    routine: &Routine,
    cell: u16,
    word: u16,
) -> anyhow::Result<()> {
    let name = routine.name(heap, cell)?;
    write!(out, "  {name} := {}", routine.value(cell, word))?;
    Ok(())
}

// Makes one step and prints it.
fn step<S: Store>(
    rt: &HostRuntime,
    routine: &Routine,
    session: &mut Session,
    resources: &mut Resources<'_, '_, '_, S>,
) -> anyhow::Result<Registers> {
    let heap = rt.alloc();
    let before = session.report();
    let i = resources.code.get(before.pc as usize).copied();
    let stacked = resources.stack.get(..before.height as usize).unwrap_or(&[]);
    let mut text = String::new(heap);
    put_step(&mut text, heap, before, i, stacked)?;
    let target = i.and_then(|i| target(i, stacked));
    let registers = session.resume(resources, 1)?;
    if let (Some(cell), true) = (target, registers.writes > before.writes) {
        let word = session.look(resources.store, cell)?;
        put_write(&mut text, heap, routine, cell, word)?;
    }
    println!(rt; "{text}")?;
    Ok(registers)
}

// Makes at most `limit` steps over a store, and answers the registers after the last.
fn steps<S: Store>(
    rt: &HostRuntime,
    routine: &Routine,
    stack: &mut [u16],
    store: &mut S,
    limit: u64,
) -> anyhow::Result<Registers> {
    let code = routine.code();
    let mut resources = Resources {
        code: code.instructions,
        stack,
        store,
    };
    let mut session = Session::start(code.cells, code.depth, &resources)?;
    for _ in 0..limit {
        if session.report().ending.is_some() {
            break;
        }
        step(rt, routine, &mut session, &mut resources)?;
    }
    Ok(session.report())
}

/// Runs the source or the image in a file, and prints each step and how the run ends. The options give the first
/// words of the store and a limit of steps, 200 without one. Fails where the file cannot be read, its source or
/// image is refused, or an option is wrong.
pub fn trace(rt: &HostRuntime, path: &str, options: &[String]) -> anyhow::Result<()> {
    let heap = rt.alloc();
    let settings = Settings::of(rt, options, LIMIT)?;
    settings.judge(rt, path)?;
    let routine = open(rt, path)?;
    let mut stack = vec![in heap; 0u16; routine.code().depth as usize]?;
    let mut memory = settings.store(heap, routine.code().cells)?;
    let mut store = Words {
        cells: memory.as_mut_slice(),
    };
    println!(rt; "  step  index  instruction      stack before, top last; write")?;
    let registers = steps(
        rt,
        &routine,
        stack.as_mut_slice(),
        &mut store,
        settings.limit,
    )?;
    routine.tell_end(rt, registers)
}
