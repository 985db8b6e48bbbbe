// How an instruction is printed.
use base::instr::Instr;
use base::op::Op;
use std::alloc::Global;
use std::fmt::Write;

/// Answers the name of an instruction with the operands that it names. Fails where no instruction has the number,
/// and where there is too little memory.
pub fn shown(heap: Global, i: Instr) -> anyhow::Result<String> {
    let op = Op::try_from(i.number)?;
    let mut text = String::new(heap);
    match op.operands() {
        2 => write!(text, "{op:<4} {} {}", i.a, i.b)?,
        1 => write!(text, "{op:<4} {}", i.a)?,
        _ => write!(text, "{op}")?,
    }
    Ok(text)
}
