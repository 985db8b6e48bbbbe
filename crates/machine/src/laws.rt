// The laws of a step.
ghost use Rattle.machine.specs.Laws.{Lawful};

/// The laws are in its contract: a step that ends the run changes only the ending and the count of steps, and a step
/// writes at most one cell and counts the write. docs/MACHINE.md has the others. The function does nothing.
pub fn steps_are_lawful()
    ensures { Lawful }
{}
