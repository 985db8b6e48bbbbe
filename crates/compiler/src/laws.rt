// The laws of what a source is compiled to.
ghost use Rattle.compiler.specs.Enclosed.{JumpsStayInside};
ghost use Rattle.compiler.specs.Examples.{Examples};
ghost use Rattle.compiler.specs.Heights.{Deep};
ghost use Rattle.compiler.specs.Theorems.{CompilesExactly};

/// States that a source is compiled to the code of its tree exactly where it is the text of a tree that keeps the
/// rules and whose code is not too long. Every other source is refused by the first stage that finds a fault.
pub fn compiles_exactly()
    ensures { CompilesExactly }
{}

/// States that the depth of a source's code is the largest number of words stacked anywhere in it.
pub fn depth_is_the_largest()
    ensures { Deep }
{}

/// States that every index to which the code of a source goes is that of one of its instructions, and that the
/// last of these is HALT.
pub fn code_is_enclosed()
    ensures { JumpsStayInside }
{}

/// States the examples: sources with their code or their refusal, images and numbers, as the definitions compute
/// them.
pub fn examples_stand()
    ensures { Examples }
{}
