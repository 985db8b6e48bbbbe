// The laws of sources that are run on the machine.
ghost use Rattle.driver.specs.Cells.{OwnCells};
ghost use Rattle.driver.specs.Examples.{Examples};
ghost use Rattle.driver.specs.Promised.{KeepsThePromise};

/// States that a session with what a source is compiled to starts over every stack of at least its depth and every
/// store of at least its cells, and keeps the promise of the source whatever calls are made on it.
pub fn sessions_keep_the_promise()
    ensures { KeepsThePromise }
{}

/// States the examples: some sources, from their text to the end of their run.
pub fn examples_stand()
    ensures { Examples }
{}

/// States that the code of a source names the source's cells only.
pub fn cells_are_its_own()
    ensures { OwnCells }
{}
