// The laws of the meaning of a source.
ghost use Rattle.semantics.specs.Bounds.{BoundsHold};
ghost use Rattle.semantics.specs.Cells.{WritesStayInside};
ghost use Rattle.semantics.specs.Examples.{Examples};

/// States that a larger bound on the turns of loops adds writes after those of a smaller one, and changes nothing
/// once the source has ended.
pub fn bounds_stand()
    ensures { BoundsHold }
{}

/// States that a source writes its own cells only, and that all other cells keep their words.
pub fn writes_are_confined()
    ensures { WritesStayInside }
{}

/// States what some sources mean. Every form of statement occurs in them.
pub fn examples_stand()
    ensures { Examples }
{}
