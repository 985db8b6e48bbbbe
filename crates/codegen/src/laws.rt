// What holds of every code that is emitted.
ghost use Rattle.codegen.specs.Trees.{Emission};

/// States that count and depth, worked out from the items, are those of the code that is emitted, and that a tree's
/// items give the code and the depth of the rules of its forms.
pub fn emission_stands()
    ensures { Emission }
{}
