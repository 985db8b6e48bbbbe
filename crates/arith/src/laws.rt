// The laws of the operations.
ghost use Rattle.arith.specs.Laws.{Arithmetic};

/// The laws are in its contract: INTEGER operations are exact or stop, LOGICAL operations are modulo 65,536, and each
/// bit of a field, of a deposit and of a shift is the bit that it should be. The function does nothing.
pub fn arithmetic_stands()
    ensures { Arithmetic }
{}
