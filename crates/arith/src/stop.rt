// What stops a source.
ghost use Rattle.std.specs.Prelude.{◌≡◌};
ghost use Rattle.arith.specs.Stops.{number_of};

use thiserror::Error;

/// Why an operation on words has no answer. The value of each case is the number of its stop.
#[derive(Clone, Copy, PartialEq, Eq, Debug, Error)]
pub enum Stop {
    /// An INTEGER result is outside -32,768 to 32,767.
    #[error("an INTEGER would leave -32768 to 32767")]
    Overflow = 1,
    /// The divisor of a quotient or of a remainder is 0.
    #[error("a divisor is 0")]
    ZeroDivisor = 2,
    /// A subscript, read as an INTEGER, is below 0 or not below the cells of its array.
    #[error("a subscript is outside its array")]
    BadIndex = 3,
    /// The index of a CASE, read as an INTEGER, is below 0 or not below the number of its statements.
    #[error("the index of a CASE is none of its statements")]
    BadCase = 4,
}

impl From<Stop> for u8 {
    ghost from_gives = { λ stop r. r ≡ number_of stop };

    fn from(stop: Stop) -> u8 {
        stop as u8
    }
}
