// How a run ends.
ghost use Rattle.std.specs.Prelude.{◌≡◌};
ghost use Rattle.machine.specs.declared.ending.Ending.TheVariants.{Stopped};
ghost use Rattle.machine.specs.Endings.{number_of, ending_of_number};

use arith::relation::UnknownRelation;
use arith::stop::Stop;
use base::op::UnknownOp;
use base::store::StoreFault;
use thiserror::Error;

/// How a run ends. No ending has the number 5.
#[derive(Clone, Copy, PartialEq, Eq, Debug, Error)]
pub enum Ending {
    /// Ending 0: the code has halted.
    #[error("the code has halted")]
    Halted,
    /// Endings 1 to 4: an operation on words has no answer. The number is that of the stop.
    #[error(transparent)]
    Stopped(Stop),
    /// Ending 6: the stack has fewer words than the instruction wants.
    #[error("the stack has too few words")]
    Missing,
    /// Ending 7: a push would pass the depth of the stack.
    #[error("the stack would grow above its depth")]
    TooHigh,
    /// Ending 8: no instruction has the number, or an operand is outside its rules.
    #[error("there is no such instruction, or an operand is outside its rules")]
    BadOperand,
    /// Ending 9: the program counter is past the code, or a cell is past the store.
    #[error("there is no instruction at the place, or no such cell in the store")]
    Outside,
}

impl From<Ending> for u8 {
    ghost from_gives = { λ e r. r ≡ number_of e };

    fn from(e: Ending) -> u8 {
        match e {
            Ending::Halted => 0,
            Ending::Stopped(stop) => u8::from(stop),
            Ending::Missing => 6,
            Ending::TooHigh => 7,
            Ending::BadOperand => 8,
            Ending::Outside => 9,
        }
    }
}

// Written by hand, like those below, since a derive gives no contract.
impl From<Stop> for Ending {
    ghost from_gives = { λ e r. r ≡ Stopped e };

    fn from(e: Stop) -> Ending {
        Ending::Stopped(e)
    }
}

impl From<UnknownOp> for Ending {
    ghost from_gives = { λ _ r. r ≡ ending_of_number 8 };

    fn from(_e: UnknownOp) -> Ending {
        Ending::BadOperand
    }
}

impl From<UnknownRelation> for Ending {
    ghost from_gives = { λ _ r. r ≡ ending_of_number 8 };

    fn from(_e: UnknownRelation) -> Ending {
        Ending::BadOperand
    }
}

impl From<StoreFault> for Ending {
    ghost from_gives = { λ _ r. r ≡ ending_of_number 9 };

    fn from(_e: StoreFault) -> Ending {
        Ending::Outside
    }
}
