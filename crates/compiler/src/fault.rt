// Why a source has no code, and where.
ghost use Rattle.std.specs.Prelude.{◌≡◌};
ghost use Rattle.compiler.specs.declared.fault.CompileFault.TheVariants.{Check};
ghost use Rattle.compiler.specs.Faults.{refusal_of};

use base::refusal::Refusal;
use sema::fault::CheckFault;
use thiserror::Error;

/// Why a source has no code. `Refusal::from` gives the number and the place.
#[derive(Clone, Copy, PartialEq, Eq, Debug, Error)]
pub enum CompileFault {
    /// An earlier stage refuses the source, with a number from 1 to 13.
    #[error(transparent)]
    Check(CheckFault),
    /// Refused with 14: the code has over 16,383 instructions, or more than the table has entries. The place is the
    /// length of the source in bytes.
    #[error("the code has too many instructions")]
    TooLong(usize),
}

// Written by hand, since a derive gives no contract.
impl From<CheckFault> for CompileFault {
    ghost from_gives = { λ e r. r ≡ Check e };

    fn from(e: CheckFault) -> CompileFault {
        CompileFault::Check(e)
    }
}

impl From<CompileFault> for Refusal {
    ghost from_gives = { λ e r. r ≡ refusal_of e };

    fn from(e: CompileFault) -> Refusal {
        match e {
            CompileFault::Check(e) => Refusal::from(e),
            CompileFault::TooLong(place) => Refusal { number: 14, place },
        }
    }
}
