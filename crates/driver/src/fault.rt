// Why no call is made.
ghost use Rattle.std.specs.Prelude.{◌≡◌};
ghost use Rattle.driver.specs.declared.fault.TrialFault.TheVariants.{Compile, Session};
ghost use Rattle.driver.specs.Faults.{refusal_of};

use base::refusal::Refusal;
use compiler::fault::CompileFault;
use machine::fault::SessionFault;
use thiserror::Error;

/// Why no call is made. `Refusal::from` gives the number and the place.
#[derive(Clone, Copy, PartialEq, Eq, Debug, Error)]
pub enum TrialFault {
    /// The source is refused, with a number from 1 to 14.
    #[error(transparent)]
    Compile(CompileFault),
    /// The session does not start: refused with 31 where the stack has fewer words than the depth, else with 32
    /// where the store has fewer cells than the code uses.
    #[error(transparent)]
    Session(SessionFault),
}

impl From<TrialFault> for Refusal {
    ghost from_gives = { λ e r. r ≡ refusal_of e };

    fn from(e: TrialFault) -> Refusal {
        match e {
            TrialFault::Compile(fault) => Refusal::from(fault),
            TrialFault::Session(fault) => Refusal::from(fault),
        }
    }
}

// Written by hand, like the one below, since a derive gives no contract.
impl From<CompileFault> for TrialFault {
    ghost from_gives = { λ e r. r ≡ Compile e };

    fn from(e: CompileFault) -> TrialFault {
        TrialFault::Compile(e)
    }
}

impl From<SessionFault> for TrialFault {
    ghost from_gives = { λ e r. r ≡ Session e };

    fn from(e: SessionFault) -> TrialFault {
        TrialFault::Session(e)
    }
}
