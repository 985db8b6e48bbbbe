// Why a session is not started or resumed, and why a call has no answer.
ghost use Rattle.std.specs.Prelude.{◌≡◌};
ghost use Rattle.machine.specs.declared.fault.CallFault.TheVariants.{Session, Store};
ghost use Rattle.machine.specs.Faults.{refusal_of, call_refusal};

use base::refusal::Refusal;
use base::store::StoreFault;
use thiserror::Error;

/// Why a session is not started or resumed. The place of each refusal is 0.
#[derive(Clone, Copy, PartialEq, Eq, Debug, Error)]
pub enum SessionFault {
    /// Refusal 30: the code has no instruction, or over 16,383.
    #[error("the code has no instruction, or more than 16383")]
    BadCode,
    /// Refusal 31: the lent stack has fewer words than the depth.
    #[error("the stack has fewer words than the code needs")]
    ShortStack,
    /// Refusal 32: the store has fewer cells than the code uses.
    #[error("the store has fewer cells than the code uses")]
    ShortStore,
    /// Refusal 33: the limit of a resume is 0.
    #[error("the limit is 0 steps")]
    NoSteps,
    /// Refusal 34: the run has ended.
    #[error("the run has ended")]
    Ended,
    /// Refusal 35: all 4,000,000,000 steps were made.
    #[error("all 4000000000 steps were made")]
    UsedUp,
}

impl From<SessionFault> for Refusal {
    ghost from_gives = { λ e r. r ≡ refusal_of e };

    fn from(e: SessionFault) -> Refusal {
        let number = match e {
            SessionFault::BadCode => 30,
            SessionFault::ShortStack => 31,
            SessionFault::ShortStore => 32,
            SessionFault::NoSteps => 33,
            SessionFault::Ended => 34,
            SessionFault::UsedUp => 35,
        };
        Refusal { number, place: 0 }
    }
}

/// Why a call has no answer.
#[derive(Clone, Copy, PartialEq, Eq, Debug, Error)]
pub enum CallFault {
    /// A resume was refused.
    #[error(transparent)]
    Session(SessionFault),
    /// A look was refused.
    #[error(transparent)]
    Store(StoreFault),
}

impl From<CallFault> for Refusal {
    ghost from_gives = { λ e r. r ≡ call_refusal e };

    fn from(e: CallFault) -> Refusal {
        match e {
            CallFault::Session(fault) => Refusal::from(fault),
            CallFault::Store(fault) => Refusal::from(fault),
        }
    }
}

// Written by hand, like the one below, since a derive gives no contract.
impl From<SessionFault> for CallFault {
    ghost from_gives = { λ e r. r ≡ Session e };

    fn from(e: SessionFault) -> CallFault {
        CallFault::Session(e)
    }
}

impl From<StoreFault> for CallFault {
    ghost from_gives = { λ e r. r ≡ Store e };

    fn from(e: StoreFault) -> CallFault {
        CallFault::Store(e)
    }
}
