// Why a source is refused before its code is made, and where.
ghost use Rattle.std.specs.Prelude.{◌≡◌, Some, None, cond};
ghost use Rattle.sema.specs.declared.fault.CheckFault.TheVariants.{Grammar};
ghost use Rattle.sema.specs.Faults.{refusal_of, fault_in, soonest as soonest_of};
ghost use Rattle.std.specs.Option.{option_map};

use base::refusal::Refusal;
use parser::fault::GrammarFault;
use thiserror::Error;

/// Why a source is refused before its code is made. A `usize` is the place of the fault; `Refusal::from` gives it with the
/// number.
#[derive(Clone, Copy, PartialEq, Eq, Debug, Error)]
pub enum CheckFault {
    /// 1 to 6: the refusal of the text or of the grammar.
    #[error(transparent)]
    Grammar(GrammarFault),
    /// 7: the name is not declared.
    #[error("this name is not declared")]
    Undeclared(usize),
    /// 8: the name is declared already.
    #[error("this name is declared twice")]
    DeclaredTwice(usize),
    /// 9: the name is the 65th.
    #[error("this is the 65th name")]
    TooManyNames(usize),
    /// 10: an array without a subscript or as the variable of a FOR, or a simple name with a subscript.
    #[error("a subscript is missing or unwanted")]
    Subscript(usize),
    /// 11: an operand or a variable does not have the type that is wanted.
    #[error("the types do not agree")]
    Mistyped(usize),
    /// 12: a field of no bits, of 16 or past bit 15; a shift by over 15; a low bound that is not 0.
    #[error("a field, a shift or a low bound is out of its range")]
    OutOfRange(usize),
    /// 13: the names up to and with this one take over 4,096 cells.
    #[error("the names take over 4096 cells")]
    TooManyCells(usize),
}

// Written by hand, since a derive gives no contract.
impl From<GrammarFault> for CheckFault {
    ghost from_gives = { λ e r. r ≡ Grammar e };

    fn from(e: GrammarFault) -> CheckFault {
        CheckFault::Grammar(e)
    }
}

impl From<CheckFault> for Refusal {
    ghost from_gives = { λ e r. r ≡ refusal_of e };

    fn from(e: CheckFault) -> Refusal {
        match e {
            CheckFault::Grammar(e) => Refusal::from(e),
            CheckFault::Undeclared(place) => Refusal { number: 7, place },
            CheckFault::DeclaredTwice(place) => Refusal { number: 8, place },
            CheckFault::TooManyNames(place) => Refusal { number: 9, place },
            CheckFault::Subscript(place) => Refusal { number: 10, place },
            CheckFault::Mistyped(place) => Refusal { number: 11, place },
            CheckFault::OutOfRange(place) => Refusal { number: 12, place },
            CheckFault::TooManyCells(place) => Refusal { number: 13, place },
        }
    }
}

// One of the faults of a stage decides: the one at the smallest place, and of several there the one with the lowest
// number.

// The fault, if the test fails.
pub(crate) fn unless(good: bool, fault: CheckFault) -> Option<CheckFault>
    ensures { option_map refusal_of result ≡ cond good None (Some (refusal_of fault)) }
{
    (!good).then_some(fault)
}

// The fault that decides: the one that decided so far, or the new one, if there is one.
pub(crate) fn soonest(best: Option<CheckFault>, more: Option<CheckFault>) -> Option<CheckFault>
    ensures { option_map refusal_of result ≡ soonest_of (option_map refusal_of best) (option_map refusal_of more) }
{
    let Some(g) = more else { return best };
    let Some(f) = best else { return more };
    if Refusal::from(g) < Refusal::from(f) {
        Some(g)
    } else {
        Some(f)
    }
}

// What a stage answers: it passes, or the fault that decided refuses the source.
pub(crate) fn answer(best: Option<CheckFault>) -> Result<(), CheckFault>
    ensures { fault_in result ≡ option_map refusal_of best }
{
    best.map_or(Ok(()), Err)
}
