// Why a source is not read, and where.
ghost use Rattle.std.specs.Prelude.{◌≡◌};
ghost use Rattle.parser.specs.declared.fault.GrammarFault.TheVariants.{Text};
ghost use Rattle.parser.specs.Faults.{refusal_of};

use base::refusal::Refusal;
use lexer::fault::TextFault;
use thiserror::Error;

/// Why a source is not read. `Refusal::from` gives the number and the place.
#[derive(Clone, Copy, PartialEq, Eq, Debug, Error)]
pub enum GrammarFault {
    /// 1 to 4: the refusal of the text.
    #[error(transparent)]
    Text(TextFault),
    /// 5: no program begins with the tokens up to and with the one at this place; or the source ends here before its program
    /// does.
    #[error("no program begins so, up to and with this token")]
    Unexpected(usize),
    /// 6: the token at this place opens level 33.
    #[error("level 33 is opened here")]
    TooDeep(usize),
}

// Written by hand, since a derive gives no contract.
impl From<TextFault> for GrammarFault {
    ghost from_gives = { λ e r. r ≡ Text e };

    fn from(e: TextFault) -> GrammarFault {
        GrammarFault::Text(e)
    }
}

impl From<GrammarFault> for Refusal {
    ghost from_gives = { λ e r. r ≡ refusal_of e };

    fn from(e: GrammarFault) -> Refusal {
        match e {
            GrammarFault::Text(e) => Refusal::from(e),
            GrammarFault::Unexpected(place) => Refusal { number: 5, place },
            GrammarFault::TooDeep(place) => Refusal { number: 6, place },
        }
    }
}
