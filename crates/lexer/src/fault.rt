// Why a text is refused, and where.
ghost use Rattle.std.specs.Prelude.{◌≡◌};
ghost use Rattle.lexer.specs.Faults.{refusal_of};

use base::limits::MOST_SOURCE_BYTES;
use base::refusal::Refusal;
use thiserror::Error;

/// Why a text is refused. `Refusal::from` gives the number and the place.
#[derive(Clone, Copy, PartialEq, Eq, Debug, Error)]
pub enum TextFault {
    /// 1, at place 32,768: the source has over 32,768 bytes.
    #[error("the source has over 32768 bytes")]
    TooLong,
    /// 2: neither a token nor a blank nor a comment begins at this place.
    #[error("no token begins here")]
    NoToken(usize),
    /// 3: a word of over 15 bytes, a number over the limit of its radix, or a `%` without an octal digit. It begins at this
    /// place.
    #[error("a bad or oversized word or number")]
    BadToken(usize),
    /// 4: the comment that begins at this place has no end.
    #[error("a comment has no end")]
    OpenComment(usize),
}

impl From<TextFault> for Refusal {
    ghost from_gives = { λ e r. r ≡ refusal_of e };

    fn from(e: TextFault) -> Refusal {
        match e {
            TextFault::TooLong => Refusal {
                number: 1,
                place: MOST_SOURCE_BYTES,
            },
            TextFault::NoToken(place) => Refusal { number: 2, place },
            TextFault::BadToken(place) => Refusal { number: 3, place },
            TextFault::OpenComment(place) => Refusal { number: 4, place },
        }
    }
}
