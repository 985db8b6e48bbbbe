// The shifts of a word.
ghost use Rattle.std.specs.Prelude.{◌≡◌, ◌<◌, ◌≤◌, true, false, MatchOption, MatchResult};
ghost use Rattle.arith.specs.Shifts.{kind_number, kind_of, is_shift, shift_of};

use thiserror::Error;

/// The kinds of shifts, in the order of their numbers, from 0.
#[derive(Clone, Copy, PartialEq, Eq, Debug)]
pub enum Kind {
    /// To the left, filled with 0.
    Lsl,
    /// To the right, filled with 0.
    Lsr,
    /// To the right, filled with the highest bit of the word.
    Asr,
    /// To the left; the bits that leave the word come in at its right end.
    Csl,
    /// To the right; the bits that leave the word come in at its left end.
    Csr,
}

impl From<Kind> for u16 {
    ghost from_gives = { λ kind r. r ≡ kind_number kind };

    fn from(kind: Kind) -> u16 {
        kind as u16
    }
}

/// A number that no kind of shift has: it is over 4.
#[derive(Clone, Copy, PartialEq, Eq, Debug, Error)]
#[error("there is no shift {0}")]
pub struct UnknownShift(pub u16);

impl TryFrom<u16> for Kind {
    type Error = UnknownShift;

    ghost try_from_gives = { λ number r. MatchResult r
        (λ kind. (number ≤ 4) × (kind ≡ kind_of number))
        (λ e. (e ≡ record { 0 = number }) × (4 < number)) };

    #[inline(always)]
    fn try_from(number: u16) -> Result<Kind, UnknownShift> {
        match number {
            0 => Ok(Kind::Lsl),
            1 => Ok(Kind::Lsr),
            2 => Ok(Kind::Asr),
            3 => Ok(Kind::Csl),
            4 => Ok(Kind::Csr),
            _ => Err(UnknownShift(number)),
        }
    }
}

/// A shift of one kind by at most 15 bits.
#[derive(Clone, Copy, PartialEq, Eq, Debug)]
pub struct Shift {
    kind: Kind,
    count: u16,
    ghost ok: { count ≤ 15 },
}

impl Shift {
    /// The shift by `count` bits of the kind that has the number, or `None` where the number is over 4 or the count over 15.
    #[inline(always)]
    pub fn new(number: u16, count: u16) -> Option<Shift>
        ensures { MatchOption result (is_shift number count ≡ false)
            (λ s. (is_shift number count ≡ true) × (s.kind ≡ kind_of number) × (s.count ≡ count)) }
    {
        if count > 15 {
            return None;
        }
        match Kind::try_from(number) {
            Ok(kind) => Some(Shift { kind, count }),
            Err(_) => None,
        }
    }

    /// The word `x` after the shift.
    #[inline(always)]
    pub fn apply(self, x: u16) -> u16
        ensures { result ≡ shift_of self.kind self.count x }
    {
        let b = self.count;
        match self.kind {
            Kind::Lsl => x << b,
            Kind::Lsr => x >> b,
            Kind::Asr => {
                if x < 32768 {
                    x >> b
                } else {
                    65535 - ((65535 - x) >> b)
                }
            }
            // The two parts are added, as in the definition.
            Kind::Csl => (x << b) + ((x as u32) >> (16 - b)) as u16,
            Kind::Csr => (x >> b) + (((x as u32) << (16 - b)) % 65536) as u16,
        }
    }
}
