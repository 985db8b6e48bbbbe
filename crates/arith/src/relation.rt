// The relations, and whether they hold of two words: TRUE or FALSE.
ghost use Rattle.std.specs.Prelude.{◌≡◌, MatchResult, Some, None};
ghost use Rattle.arith.specs.Relations.{relation_number, relation_at, holds as holds_of, comparison, lcomparison};

use super::integer::value;
use super::logical::truth;
use thiserror::Error;

/// The relations of two words, in the order of their numbers, from 0.
#[derive(Clone, Copy, PartialEq, Eq, Debug)]
pub enum Relation {
    Equal,
    Unequal,
    Less,
    AtMost,
    Greater,
    AtLeast,
}

impl From<Relation> for u16 {
    ghost from_gives = { λ by r. r ≡ relation_number by };

    fn from(by: Relation) -> u16 {
        by as u16
    }
}

/// A number that no relation has: it is over 5.
#[derive(Clone, Copy, PartialEq, Eq, Debug, Error)]
#[error("there is no relation {0}")]
pub struct UnknownRelation(pub u16);

impl TryFrom<u16> for Relation {
    type Error = UnknownRelation;

    ghost try_from_gives = { λ number r. MatchResult r
        (λ by. relation_at number ≡ Some by)
        (λ e. (e ≡ record { 0 = number }) × (relation_at number ≡ None)) };

    #[inline(always)]
    fn try_from(number: u16) -> Result<Relation, UnknownRelation> {
        match number {
            0 => Ok(Relation::Equal),
            1 => Ok(Relation::Unequal),
            2 => Ok(Relation::Less),
            3 => Ok(Relation::AtMost),
            4 => Ok(Relation::Greater),
            5 => Ok(Relation::AtLeast),
            _ => Err(UnknownRelation(number)),
        }
    }
}

impl Relation {
    // Whether the relation holds, from whether the left word is less and whether both are the same.
    #[inline(always)]
    fn holds(self, less: bool, same: bool) -> bool
        ensures { result ≡ holds_of self less same }
    {
        match self {
            Relation::Equal => same,
            Relation::Unequal => !same,
            Relation::Less => less,
            Relation::AtMost => less || same,
            Relation::Greater => !(less || same),
            Relation::AtLeast => !less,
        }
    }
}

/// TRUE (65,535) where the relation holds of `y` on the left and `x` on the right, both read as INTEGERs, and else FALSE
/// (0).
#[tactic(auto, unfolding(crate::specs::Relations::comparison))]
#[inline(always)]
pub fn compare(by: Relation, y: u16, x: u16) -> u16
    ensures { result ≡ comparison by y x }
{
    truth(by.holds(value(y) < value(x), y == x))
}

/// TRUE (65,535) where the relation holds of `y` on the left and `x` on the right, both read as LOGICALs, and else FALSE
/// (0).
#[tactic(auto, unfolding(crate::specs::Relations::lcomparison))]
#[inline(always)]
pub fn compare_logical(by: Relation, y: u16, x: u16) -> u16
    ensures { result ≡ lcomparison by y x }
{
    truth(by.holds(y < x, y == x))
}
