// Words as LOGICALs, modulo 65,536.
ghost use Rattle.std.specs.Prelude.{◌≡◌};
ghost use Rattle.arith.specs.Logicals.{lsum, ldifference, lproduct, lquotient, lremainder};
ghost use Rattle.arith.specs.Logicals.{odd as odd_of, truth as truth_of};

use super::stop::Stop;

/// The sum `y + x`, modulo 65,536.
#[tactic(auto, unfolding(crate::specs::Logicals::lsum))]
#[inline(always)]
pub fn add(y: u16, x: u16) -> u16
    ensures { result ≡ lsum y x }
{
    y.wrapping_add(x)
}

/// The difference `y - x`, modulo 65,536.
#[tactic(auto, unfolding(crate::specs::Logicals::ldifference))]
#[inline(always)]
pub fn sub(y: u16, x: u16) -> u16
    ensures { result ≡ ldifference y x }
{
    y.wrapping_sub(x)
}

/// The product `y * x`, modulo 65,536.
#[tactic(auto, unfolding(crate::specs::Logicals::lproduct))]
#[inline(always)]
pub fn mul(y: u16, x: u16) -> u16
    ensures { result ≡ lproduct y x }
{
    y.wrapping_mul(x)
}

/// The whole part of `y / x`. Stops with 2 where `x` is 0.
#[tactic(auto, unfolding(crate::specs::Logicals::lquotient))]
#[inline(always)]
pub fn div(y: u16, x: u16) -> Result<u16, Stop>
    ensures { result ≡ lquotient y x }
{
    y.checked_div(x).ok_or(Stop::ZeroDivisor)
}

/// The remainder of `y / x`. Stops with 2 where `x` is 0.
#[tactic(auto, unfolding(crate::specs::Logicals::lremainder))]
#[inline(always)]
pub fn rem(y: u16, x: u16) -> Result<u16, Stop>
    ensures { result ≡ lremainder y x }
{
    y.checked_rem(x).ok_or(Stop::ZeroDivisor)
}

/// The word for a truth value: TRUE is 65,535 and FALSE is 0.
#[inline(always)]
pub fn truth(t: bool) -> u16
    ensures { result ≡ truth_of t }
{
    if t { 65535 } else { 0 }
}

/// Whether a word counts as true in a condition: it does where it is odd.
#[tactic(auto, unfolding(crate::specs::Logicals::odd))]
#[inline(always)]
pub fn odd(w: u16) -> bool
    ensures { result ≡ odd_of w }
{
    w % 2 == 1
}
