// Words as INTEGERs, in two's complement. Results are worked out in 32 bits, where nothing overflows.
ghost use Rattle.std.specs.Prelude.{◌≡◌};
ghost use Rattle.arith.specs.Integers.{int, integer_word, Small, sum, difference, product, quotient, remainder, negation};
ghost use Rattle.arith.specs.Stops.{number_of};
ghost use Rattle.arith.specs.Integers.{subscript as subscript_of, case_index as case_index_of, turns as turns_of, within as within_of, below as below_of};

use super::stop::Stop;

const LEAST: i32 = -32768;

const GREATEST: i32 = 32767;

/// The INTEGER that a word stands for, from -32,768 to 32,767.
#[inline(always)]
#[tactic(auto, unfolding(crate::specs::Integers::int))]
pub fn value(w: u16) -> i32
    ensures exact { result ≡ int w }
    ensures small { Small result }
{
    i32::from(w.cast_signed())
}

/// The word that stands for an INTEGER. Stops with 1 where `v` is outside -32,768 to 32,767.
#[inline(always)]
pub fn fit(v: i32) -> Result<u16, Stop>
    ensures { result ≡ integer_word v }
{
    if v < LEAST || v > GREATEST {
        return Err(Stop::Overflow);
    }
    if v < 0 {
        Ok((v + 65536) as u16)
    } else {
        Ok(v as u16)
    }
}

/// The INTEGER sum `y + x`. Stops with 1 where it is outside -32,768 to 32,767.
#[inline(always)]
pub fn add(y: u16, x: u16) -> Result<u16, Stop>
    ensures { result ≡ sum y x }
{
    fit(value(y) + value(x))
}

/// The INTEGER difference `y - x`. Stops with 1 where it is outside -32,768 to 32,767.
#[inline(always)]
pub fn sub(y: u16, x: u16) -> Result<u16, Stop>
    ensures { result ≡ difference y x }
{
    fit(value(y) - value(x))
}

/// The INTEGER product `y * x`. Stops with 1 where it is outside -32,768 to 32,767.
#[inline(always)]
pub fn mul(y: u16, x: u16) -> Result<u16, Stop>
    ensures { result ≡ product y x }
{
    fit(value(y) * value(x))
}

/// The INTEGER quotient `y / x`, truncated toward zero. Stops with 2 where `x` is 0, and with 1 for -32,768 / -1.
#[inline(always)]
pub fn div(y: u16, x: u16) -> Result<u16, Stop>
    ensures { result ≡ quotient y x }
{
    if x == 0 {
        return Err(Stop::ZeroDivisor);
    }
    fit(value(y) / value(x))
}

/// The INTEGER remainder of `y / x`, which has the sign of `y` unless it is 0. Stops with 2 where `x` is 0.
#[inline(always)]
pub fn rem(y: u16, x: u16) -> Result<u16, Stop>
    ensures { result ≡ remainder y x }
{
    if x == 0 {
        return Err(Stop::ZeroDivisor);
    }
    fit(value(y) % value(x))
}

/// The INTEGER negation `-x`. Stops with 1 for -32,768.
#[inline(always)]
pub fn neg(x: u16) -> Result<u16, Stop>
    ensures { result ≡ negation x }
{
    fit(-value(x))
}

// Whether `i`, read as an INTEGER, is at least 0 and below the number `n`. A word below 32,768 is its own INTEGER.
#[inline(always)]
fn within(i: u16, n: u16) -> bool
    ensures { result ≡ within_of i n }
{
    i < 32768 && i < n
}

// Answers `i` where it is one of the first `n` numbers from 0, and else the stop `past`.
#[tactic(auto, using(crate::proofs::Numbered::stops_back))]
#[inline(always)]
fn below(i: u16, n: u16, past: Stop) -> Result<u16, Stop>
    ensures { result ≡ below_of (number_of past) i n }
{
    if within(i, n) { Ok(i) } else { Err(past) }
}

/// The subscript `i` of an array of `n` cells. Stops with 3 where `i`, read as an INTEGER, is below 0 or not below `n`.
#[tactic(auto, unfolding(crate::specs::Integers::subscript))]
#[inline(always)]
pub fn subscript(i: u16, n: u16) -> Result<u16, Stop>
    ensures { result ≡ subscript_of i n }
{
    below(i, n, Stop::BadIndex)
}

/// The index `i` of a CASE of `n` statements. Stops with 4 where `i`, read as an INTEGER, is below 0 or not below `n`.
#[tactic(auto, unfolding(crate::specs::Integers::case_index))]
#[inline(always)]
pub fn case_index(i: u16, n: u16) -> Result<u16, Stop>
    ensures { result ≡ case_index_of i n }
{
    below(i, n, Stop::BadCase)
}

/// Whether a FOR takes another turn. All three words are INTEGERs. The variable may be up to the limit where the step is 0
/// or more, and down to the limit where the step is negative.
#[tactic(auto, unfolding(crate::specs::Integers::turns))]
#[inline(always)]
pub fn turns(variable: u16, step: u16, limit: u16) -> bool
    ensures { result ≡ turns_of variable step limit }
{
    if value(step) >= 0 {
        value(variable) <= value(limit)
    } else {
        value(limit) <= value(variable)
    }
}
