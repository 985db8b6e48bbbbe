// Operations on words, bit by bit.
ghost use Rattle.std.specs.Prelude.{◌≡◌, bit_and, bit_or, bit_xor};
ghost use Rattle.arith.specs.Bits.{complement as complement_of};

/// The word of the bits that are 1 in both words.
#[inline(always)]
pub fn and(y: u16, x: u16) -> u16
    ensures { result ≡ bit_and y x }
{
    y & x
}

/// The word of the bits that are 1 in at least one of the words.
#[inline(always)]
pub fn or(y: u16, x: u16) -> u16
    ensures { result ≡ bit_or y x }
{
    y | x
}

/// The word of the bits that are 1 in exactly one of the words.
#[inline(always)]
pub fn xor(y: u16, x: u16) -> u16
    ensures { result ≡ bit_xor y x }
{
    y ^ x
}

/// The word with every bit of `x` turned.
#[tactic(auto, unfolding(crate::specs::Bits::complement))]
#[inline(always)]
pub fn complement(x: u16) -> u16
    ensures { result ≡ complement_of x }
{
    !x
}
