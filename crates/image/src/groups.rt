// Numbers in groups of seven bits.
ghost use Rattle.std.specs.Prelude.{◌≡◌};
ghost use Rattle.image.specs.Groups.{count};

// How many groups a number takes. Its highest 1 bit decides; 0 takes one group.
pub(crate) fn groups(n: u16) -> u32
    ensures { result ≡ count n }
{
    let bits = 16 - n.leading_zeros();
    (bits.max(1) + 6) / 7
}
