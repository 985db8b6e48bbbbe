// A field of a word: some of its bits, counted from the highest.
ghost use Rattle.std.specs.Prelude.{◌≡◌, true, false, MatchOption};
ghost use Rattle.arith.specs.Fields.{is_field, field, with_field};

/// A field of `count` bits from the bit `from`, where bit 0 is the highest. It has 1 to 15 bits and ends within the word.
#[derive(Clone, Copy, PartialEq, Eq, Debug)]
pub struct Field {
    from: u16,
    count: u16,
    ghost ok: { is_field from count ≡ true },
}

impl Field {
    /// The field of `count` bits from the bit `from`, or `None` where `count` is not 1 to 15 or the field passes the word.
    #[inline(always)]
    pub fn new(from: u16, count: u16) -> Option<Field>
        ensures { MatchOption result (is_field from count ≡ false)
            (λ f. (is_field from count ≡ true) × (f.from ≡ from) × (f.count ≡ count)) }
    {
        if count < 1 || count > 15 || from > 16 - count {
            return None;
        }
        Some(Field { from, count })
    }

    /// The bits of `x` in the field, as a number.
    #[inline(always)]
    pub fn extract(self, x: u16) -> u16
        ensures { result ≡ field self.from self.count x }
    {
        (x >> (16 - self.from - self.count)) % (1 << self.count)
    }

    /// The word `x` with the bits of the field replaced by the lowest bits of `v`.
    #[inline(always)]
    pub fn deposit(self, x: u16, v: u16) -> u16
        ensures { result ≡ with_field self.from self.count x v }
    {
        let above = 16 - self.from;
        let below = 16 - self.from - self.count;
        let high = (x as u32 >> above) << above;
        let middle = v as u32 % (1 << self.count) << below;
        let low = x as u32 % (1 << below);
        (high + middle + low) as u16
    }
}
