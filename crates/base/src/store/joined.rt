// Two stores end to end, each lent.
ghost use Rattle.std.specs.Prelude.{◌≡◌, refl};
ghost use Rattle.std.proofs.Common.{◌∙◌};
ghost use Rattle.base.specs.Cells.{short_joined_of, small_joined_of};
ghost use Rattle.base.specs.Halves.{half_of};
ghost use Rattle.base.specs.Stores.{joined_of, past_joined};

use super::{Store, StoreFault, within};

/// The store that has the cells of the first, then those of the second. Words past the first 65,535 are not used.
#[derive(Drop)]
pub struct Joined<'a, 'b, X, Y> {
    /// The store of the cells from 0.
    pub first: &'a mut X,
    /// The store of the cells from the size of the first.
    pub second: &'b mut Y,
}

/// Which of two joined stores has a cell, and which of its own cells that is.
#[derive(Clone, Copy, PartialEq, Eq, Debug)]
pub enum Half {
    /// The first store has it, as this cell.
    First(u16),
    /// The second store has it, as this cell.
    Second(u16),
}

// Finds the cell, where the first store has `m` cells.
#[inline(always)]
fn which_half(cell: u16, m: u16) -> Half
    ensures { result ≡ half_of cell m }
{
    if cell < m {
        Half::First(cell)
    } else {
        Half::Second(cell - m)
    }
}

impl<'a, 'b, X: Store, Y: Store> Store for Joined<'a, 'b, X, Y> {
    ghost words = { λ s. joined_of (X.Store.words s.first.now) (Y.Store.words s.second.now) };

    // The loans are the same, the words of the second store past the joined ones are unchanged, and each store keeps what
    // it has to keep.
    ghost keeps = { λ s t. (t.first.ghost_name ≡ s.first.ghost_name)
        × (t.second.ghost_name ≡ s.second.ghost_name)
        × (past_joined (X.Store.words t.first.now) (Y.Store.words t.second.now)
        ≡ past_joined (X.Store.words s.first.now) (Y.Store.words s.second.now))
        × X.Store.keeps s.first.now t.first.now
        × Y.Store.keeps s.second.now t.second.now };

    ghost short = { λ s. short_joined_of (X.Store.words s.first.now) (Y.Store.words s.second.now) };

    ghost small = { λ s k. small_joined_of (X.Store.words s.first.now) (Y.Store.words s.second.now)
        (X.Store.small s.first.now) (Y.Store.small s.second.now) k };

    ghost stays = { λ s. (refl, refl, refl, X.Store.stays s.first.now, Y.Store.stays s.second.now) };

    ghost goes = { λ s t u p q. (
      q.0 ∙ p.0,
      q.1 ∙ p.1,
      q.2 ∙ p.2,
      X.Store.goes s.first.now t.first.now u.first.now p.3 q.3,
      Y.Store.goes s.second.now t.second.now u.second.now p.4 q.4,
    ) };

    #[inline(always)]
    fn size(&self) -> u16 {
        self.first.size().saturating_add(self.second.size())
    }

    #[inline(always)]
    fn read(&self, cell: u16) -> Result<u16, StoreFault> {
        within(cell, self.size())?;
        match which_half(cell, self.first.size()) {
            Half::First(c) => self.first.read(c),
            Half::Second(c) => self.second.read(c),
        }
    }

    #[tactic(auto, using(crate::proofs::Chosen::written))]
    #[inline(always)]
    fn write(&mut self, cell: u16, w: u16) -> Result<(), StoreFault> {
        within(cell, self.size())?;
        match which_half(cell, self.first.size()) {
            Half::First(c) => self.first.write(c, w),
            Half::Second(c) => self.second.write(c, w),
        }
    }
}
