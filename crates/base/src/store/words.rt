// A store of words that were lent.
ghost use Rattle.std.specs.Prelude.{◌≡◌, ◌<◌, length, slice_index, slice_set, refl};
ghost use Rattle.std.proofs.Common.{◌∙◌};
ghost use Rattle.base.specs.Cells.{short_words_of, small_words_of};
ghost use Rattle.base.specs.Stores.{past_words, words_of};

use super::{Store, StoreFault, within};
use crate::limits::MOST_WORDS;

/// The store over words that were lent. Words past the first 65,535 are not used.
#[derive(Drop)]
pub struct Words<'a> {
    /// The words. Cell `c` is the word at index `c`.
    pub cells: &'a mut [u16],
}

#[inline(always)]
fn at(cells: &[u16], i: usize) -> u16
    requires { i < length cells.now }
    ensures { result ≡ slice_index cells.now i }
{
    cells[i]
}

#[inline(always)]
fn put(cells: &mut [u16], i: usize, w: u16)
    requires { i < length cells.old }
    ensures { cells.new ≡ slice_set cells.old i w }
{
    cells[i] = w;
}

impl<'a> Store for Words<'a> {
    ghost words = { λ s. words_of s.cells.now };

    ghost keeps = { λ s t. (t.cells.ghost_name ≡ s.cells.ghost_name)
        × (past_words t.cells.now ≡ past_words s.cells.now) };

    ghost short = { λ s. short_words_of s.cells.now };

    ghost small = { λ s k. small_words_of s.cells.now k };

    ghost stays = { λ s. (refl, refl) };

    ghost goes = { λ s t u p q. (q.0 ∙ p.0, q.1 ∙ p.1) };

    #[inline(always)]
    fn size(&self) -> u16 {
        MOST_WORDS.min(self.cells.len()) as u16
    }

    #[inline(always)]
    fn read(&self, cell: u16) -> Result<u16, StoreFault> {
        within(cell, self.size())?;
        Ok(at(self.cells, cell as usize))
    }

    #[tactic(auto, using(crate::specs::Cells::length_words_of, crate::specs::Cells::set_words_of, crate::specs::Cells::past_set_words))]
    #[inline(always)]
    fn write(&mut self, cell: u16, w: u16) -> Result<(), StoreFault> {
        within(cell, self.size())?;
        put(self.cells, cell as usize, w);
        Ok(())
    }
}
