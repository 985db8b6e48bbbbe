// A store of bytes that were lent, two to a word, the high one first.
ghost use Rattle.std.specs.Prelude.{◌≡◌, ◌+◌, ◌/◌, ◌%◌, ◌<◌, length, slice_index, slice_set, refl};
ghost use Rattle.std.proofs.Common.{◌∙◌};
ghost use Rattle.base.specs.Cells.{short_pairs_of, small_pairs_of};
ghost use Rattle.base.specs.Stores.{pair, pairs_of, past_pairs};

use super::{Store, StoreFault, within};
use crate::limits::MOST_WORDS;

/// The store over bytes that were lent, two to a word, the high byte first. An odd last byte, and bytes past the first
/// 65,535 words, are not used.
#[derive(Drop)]
pub struct Bytes<'a> {
    /// The bytes. Cell `c` is made of the bytes `2 * c` and `2 * c + 1`.
    pub cells: &'a mut [u8],
}

// The word that begins at the byte `i`.
#[inline(always)]
fn at(cells: &[u8], i: usize) -> u16
    requires { i + 1 < length cells.now }
    ensures { result ≡ pair (slice_index cells.now i) (slice_index cells.now (i + 1)) }
{
    cells[i] as u16 * 256 + cells[i + 1] as u16
}

#[inline(always)]
fn put(cells: &mut [u8], i: usize, w: u16)
    requires { i + 1 < length cells.old }
    ensures { cells.new ≡ slice_set (slice_set cells.old i (w / 256)) (i + 1) (w % 256) }
{
    cells[i] = (w / 256) as u8;
    cells[i + 1] = (w % 256) as u8;
}

impl<'a> Store for Bytes<'a> {
    ghost words = { λ s. pairs_of s.cells.now };

    ghost keeps = { λ s t. (t.cells.ghost_name ≡ s.cells.ghost_name)
        × (past_pairs t.cells.now ≡ past_pairs s.cells.now) };

    ghost short = { λ s. short_pairs_of s.cells.now };

    ghost small = { λ s k. small_pairs_of s.cells.now k };

    ghost stays = { λ s. (refl, refl) };

    ghost goes = { λ s t u p q. (q.0 ∙ p.0, q.1 ∙ p.1) };

    #[inline(always)]
    fn size(&self) -> u16 {
        MOST_WORDS.min(self.cells.len() / 2) as u16
    }

    #[inline(always)]
    fn read(&self, cell: u16) -> Result<u16, StoreFault> {
        within(cell, self.size())?;
        Ok(at(self.cells, 2 * cell as usize))
    }

    #[tactic(auto, using(crate::specs::Cells::length_pairs_of, crate::specs::Cells::set_pairs_of, crate::specs::Cells::past_set_pairs))]
    #[inline(always)]
    fn write(&mut self, cell: u16, w: u16) -> Result<(), StoreFault> {
        within(cell, self.size())?;
        put(self.cells, 2 * cell as usize, w);
        Ok(())
    }
}
