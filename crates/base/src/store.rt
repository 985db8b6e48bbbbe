// Memory of words, read and written by cell.
ghost use Rattle.std.specs.Prelude.{◌≡◌, ℕ, ◌<◌, ◌≤◌, List, MatchResult, length, slice_index, slice_set};
ghost use Rattle.base.specs.Limits.{most_words};
ghost use Rattle.base.specs.Refusals.{told};
ghost use Rattle.base.specs.declared.store.StoreFault.TheVariants.{NoCell};
ghost use Rattle.base.specs.Stores.{read_of, write_of, refusal_of};

use crate::refusal::Refusal;
use thiserror::Error;

pub mod bytes;
pub mod joined;
pub mod words;

/// Why a store does not read or write.
#[derive(Clone, Copy, PartialEq, Eq, Debug, Error)]
pub enum StoreFault {
    /// Refusal 36: the store has no such cell. The place is the cell.
    #[error("the store has no such cell")]
    NoCell(u16),
}

impl From<StoreFault> for Refusal {
    ghost from_gives = { λ e r. r ≡ refusal_of e };

    fn from(e: StoreFault) -> Refusal {
        match e {
            StoreFault::NoCell(cell) => Refusal {
                number: 36,
                place: cell as usize,
            },
        }
    }
}

// Checks that a store of `size` words has the cell.
#[inline(always)]
fn within(cell: u16, size: u16) -> Result<(), StoreFault>
    ensures { MatchResult result (λ _. cell < size) (λ e. (e ≡ NoCell cell) × (size ≤ cell)) }
{
    if cell < size {
        Ok(())
    } else {
        Err(StoreFault::NoCell(cell))
    }
}

/// A list of at most 65,535 words of 16 bits, which is held in some memory. A cell is a place in that list, from 0. A type
/// is a store if it has these members and its calls keep these contracts.
pub trait Store {
    /// The words of the list.
    ghost words: { Self → List ℕ };

    /// The loan is the same, and the memory that holds none of the words is unchanged.
    ghost keeps: { Self → Self → Type 0 };

    ghost short: { (s : Self) → length (words s) ≤ most_words };

    ghost small: { (s : Self) (k : ℕ) → slice_index (words s) k < 65536 };

    ghost stays: { (s : Self) → keeps s s };

    ghost goes: { (s t u : Self) → keeps s t → keeps t u → keeps s u };

    /// How many words the store has.
    fn size(&self) -> u16
        ensures { result ≡ length (words self.now) };

    /// The word of a cell. Refuses with 36, at the cell, where the cell is not below the size.
    fn read(&self, cell: u16) -> Result<u16, StoreFault>
        ensures { told refusal_of result ≡ read_of (words self.now) cell };

    /// Replaces the word of one cell, and of no other. Refuses with 36, at the cell, where the cell is not below the size.
    /// A refusal changes nothing: `slice_set` past the end of a list is the list itself.
    fn write(&mut self, cell: u16, w: u16) -> Result<(), StoreFault>
        ensures answer { told refusal_of result ≡ write_of (words self.old) cell }
        ensures after { words self.new ≡ slice_set (words self.old) cell w }
        ensures keeps { keeps self.old self.new };
}
