// A list in memory that is reserved once, when the list is made.
ghost use Rattle.std.specs.Prelude.{◌≡◌, ◌<◌, ◌≤◌, cond, List, [], ◌∷◌, ◌++◌, Ok, Err, IfOk, MatchOption, drop, length, nat_le, nat_lt, reverse, slice_get, vec_capacity};
ghost use Rattle.base.specs.Stacks.{below};

use crate::list::Bounded;
use std::alloc::{AllocError, Global};
use std::marker::Model;

/// A list of at most N elements in memory of its own. Only `new` asks for memory. The end of the list is the top of a
/// stack.
#[derive(Drop)]
pub struct Reserved<T, const N: usize> {
    items: Vec<T>,
}

// Contracts see the list of the elements, in the order in which they were put.
impl<T, const N: usize> Model for Reserved<T, N> {
    ghost Value = { List T };

    ghost view = { λ s. s.items.items };

    ghost invariant = { λ s. (N ≤ vec_capacity s.items) × (length s.items.items ≤ N) };
}

impl<T: Drop, const N: usize> Reserved<T, N> {
    /// An empty list with room for N elements. Fails where there is no memory for them.
    pub fn new(heap: Global) -> Result<Reserved<T, N>, AllocError>
        ensures { IfOk result (λ s. s ≡ []) }
    {
        let items = Vec::with_capacity(heap, N)?;
        Ok(Reserved { items })
    }

    /// How many elements the list has.
    pub fn len(&self) -> usize
        ensures { result ≡ length self.now }
    {
        self.items.len()
    }

    /// Adds an element at the end. Where there are N elements already, gives this one back and changes nothing.
    #[inline(always)]
    pub fn push(&mut self, x: T) -> Result<(), T>
        ensures answer { result ≡ cond (nat_lt (length self.old) N) (Ok tt) (Err x) }
        ensures items { length self.old < N → self.new ≡ self.old ++ x ∷ [] }
        ensures tops { length self.old < N → reverse self.new ≡ x ∷ reverse self.old }
        ensures full { N ≤ length self.old → self.new ≡ self.old }
    {
        if self.items.len() >= N {
            return Err(x);
        }
        self.items.push_reserved(x);
        Ok(())
    }

    /// Takes the element at the top, or answers `None` where the list is empty.
    pub fn pop(&mut self) -> Option<T>
        ensures items { MatchOption result ((self.old ≡ []) × (self.new ≡ [])) (λ x. self.old ≡ self.new ++ x ∷ []) }
        ensures tops { reverse self.new ≡ below (reverse self.old) }
    {
        self.items.pop()
    }

    /// Takes all elements off.
    pub fn clear(&mut self)
        ensures { self.new ≡ [] }
    {
        self.items.clear();
    }

    /// The elements in the order in which they were put.
    pub fn as_slice(&self) -> &[T]
        ensures items { result.now ≡ self.now }
        ensures few { length result.now ≤ N }
    {
        self.items.as_slice()
    }
}

impl<T: Copy, const N: usize> Reserved<T, N> {
    /// The k-th element from the top, counted from 0, or `None` where there are at most k.
    pub fn peek(&self, k: usize) -> Option<T>
        ensures { result ≡ slice_get (reverse self.now) k }
    {
        let n = self.items.len();
        if k < n {
            Some(self.items[n - 1 - k])
        } else {
            None
        }
    }

    /// Writes all elements to the front of the table, the top first, and leaves the list empty. Entries of the table past
    /// them keep what they held. Where the table is shorter than the list, answers the length of the list as the error,
    /// and changes neither.
    pub fn hand_over(&mut self, table: &mut [T]) -> Result<(), usize>
        ensures answer { result ≡ cond (nat_le (length self.old) (length table.old)) (Ok tt) (Err (length self.old)) }
        ensures laid { length self.old ≤ length table.old
            → table.new ≡ reverse self.old ++ drop (length self.old) table.old }
        ensures left { length self.old ≤ length table.old → self.new ≡ [] }
        ensures short { length table.old < length self.old → (table.new ≡ table.old) × (self.new ≡ self.old) }
    {
        let n = self.len();
        if n > table.len() {
            return Err(n);
        }
        let mut list = Bounded::new(table);
        while let Some(x) = self.pop() {
            let _ = list.push(x);
        }
        Ok(())
    }
}
