// A list of at most as many elements as the cells that it was lent. In the contracts of its methods `room` tells the lender
// what each cell holds afterwards.
ghost use Rattle.std.specs.Prelude.{◌≡◌, ◌-◌, ◌<◌, ◌≤◌, length, [], take, MatchOption, slice_index_or};

/// A list over cells that were lent. The elements are the first `len` cells; the cells past them keep what they held.
#[derive(Drop)]
pub struct Bounded<'a, T> {
    cells: &'a mut [T],
    len: usize,
    ghost within: { len ≤ length cells.now },
}

impl<'a, T: Copy> Bounded<'a, T> {
    ghost use Rattle.base.specs.Lists.{contents, room, IsPushed, IsPopped, IsCut, IsChanged};

    /// An empty list over these cells.
    pub fn new(cells: &'a mut [T]) -> Bounded<'a, T>
        ensures held { contents result ≡ [] }
        ensures len { result.len ≡ 0 }
        ensures room { room result ≡ cells.old }
        ensures lends { result.cells.ghost_name ≡ cells.entry.ghost_name }
    {
        Bounded { cells, len: 0 }
    }

    /// The list of what the first `len` cells hold, or of what all cells hold where there are fewer.
    #[inline(always)]
    pub fn of_first(cells: &'a mut [T], len: usize) -> Bounded<'a, T>
        ensures held { contents result ≡ take len cells.old }
        ensures len { len ≤ length cells.old → result.len ≡ len }
        ensures room { room result ≡ cells.old }
        ensures lends { result.cells.ghost_name ≡ cells.entry.ghost_name }
    {
        let len = len.min(cells.len());
        Bounded { cells, len }
    }

    /// How many elements the list has.
    #[inline(always)]
    pub fn len(&self) -> usize
        ensures value { result ≡ self.now.len }
        ensures held { result ≡ length (contents self.now) }
    {
        self.as_slice().len()
    }

    /// Adds an element at the end. Where every cell is taken, answers the number of cells as the error and changes nothing.
    #[inline(always)]
    pub fn push(&mut self, x: T) -> Result<(), usize>
        ensures { IsPushed self.old x self.new result }
    {
        if self.len >= self.cells.len() {
            return Err(self.len);
        }
        self.cells[self.len] = x;
        self.len += 1;
        Ok(())
    }

    /// Takes the last element, or answers `None` where the list is empty. The cell of the element keeps what it held.
    pub fn pop(&mut self) -> Option<T>
        ensures { IsPopped self.old self.new result }
    {
        if self.len == 0 {
            return None;
        }
        self.len -= 1;
        Some(self.cells[self.len])
    }

    /// Takes the last `n` elements off. Their cells keep what they held. Where there are fewer than `n`, answers how many
    /// there are as the error and changes nothing.
    #[inline(always)]
    pub fn cut(&mut self, n: usize) -> Result<(), usize>
        ensures { IsCut self.old n self.new result }
    {
        if n > self.len {
            return Err(self.len);
        }
        self.len -= n;
        Ok(())
    }

    /// The k-th element from the end, counted from 0, or `None` where there are at most k.
    #[inline(always)]
    pub fn peek(&self, k: usize) -> Option<T>
        ensures { MatchOption result (length (contents self.now) ≤ k)
            (λ x. (k < length (contents self.now))
            × (x ≡ slice_index_or (contents self.now) (length (contents self.now) - 1 - k) x)) }
    {
        if k >= self.len {
            return None;
        }
        Some(self.cells[self.len - 1 - k])
    }

    /// The element at index `i`, or `None` where there are at most `i`.
    pub fn get(&self, i: usize) -> Option<T>
        ensures { MatchOption result (length (contents self.now) ≤ i)
            (λ x. (i < length (contents self.now)) × (x ≡ slice_index_or (contents self.now) i x)) }
    {
        let held = self.as_slice();
        if i >= held.len() {
            return None;
        }
        Some(held[i])
    }

    /// Replaces the element at index `i`. Where there are at most `i` elements, answers `i` as the error and changes
    /// nothing.
    pub fn change(&mut self, i: usize, x: T) -> Result<(), usize>
        ensures { IsChanged self.old i x self.new result }
    {
        if i >= self.len {
            return Err(i);
        }
        self.cells[i] = x;
        Ok(())
    }

    /// The elements from first to last.
    pub fn as_slice(&self) -> &[T]
        ensures { result.now ≡ contents self.now }
    {
        &self.cells[0..self.len]
    }
}
