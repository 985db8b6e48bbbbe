// Bytes that are read from the front.
ghost use Rattle.std.specs.Prelude.{◌≡◌, ◌-◌, ◌≤◌, length, true};

use crate::fault::ImageFault;

// The bytes that are left of `end` bytes.
#[derive(Clone, Copy)]
pub(crate) struct Cursor<'a> {
    pub(crate) rest: &'a [u8],
    pub(crate) end: usize,
    ghost within: { length rest.now ≤ end },
}

impl<'a> Cursor<'a> {
    ghost use Rattle.image.specs.Cursors.{IsByteRead, IsRead, rest_of};
    ghost use Rattle.image.specs.Groups.{number, zeros_first};

    // The index of the next byte.
    pub(crate) fn offset(&self) -> usize
        ensures { result ≡ self.now.end - length (rest_of self.now) }
    {
        self.end - self.rest.len()
    }

    fn byte(&mut self) -> Option<u8>
        ensures { IsByteRead self.old self.new result }
    {
        let (b, rest) = self.rest.split_first()?;
        self.rest = rest;
        Some(*b)
    }

    fn zeros_first(&self) -> bool
        ensures { result ≡ zeros_first (rest_of self.now) }
    {
        self.rest.first() == Some(&128)
    }

    // Reads the number at the front.
    pub(crate) fn number(&mut self) -> Result<u16, ImageFault>
        ensures { IsRead (number self.old.end (rest_of self.old)) self.old self.new result }
    {
        let at = self.offset();
        if self.zeros_first() {
            return Err(ImageFault::LeadingZeros(at));
        }
        let mut n = 0u32;
        while let Some(b) = self.byte() {
            n = n * 128 + (b % 128) as u32;
            if n > 65535 {
                return Err(ImageFault::TooLarge(at));
            }
            if b < 128 {
                return Ok(n as u16);
            }
        }
        Err(ImageFault::CutShort(self.end))
    }
}
