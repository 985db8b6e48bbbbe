// The parts of an image, read by a cursor.
ghost use Rattle.std.specs.Prelude.{◌≡◌};
ghost use Rattle.image.specs.Cursors.{IsRead, rest_of};
ghost use Rattle.image.specs.Reading.{entry_at, figures_at};

use crate::cursor::Cursor;
use crate::fault::ImageFault;
use base::code::Figures;
use base::instr::{Instr, operands};
use base::limits::{MOST_CELLS, MOST_INSTRUCTIONS};

impl<'a> Cursor<'a> {
    // Reads an instruction's number, then the operands that it names.
    #[tactic(auto, unfolding(crate::specs::Reading::entry_at))]
    pub(crate) fn entry(&mut self) -> Result<Instr, ImageFault>
        ensures { IsRead (entry_at self.old.end (rest_of self.old)) self.old self.new result }
    {
        let at = self.offset();
        let number = self.number()?;
        let named = operands(number).ok_or(ImageFault::UnknownInstruction(at))?;
        match named {
            0 => Ok(Instr { number, a: 0, b: 0 }),
            1 => {
                let a = self.number()?;
                Ok(Instr { number, a, b: 0 })
            }
            _ => {
                let a = self.number()?;
                let b = self.number()?;
                Ok(Instr { number, a, b })
            }
        }
    }

    // Reads cells, depth and count, for a table of `room` entries.
    #[tactic(auto, unfolding(crate::specs::Reading::figures_at))]
    pub(crate) fn figures(&mut self, room: usize) -> Result<Figures, ImageFault>
        ensures { IsRead (figures_at self.old.end room (rest_of self.old)) self.old self.new result }
    {
        let at = self.offset();
        let cells = self.number()?;
        if cells > MOST_CELLS {
            return Err(ImageFault::BadHeader(at));
        }
        let depth = self.number()?;
        let at = self.offset();
        let count = self.number()?;
        if count == 0 || count as usize > MOST_INSTRUCTIONS {
            return Err(ImageFault::BadHeader(at));
        }
        if count as usize > room {
            return Err(ImageFault::TableShort(at));
        }
        Ok(Figures {
            cells,
            depth,
            count,
        })
    }
}
