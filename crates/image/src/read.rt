// An image is read into a table: first judged to its last byte, and only then put into the table.
ghost use Rattle.std.specs.Prelude.{◌≡◌, ◌≤◌, List, [], length, take, IfOk};
ghost use Rattle.image.specs.Codes.{code_from};
ghost use Rattle.image.specs.Theorems.{ImageOf};
ghost use Rattle.base.specs.declared.instr.Instr.{Instr as Record};
ghost use Rattle.image.specs.Cursors.{AllAreRead, EndsThere, IsFilled, rest_of};
ghost use Rattle.image.specs.Faults.{refusal_of};
ghost use Rattle.image.specs.Reading.{entries_at, decoding, figures_of, table_after};
ghost use Rattle.base.specs.Refusals.{told};

use crate::cursor::Cursor;
use crate::fault::ImageFault;
use base::code::Figures;
use base::instr::Instr;
use base::list::Bounded;

impl<'a> Cursor<'a> {
    // Checks that no byte is left.
    fn ends(&self) -> Result<(), ImageFault>
        ensures { (o : List Record) → EndsThere (entries_at self.now.end 0 o (rest_of self.now)) o result }
    {
        if self.rest.is_empty() {
            return Ok(());
        }
        Err(ImageFault::BytesLeft(self.offset()))
    }

    // Reads `count` instructions and the end, and keeps nothing.
    fn walk(&mut self, count: u16) -> Result<(), ImageFault>
        ensures { AllAreRead (entries_at self.old.end count [] (rest_of self.old)) result }
    {
        for _ in 0..count {
            self.entry()?;
        }
        self.ends()
    }
}

// Reads `count` instructions and the end, and keeps the instructions in the table.
fn fill(cursor: &mut Cursor<'_>, count: u16, table: &mut [Instr]) -> Result<(), ImageFault>
    requires { count ≤ length table.old }
    ensures { IsFilled (entries_at cursor.old.end count [] (rest_of cursor.old)) count table.old table.new result }
{
    let mut list = Bounded::new(table);
    for _ in 0..count {
        let entry = cursor.entry()?;
        let _ = list.push(entry);
    }
    cursor.ends()
}

/// Reads an image into the front of the table, and answers the figures of its code. Bytes are accepted only if they are the
/// image of the code that then stands in the table. Entries of the table past that code keep what they held.
///
/// Refuses with 20 to 26 at the first fault; `ImageFault` says where each is met. A refusal leaves the table as it was.
pub fn decode(bytes: &[u8], table: &mut [Instr]) -> Result<Figures, ImageFault>
    ensures answer { told refusal_of result ≡ figures_of (decoding (length table.old) bytes.now) }
    ensures after { table.new ≡ table_after (decoding (length table.old) bytes.now) table.old }
    ensures of { IfOk result (λ f. ImageOf (code_from f.cells f.depth (take f.count table.new)) bytes.now) }
{
    let end = bytes.len();
    let mut cursor = Cursor { rest: bytes, end };
    let figures = cursor.figures(table.len())?;
    // A copy of the cursor judges all that follows before the table is changed.
    let mut ahead = cursor;
    ahead.walk(figures.count)?;
    fill(&mut cursor, figures.count, table)?;
    Ok(figures)
}
