// A code is written as an image: first judged and measured, and only then put into the room.
ghost use Rattle.std.specs.Prelude.{◌≡◌, ◌*◌, ◌<◌, ◌≤◌, true, [], ◌∷◌, ◌++◌, length, drop, IfSome, IfOk, Ok};
ghost use Rattle.base.specs.Limits.{most_instructions};
ghost use Rattle.image.specs.Codes.{code_of, entry_bytes, body_bytes, good_header, image};
ghost use Rattle.image.specs.Groups.{number_bytes};
ghost use Rattle.image.specs.Faults.{refusal_of};
ghost use Rattle.image.specs.Writing.{size_of, entry_refusal, encoding, byte_count, room_after, HasRoom, IsAppended};
ghost use Rattle.base.specs.Refusals.{told, then};

use crate::fault::ImageFault;
use crate::groups::groups;
use base::code::Code;
use base::instr::{Instr, operands};
use base::limits::{MOST_CELLS, MOST_INSTRUCTIONS};
use base::list::Bounded;

/// How many bytes a number takes in an image, 1 to 3.
pub fn size(n: u16) -> usize
    ensures value { result ≡ length (number_bytes n) }
    ensures small { result ≤ 3 }
{
    groups(n) as usize
}

/// How many bytes an entry takes in an image, at most 9. The answer is `None` where no instruction has its number, or where
/// an operand that the instruction does not name is not 0.
#[tactic(auto, unfolding(crate::specs::Codes::good_entry, crate::specs::Codes::entry_bytes))]
pub fn entry_size(i: Instr) -> Option<usize>
    ensures value { result ≡ size_of i }
    ensures small { IfSome result (λ n. n ≤ 9) }
{
    match operands(i.number)? {
        0 if i.a == 0 && i.b == 0 => Some(size(i.number)),
        1 if i.b == 0 => Some(size(i.number) + size(i.a)),
        0 | 1 => None,
        _ => Some(size(i.number) + size(i.a) + size(i.b)),
    }
}

fn add(out: &mut Bounded<'_, u8>, b: u8)
    requires { HasRoom out.old (b ∷ []) }
    ensures { IsAppended out.old (b ∷ []) out.new }
{
    let _ = out.push(b);
}

// Writes the groups of a number, the high one first.
fn put(out: &mut Bounded<'_, u8>, n: u16)
    requires { HasRoom out.old (number_bytes n) }
    ensures { IsAppended out.old (number_bytes n) out.new }
{
    let low = (n % 128) as u8;
    let middle = (n / 128 % 128) as u8 + 128;
    let high = (n / 16384) as u8 + 128;
    match groups(n) {
        1 => add(out, low),
        2 => {
            add(out, middle);
            add(out, low);
        }
        _ => {
            add(out, high);
            add(out, middle);
            add(out, low);
        }
    }
}

// Writes an instruction's number, then the operands that it names.
fn put_entry(out: &mut Bounded<'_, u8>, i: Instr)
    requires { HasRoom out.old (entry_bytes i) }
    ensures { IsAppended out.old (entry_bytes i) out.new }
{
    put(out, i.number);
    match operands(i.number) {
        None => {}
        Some(0) => {}
        Some(1) => put(out, i.a),
        Some(_) => {
            put(out, i.a);
            put(out, i.b);
        }
    }
}

// Writes the instructions from first to last.
fn put_body(out: &mut Bounded<'_, u8>, code: &[Instr])
    requires { HasRoom out.old (body_bytes code.now) }
    ensures { IsAppended out.old (body_bytes code.now) out.new }
{
    for entry in code {
        put_entry(out, *entry);
    }
}

fn good_header(cells: u16, count: usize) -> bool
    ensures value { result ≡ good_header cells count }
    ensures few { result ≡ true → count ≤ most_instructions }
{
    cells <= MOST_CELLS && count >= 1 && count <= MOST_INSTRUCTIONS
}

// Judges the entries from first to last, and answers how many bytes they take.
fn measure(code: &[Instr]) -> Result<usize, ImageFault>
    requires { length code.now ≤ most_instructions }
    ensures answer { told refusal_of result ≡ then (entry_refusal 0 code.now) (λ _. Ok (length (body_bytes code.now))) }
    ensures small { IfOk result (λ n. n ≤ 9 * most_instructions) }
{
    let mut bytes = 0;
    for (i, entry) in code.iter().enumerate() {
        // By `match`: with `ok_or(..)?` the bound of the sum is not proved.
        match entry_size(*entry) {
            Some(n) => bytes += n,
            None => return Err(ImageFault::BadEntry(i)),
        }
    }
    Ok(bytes)
}

// Puts the image of a good code at the front of the room.
fn lay(code: Code<'_>, out: &mut [u8])
    requires { (length code.instructions.now ≤ most_instructions) × (length (image (code_of code)) ≤ length out.old) }
    ensures { out.new ≡ image (code_of code.entry) ++ drop (length (image (code_of code.entry))) out.old }
{
    let mut list = Bounded::new(out);
    put(&mut list, code.cells);
    put(&mut list, code.depth);
    put(&mut list, code.instructions.len() as u16);
    put_body(&mut list, code.instructions);
}

/// Writes the image of a code to the front of the room, and answers how many bytes it takes. Bytes past the image keep what
/// they held.
///
/// Refuses with 28 at 0 where the cells are over 4,096 or the instructions are none or over 16,383. Refuses with 28 at the
/// index of the first entry with a number that no instruction has, or with an operand that is not named and not 0. Refuses
/// with 27 where the room is shorter than the image; the place is how many bytes the image takes. A refusal leaves the room
/// as it was.
pub fn encode(code: Code<'_>, out: &mut [u8]) -> Result<usize, ImageFault>
    ensures answer { told refusal_of result ≡ byte_count (encoding (length out.old) (code_of code.entry)) }
    ensures after { out.new ≡ room_after (encoding (length out.old) (code_of code.entry)) out.old }
{
    let count = code.instructions.len();
    if !good_header(code.cells, count) {
        return Err(ImageFault::BadEntry(0));
    }
    let body = measure(code.instructions)?;
    let needed = size(code.cells) + size(code.depth) + size(count as u16) + body;
    if needed > out.len() {
        return Err(ImageFault::RoomShort(needed));
    }
    lay(code, out);
    Ok(needed)
}
