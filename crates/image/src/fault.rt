// Why an image is not read, or why a code is not written.
ghost use Rattle.std.specs.Prelude.{◌≡◌};
ghost use Rattle.image.specs.Faults.{refusal_of};

use base::refusal::Refusal;
use thiserror::Error;

/// Why an image is not read (20 to 26), or why a code is not written (27 and 28). Each case holds its place. The bytes of an
/// image are counted from 0.
#[derive(Clone, Copy, PartialEq, Eq, Debug, Error)]
pub enum ImageFault {
    /// Refusal 20: the bytes end inside the image. The place is the length of the bytes.
    #[error("the image is cut short")]
    CutShort(usize),
    /// Refusal 21: a number begins with a group of zeros. The place is the number's first byte.
    #[error("a number begins with a group of zeros")]
    LeadingZeros(usize),
    /// Refusal 22: a number is over 65,535. The place is the number's first byte.
    #[error("a number is over 65535")]
    TooLarge(usize),
    /// Refusal 23: no instruction has this number. The place is the number's first byte.
    #[error("there is no instruction of this number")]
    UnknownInstruction(usize),
    /// Refusal 24: bytes are left after the last instruction. The place is the first of them.
    #[error("bytes are left after the last instruction")]
    BytesLeft(usize),
    /// Refusal 25: the cells are over 4,096, or the count is 0 or over 16,383. The place is the first byte of that number.
    #[error("the cells are over 4096, or the instructions are none or over 16383")]
    BadHeader(usize),
    /// Refusal 26: the table has fewer entries than the count. The place is the count's first byte.
    #[error("the table has too few entries for the instructions")]
    TableShort(usize),
    /// Refusal 27: the room is shorter than the image. The place is how many bytes the image takes.
    #[error("the room is too short: the image takes this many bytes")]
    RoomShort(usize),
    /// Refusal 28: the header or an entry is not that of a code. The place is the index of the entry, or 0 for the
    /// header.
    #[error("the entry or the header is no code's")]
    BadEntry(usize),
}

impl From<ImageFault> for Refusal {
    ghost from_gives = { λ e r. r ≡ refusal_of e };

    fn from(e: ImageFault) -> Refusal {
        let (number, place) = match e {
            ImageFault::CutShort(place) => (20, place),
            ImageFault::LeadingZeros(place) => (21, place),
            ImageFault::TooLarge(place) => (22, place),
            ImageFault::UnknownInstruction(place) => (23, place),
            ImageFault::BytesLeft(place) => (24, place),
            ImageFault::BadHeader(place) => (25, place),
            ImageFault::TableShort(place) => (26, place),
            ImageFault::RoomShort(needed) => (27, needed),
            ImageFault::BadEntry(index) => (28, index),
        };
        Refusal { place, number }
    }
}
