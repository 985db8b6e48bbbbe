// The refusal that the calls of every layer can answer.

/// The place of a fault and the number that names it. Refusals are ordered by place, then by number. docs/WORDS.md says
/// which layer has which numbers.
#[derive(Clone, Copy, PartialEq, Eq, PartialOrd, Ord, Debug)]
pub struct Refusal {
    /// Where the fault is. The number decides what is counted: bytes of a source or of an image, entries, or cells. It is 0
    /// for the refusals of a session, 30 to 35.
    pub place: usize,
    /// Which fault it is.
    pub number: u8,
}
