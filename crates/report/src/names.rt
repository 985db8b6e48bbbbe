// Names as text, and the name that has a cell.
use crate::fields::Problem;
use sema::entry::NameEntry;

/// Appends the bytes of a token or a name, each as one character. All of them are letters, digits and signs. Fails
/// only where there is too little memory.
pub fn put_text(out: &mut String, bytes: &[u8]) -> Result<(), Problem> {
    for b in bytes {
        out.push(*b as char)?;
    }
    Ok(())
}

/// Answers the name to which a cell belongs, or none.
pub fn owner(names: &[NameEntry], cell: u16) -> Option<&NameEntry> {
    names.iter().find(|entry| {
        (cell as u32)
            .checked_sub(entry.cell)
            .is_some_and(|k| k < entry.cells)
    })
}
