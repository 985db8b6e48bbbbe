// The parts of a request: fields, numbers, hexadecimal bytes, instruction records.
use base::instr::Instr;
use std::alloc::{AllocError, AllocFailed};
use std::fmt;
use std::fmt::Write;
use thiserror::Error;

/// Why a request is answered `err`, or an option of a command is not taken.
#[derive(Clone, Copy, Debug, Error)]
pub enum Problem {
    /// There is too little memory.
    #[error("want of memory")]
    Memory,
    /// The text says what is wrong with the request or the option.
    #[error("{0}")]
    NotRequest(&'static str),
}

// Written by hand, like those below: the case holds no error, so none can be derived.
impl From<AllocError> for Problem {
    fn from(_e: AllocError) -> Problem {
        Problem::Memory
    }
}

impl<T: Drop> From<AllocFailed<T>> for Problem {
    fn from(_e: AllocFailed<T>) -> Problem {
        Problem::Memory
    }
}

// Writing to a text fails only if there is too little memory.
impl From<fmt::Error> for Problem {
    fn from(_e: fmt::Error) -> Problem {
        Problem::Memory
    }
}

/// Answers why `found` fields are not a request of `wanted` fields. The two numbers differ.
pub fn miscount(found: usize, wanted: usize) -> Problem {
    Problem::NotRequest(if found < wanted {
        "too few fields"
    } else {
        "too many fields"
    })
}

/// Reads a decimal number, which may have leading zeros. Fails where there is no digit, where another character
/// stands, and where the number does not fit into a `usize`.
pub fn number(text: &[u8]) -> Result<usize, Problem> {
    if text.is_empty() {
        return Err(Problem::NotRequest("a number is missing"));
    }
    let mut n = 0usize;
    for b in text {
        let digit = (*b as char)
            .to_digit(10)
            .ok_or(Problem::NotRequest("a number has another character"))?;
        n = n
            .checked_mul(10)
            .and_then(|tens| tens.checked_add(digit as usize))
            .ok_or(Problem::NotRequest("a number is too large"))?;
    }
    Ok(n)
}

/// Reads a decimal number of at most 65,535. Fails as `number` does, and where the number is larger.
pub fn word(text: &[u8]) -> Result<u16, Problem> {
    u16::try_from(number(text)?).map_err(|_| Problem::NotRequest("a word is over 65535"))
}

// The value of a hexadecimal digit. Only small letters are digits.
fn nibble(b: u8) -> Result<u8, Problem> {
    match b {
        b'0'..=b'9' => Ok(b - b'0'),
        b'a'..=b'f' => Ok(b - b'a' + 10),
        _ => Err(Problem::NotRequest("no hex digit")),
    }
}

/// Reads bytes of two hexadecimal digits each, `-` for none, into `out` in place of those there. Fails where a
/// digit is missing or is none, and where there is too little memory.
pub fn hex(text: &[u8], out: &mut Vec<u8>) -> Result<(), Problem> {
    out.clear();
    if let [b'-'] = text {
        return Ok(());
    }
    if text.len() % 2 != 0 {
        return Err(Problem::NotRequest("odd number of hex digits"));
    }
    if text.is_empty() {
        return Err(Problem::NotRequest("bytes are missing"));
    }
    let (pairs, _) = text.as_chunks::<2>();
    for [high, low] in pairs {
        out.push((nibble(*high)? << 4) | nibble(*low)?)?;
    }
    Ok(())
}

// Reads an instruction record, `number,a,b`.
fn instr(text: &[u8]) -> Result<Instr, Problem> {
    let mut parts = text.splitn(3, |b| *b == b',');
    match (parts.next(), parts.next(), parts.next()) {
        (Some(number), Some(a), Some(b)) => Ok(Instr {
            number: word(number)?,
            a: word(a)?,
            b: word(b)?,
        }),
        _ => Err(Problem::NotRequest("an instruction has too few parts")),
    }
}

/// Reads instruction records, `number,a,b` joined by `;`, `-` for none, into `out` in place of those there. Fails
/// where a part is missing or is no word, and where there is too little memory.
pub fn instrs(text: &[u8], out: &mut Vec<Instr>) -> Result<(), Problem> {
    out.clear();
    if let [b'-'] = text {
        return Ok(());
    }
    for record in text.split(|b| *b == b';') {
        out.push(instr(record)?)?;
    }
    Ok(())
}

/// Reads words joined by `,`, `-` for none, into `out` in place of those there. Fails where a word is none, and
/// where there is too little memory.
pub fn words(text: &[u8], out: &mut Vec<u16>) -> Result<(), Problem> {
    out.clear();
    if let [b'-'] = text {
        return Ok(());
    }
    for one in text.split(|b| *b == b',') {
        out.push(word(one)?)?;
    }
    Ok(())
}

/// Appends words in the form in which `words` reads them. Fails only where there is too little memory.
pub fn put_words(out: &mut String, list: &[u16]) -> Result<(), Problem> {
    if list.is_empty() {
        out.push('-')?;
    }
    for (k, w) in list.iter().enumerate() {
        if k > 0 {
            out.push(',')?;
        }
        write!(out, "{w}")?;
    }
    Ok(())
}
