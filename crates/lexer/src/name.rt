// A name that an entry of a table holds itself.
ghost use Rattle.std.specs.Prelude.{◌≡◌, ◌≤◌};
ghost use Rattle.std.specs.Option.{option_map};
ghost use Rattle.base.specs.Limits.{most_name_bytes};

use crate::search::Named;
use base::limits::MOST_NAME_BYTES;

/// A name of at most 15 bytes, the first `len` of `bytes`. It holds them itself and borrows nothing. Two names are compared
/// by `name()`: there is no `PartialEq`, since the bytes past `len` may differ.
#[derive(Clone, Copy)]
pub struct Name {
    pub(crate) bytes: [u8; MOST_NAME_BYTES],
    pub(crate) len: u8,
    ghost short: { len ≤ most_name_bytes },
}

impl Named for Name {
    ghost use Rattle.lexer.specs.Names.{name_of};

    ghost spelled = { λ s. name_of s };

    fn name(&self) -> &[u8] {
        &self.bytes[..self.len as usize]
    }
}

impl Name {
    ghost use Rattle.lexer.specs.Names.{name_of, short_name};

    /// The name of no bytes.
    pub const EMPTY: Name = Name {
        bytes: [0; MOST_NAME_BYTES],
        len: 0,
    };

    /// The name that these bytes spell; none where they are over 15.
    pub fn new(text: &[u8]) -> Option<Name>
        ensures { option_map name_of result ≡ short_name text.now }
    {
        if text.len() > MOST_NAME_BYTES {
            return None;
        }
        let mut bytes = [0; MOST_NAME_BYTES];
        bytes[..text.len()].copy_from_slice(text);
        Some(Name {
            bytes,
            len: text.len() as u8,
        })
    }
}
