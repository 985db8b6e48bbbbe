// The reserved words.
ghost use Rattle.std.specs.Prelude.{◌≡◌, map};
ghost use Rattle.lexer.specs.Reserved.{entry_of, word_bytes, reserved_words, keyword_of};

use crate::search::{Named, find};
use crate::token::Keyword;
use base::limits::MOST_NAME_BYTES;

// A reserved word: the bytes that spell it, of which there are `len`, and which keyword it is. It holds the bytes itself, and
// not a `Name`: the toolchain takes no static of a struct with a ghost field, and a constant would be made anew at each search.
#[derive(Clone, Copy)]
struct Reserved {
    bytes: [u8; MOST_NAME_BYTES],
    len: u8,
    keyword: Keyword,
}

impl Named for Reserved {
    ghost spelled = { λ s. word_bytes s };

    fn name(&self) -> &[u8] {
        let len = usize::from(self.len);
        &self.bytes[..len.min(MOST_NAME_BYTES)]
    }
}

static RESERVED: [Reserved; 30] = [
    Reserved {
        bytes: *b"BEGIN\0\0\0\0\0\0\0\0\0\0",
        len: 5,
        keyword: Keyword::Begin,
    },
    Reserved {
        bytes: *b"END\0\0\0\0\0\0\0\0\0\0\0\0",
        len: 3,
        keyword: Keyword::End,
    },
    Reserved {
        bytes: *b"INTEGER\0\0\0\0\0\0\0\0",
        len: 7,
        keyword: Keyword::Integer,
    },
    Reserved {
        bytes: *b"LOGICAL\0\0\0\0\0\0\0\0",
        len: 7,
        keyword: Keyword::Logical,
    },
    Reserved {
        bytes: *b"ARRAY\0\0\0\0\0\0\0\0\0\0",
        len: 5,
        keyword: Keyword::Array,
    },
    Reserved {
        bytes: *b"IF\0\0\0\0\0\0\0\0\0\0\0\0\0",
        len: 2,
        keyword: Keyword::If,
    },
    Reserved {
        bytes: *b"THEN\0\0\0\0\0\0\0\0\0\0\0",
        len: 4,
        keyword: Keyword::Then,
    },
    Reserved {
        bytes: *b"ELSE\0\0\0\0\0\0\0\0\0\0\0",
        len: 4,
        keyword: Keyword::Else,
    },
    Reserved {
        bytes: *b"CASE\0\0\0\0\0\0\0\0\0\0\0",
        len: 4,
        keyword: Keyword::Case,
    },
    Reserved {
        bytes: *b"OF\0\0\0\0\0\0\0\0\0\0\0\0\0",
        len: 2,
        keyword: Keyword::Of,
    },
    Reserved {
        bytes: *b"WHILE\0\0\0\0\0\0\0\0\0\0",
        len: 5,
        keyword: Keyword::While,
    },
    Reserved {
        bytes: *b"DO\0\0\0\0\0\0\0\0\0\0\0\0\0",
        len: 2,
        keyword: Keyword::Do,
    },
    Reserved {
        bytes: *b"UNTIL\0\0\0\0\0\0\0\0\0\0",
        len: 5,
        keyword: Keyword::Until,
    },
    Reserved {
        bytes: *b"FOR\0\0\0\0\0\0\0\0\0\0\0\0",
        len: 3,
        keyword: Keyword::For,
    },
    Reserved {
        bytes: *b"STEP\0\0\0\0\0\0\0\0\0\0\0",
        len: 4,
        keyword: Keyword::Step,
    },
    Reserved {
        bytes: *b"OR\0\0\0\0\0\0\0\0\0\0\0\0\0",
        len: 2,
        keyword: Keyword::Or,
    },
    Reserved {
        bytes: *b"AND\0\0\0\0\0\0\0\0\0\0\0\0",
        len: 3,
        keyword: Keyword::And,
    },
    Reserved {
        bytes: *b"MOD\0\0\0\0\0\0\0\0\0\0\0\0",
        len: 3,
        keyword: Keyword::Mod,
    },
    Reserved {
        bytes: *b"LNOT\0\0\0\0\0\0\0\0\0\0\0",
        len: 4,
        keyword: Keyword::Lnot,
    },
    Reserved {
        bytes: *b"LAND\0\0\0\0\0\0\0\0\0\0\0",
        len: 4,
        keyword: Keyword::Land,
    },
    Reserved {
        bytes: *b"XOR\0\0\0\0\0\0\0\0\0\0\0\0",
        len: 3,
        keyword: Keyword::Xor,
    },
    Reserved {
        bytes: *b"LOR\0\0\0\0\0\0\0\0\0\0\0\0",
        len: 3,
        keyword: Keyword::Lor,
    },
    Reserved {
        bytes: *b"LSL\0\0\0\0\0\0\0\0\0\0\0\0",
        len: 3,
        keyword: Keyword::Lsl,
    },
    Reserved {
        bytes: *b"LSR\0\0\0\0\0\0\0\0\0\0\0\0",
        len: 3,
        keyword: Keyword::Lsr,
    },
    Reserved {
        bytes: *b"ASR\0\0\0\0\0\0\0\0\0\0\0\0",
        len: 3,
        keyword: Keyword::Asr,
    },
    Reserved {
        bytes: *b"CSL\0\0\0\0\0\0\0\0\0\0\0\0",
        len: 3,
        keyword: Keyword::Csl,
    },
    Reserved {
        bytes: *b"CSR\0\0\0\0\0\0\0\0\0\0\0\0",
        len: 3,
        keyword: Keyword::Csr,
    },
    Reserved {
        bytes: *b"TRUE\0\0\0\0\0\0\0\0\0\0\0",
        len: 4,
        keyword: Keyword::True,
    },
    Reserved {
        bytes: *b"FALSE\0\0\0\0\0\0\0\0\0\0",
        len: 5,
        keyword: Keyword::False,
    },
    Reserved {
        bytes: *b"COMMENT\0\0\0\0\0\0\0\0",
        len: 7,
        keyword: Keyword::Comment,
    },
];

// The words in the order in which they are searched.
#[tactic(auto, unfolding(crate::specs::Reserved::reserved_words))]
fn table() -> &'static [Reserved; 30]
    ensures { map entry_of result.now ≡ reserved_words }
{
    &RESERVED
}

/// Which reserved word these bytes spell, if they spell one.
#[tactic(auto, using(crate::proofs::Lookups::keyword_some, crate::proofs::Lookups::keyword_none))]
pub fn keyword(word: &[u8]) -> Option<Keyword>
    ensures { result ≡ keyword_of word.now }
{
    let words = table();
    let i = find(words, word)?;
    Some(words[i].keyword)
}
