// A whole source: its first refusal, or all its tokens.
ghost use Rattle.std.specs.Prelude.{◌≡◌, List, [], IfOk};
ghost use Rattle.lexer.specs.declared.token.Token.{Token};
ghost use Rattle.lexer.specs.Whole.{PassesText, ListsTokens};
ghost use Rattle.lexer.specs.Theorems.{TextStands};

use crate::fault::TextFault;
use crate::scan::{next, peek};
use crate::token::Token;
use base::limits::MOST_SOURCE_BYTES;
use base::reserved::Reserved;
use std::alloc::{AllocError, Global};
use std::marker::Model;

/// Looks at the whole source, before any of its tokens is used, and answers the refusal at the smallest place, if there is
/// one. Refuses with 1 where the source has over 32,768 bytes, with 2 where no token begins, with 3 at a bad word or number,
/// and with 4 at a comment without an end.
#[tactic(auto, unfolding(crate::specs::Cut::token_list))]
pub fn check(source: &[u8]) -> Result<(), TextFault>
    ensures { PassesText source.now result }
{
    if source.len() > MOST_SOURCE_BYTES {
        return Err(TextFault::TooLong);
    }
    let end = source.len();
    let mut rest = source;
    while let Some((_, after)) = next(rest, end)? {
        rest = after;
    }
    Ok(())
}

/// The tokens of the source that was cut last. There is room for 32,768, since no source has more tokens than bytes. It is
/// made once and serves any number of sources.
#[derive(Drop)]
pub struct Tokens<'a> {
    list: Reserved<Token<'a>, MOST_SOURCE_BYTES>,
}

// Contracts see the tokens of the source that was cut last.
impl<'a> Model for Tokens<'a> {
    ghost Value = { List Token };

    ghost view = { λ s. s.list };
}

impl<'a> Tokens<'a> {
    /// Reserves the room. This is the only call that asks for memory, and it fails where the heap has too little.
    pub fn new(heap: Global) -> Result<Tokens<'a>, AllocError>
        ensures { IfOk result (λ t. t ≡ []) }
    {
        let list = Reserved::new(heap)?;
        Ok(Tokens { list })
    }

    /// Puts all tokens of the source here, in their order and in place of those that were here. Refuses as `check` does,
    /// with 1 to 4, and then there are none.
    #[tactic(auto, using(crate::proofs::Readings::reads_short))]
    pub fn cut(&mut self, source: &'a [u8]) -> Result<(), TextFault>
        ensures { ListsTokens source.now self.new result }
    {
        self.list.clear();
        check(source)?;
        let end = source.len();
        let mut rest = source;
        while let Some((t, after)) = peek(rest, end) {
            let _ = self.list.push(t);
            rest = after;
        }
        Ok(())
    }

    /// The tokens of the source that was cut last, in their order; none where it was refused.
    pub fn as_slice(&self) -> &[Token<'a>]
        ensures { result.now ≡ self.now }
    {
        self.list.as_slice()
    }
}

/// A law: tokens, blanks and comments put together again are the source; each token is the longest that begins at its offset;
/// a refusal stands at the first byte where no token begins.
#[tactic(auto, using(crate::proofs::Readings::text_stands))]
pub fn text_stands()
    ensures { TextStands }
{}
