// The next token of a text, as the grammar looks at it.
ghost use Rattle.std.specs.Prelude.{◌≡◌, ◌+◌, ◌≤◌, List, length};
ghost use Rattle.base.specs.Limits.{most_name_bytes};
ghost use Rattle.lexer.specs.Cut.{piece, Short};
ghost use Rattle.lexer.specs.Reserved.{keyword_of};
ghost use Rattle.parser.specs.Nodes.{Node};
ghost use Rattle.parser.specs.Marks.{mark_of, tok_of, piece_tok, word_mark, live};
ghost use Rattle.parser.specs.Machine.{Goal, feed, behind};

use crate::lexeme::{Lexeme, Sort};
use lexer::name::Name;
use lexer::reserved::keyword;
use lexer::scan::peek;
use lexer::token::Token;

// A reserved word or a name, by its bytes.
fn word(bytes: &[u8]) -> Sort
    requires { length bytes.now ≤ most_name_bytes }
    ensures { mark_of result ≡ word_mark bytes.now (keyword_of bytes.now) }
{
    match keyword(bytes) {
        Some(w) => Sort::Keyword(w),
        None => Sort::Name(Name::new(bytes).unwrap()),
    }
}

// A token as the grammar looks at it. Its word, if it is one, has at most 15 bytes.
fn lexeme(t: Token<'_>) -> Lexeme
    requires { Short (piece t) }
    ensures { tok_of result ≡ piece_tok (piece t.entry) }
{
    match t {
        Token::Word(bytes, offset) => Lexeme::new(word(bytes), offset),
        Token::Number(_, radix, v, offset) => Lexeme::new(Sort::Number(radix, v), offset),
        Token::Symbol(s, offset) => Lexeme::new(Sort::Symbol(s), offset),
    }
}

// The next token of `text`, which is what is left of a source that ends at the offset `end`, and the text after it;
// the end of the text if there is none.
pub(crate) fn scan<'a>(text: &'a [u8], end: usize) -> (Lexeme, &'a [u8])
    ensures onward { (k : List Goal) (o : List Node)
        → behind end text.now k o ≡ feed (tok_of result.0) (behind end result.1.now) k o }
    ensures less { length result.1.now + live (mark_of result.0.sort) ≤ length text.now }
{
    match peek(text, end) {
        Some((t, after)) => (lexeme(t), after),
        None => (Lexeme::new(Sort::Stop, end), text),
    }
}
