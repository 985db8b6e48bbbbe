// Tokens as the grammar looks at them.
ghost use Rattle.std.specs.Prelude.{◌≡◌};

use lexer::name::Name;
use lexer::token::{Keyword, Radix, Symbol};

/// What a token is to the grammar: a reserved word, a symbol, a name, a number, or the end of the text.
#[derive(Clone, Copy)]
pub enum Sort {
    Keyword(Keyword),
    Symbol(Symbol),
    Name(Name),
    /// Its radix, its value.
    Number(Radix, u16),
    /// The end of the text.
    Stop,
}

/// A token as the grammar looks at it, or the end of the text.
#[derive(Clone, Copy)]
pub struct Lexeme {
    pub sort: Sort,
    /// The offset of its first byte, in bytes. The end of the text has the length of the source.
    pub offset: usize,
}

// A name, and its offset.
#[derive(Clone, Copy)]
pub(crate) struct PlacedName {
    pub name: Name,
    pub offset: usize,
}

/// The strength of a binary operator, from the weakest to the strongest.
#[derive(Clone, Copy, PartialEq, Eq, Debug)]
pub enum Strength {
    Lor,
    Xor,
    Land,
    /// `=` `<>` `<` `<=` `>` `>=`
    Relation,
    /// `+` `-`
    Sum,
    /// `*` `/` MOD
    Term,
}

/// What a reserved word opens where a statement may begin.
#[derive(Clone, Copy, PartialEq, Eq, Debug)]
pub enum Opening {
    /// BEGIN.
    Block,
    /// IF.
    Conditional,
    /// CASE.
    Choice,
    /// WHILE, whose condition comes before its statement.
    While,
    /// DO, whose condition comes after its statement.
    Do,
    /// FOR.
    For,
}

impl Lexeme {
    pub(crate) fn new(sort: Sort, offset: usize) -> Lexeme
        ensures { result ≡ record { sort = sort; offset = offset } }
    {
        Lexeme { sort, offset }
    }
}
