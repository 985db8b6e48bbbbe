// Tokens, and the radices, symbols and reserved words that they are told apart by.
ghost use Rattle.std.specs.Prelude.{◌≡◌, Some};
ghost use Rattle.lexer.specs.Lexemes.{base_of, digit_of, most_of, symbol_text};

use std::fmt;

/// A part of the source that is a token. Its offset is that of its first byte, in bytes.
#[derive(Clone, Copy, PartialEq, Eq, Debug)]
pub enum Token<'a> {
    /// A word: its bytes and its offset.
    Word(&'a [u8], usize),
    /// A number: its bytes (including a `%`), its radix, its value and its offset.
    Number(&'a [u8], Radix, u16, usize),
    /// A symbol: which one it is, and its offset.
    Symbol(Symbol, usize),
}

/// How a number is written: with decimal digits, or with `%` and octal digits.
#[derive(Clone, Copy, PartialEq, Eq, Debug)]
pub enum Radix {
    Decimal,
    Octal,
}

impl Radix {
    // The base of its digits.
    pub(crate) fn base(self) -> u16
        ensures { result ≡ base_of self }
    {
        match self {
            Radix::Decimal => 10,
            Radix::Octal => 8,
        }
    }

    // The largest value of a number of this radix.
    pub(crate) fn most(self) -> u16
        ensures { result ≡ most_of self }
    {
        match self {
            Radix::Decimal => 32767,
            Radix::Octal => 65535,
        }
    }

    // Whether this byte is a digit of numbers of this radix.
    pub(crate) fn has_digit(self, b: u8) -> bool
        ensures { result ≡ digit_of self b }
    {
        match self {
            Radix::Decimal => b.is_ascii_digit(),
            Radix::Octal => matches!(b, b'0'..=b'7'),
        }
    }
}

/// A token of one or two bytes that is neither a word nor a number. It prints as a source has it.
#[derive(Clone, Copy, PartialEq, Eq, Debug)]
pub enum Symbol {
    /// `:=`
    Becomes,
    Unequal,
    AtMost,
    AtLeast,
    Semicolon,
    Comma,
    Dot,
    Open,
    Close,
    Colon,
    Equal,
    Less,
    Greater,
    Plus,
    Minus,
    Times,
    Divide,
    Ampersand,
}

impl Symbol {
    // How a source writes it.
    fn text(self) -> &'static str
        ensures { result.now ≡ symbol_text self }
    {
        match self {
            Symbol::Becomes => ":=",
            Symbol::Unequal => "<>",
            Symbol::AtMost => "<=",
            Symbol::AtLeast => ">=",
            Symbol::Semicolon => ";",
            Symbol::Comma => ",",
            Symbol::Dot => ".",
            Symbol::Open => "(",
            Symbol::Close => ")",
            Symbol::Colon => ":",
            Symbol::Equal => "=",
            Symbol::Less => "<",
            Symbol::Greater => ">",
            Symbol::Plus => "+",
            Symbol::Minus => "-",
            Symbol::Times => "*",
            Symbol::Divide => "/",
            Symbol::Ampersand => "&",
        }
    }
}

// By hand: a derive gives no contract.
impl fmt::Display for Symbol {
    ghost output = { λ s. Some (symbol_text s) };

    fn fmt<W: fmt::Write>(&self, f: &mut fmt::Formatter<W>) -> fmt::Result {
        f.pad(self.text())
    }
}

/// A reserved word, which no name may be.
#[derive(Clone, Copy, PartialEq, Eq, Debug)]
pub enum Keyword {
    Begin,
    End,
    Integer,
    Logical,
    Array,
    If,
    Then,
    Else,
    Case,
    Of,
    While,
    Do,
    Until,
    For,
    Step,
    Or,
    And,
    Mod,
    Lnot,
    Land,
    Xor,
    Lor,
    Lsl,
    Lsr,
    Asr,
    Csl,
    Csr,
    True,
    False,
    Comment,
}
