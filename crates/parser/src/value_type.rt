// The types of names and of expressions.
ghost use Rattle.std.specs.Prelude.{◌≡◌, Some};
ghost use Rattle.parser.specs.ValueTypes.{numeral_type, type_text};

use lexer::token::Radix;
use std::fmt;

/// The type of a name or of an expression. It prints as a declaration has it.
#[derive(Clone, Copy, PartialEq, Eq, Debug)]
pub enum ValueType {
    Integer,
    Logical,
}

impl ValueType {
    /// Answers the type of a number that is written in this radix.
    pub fn of(radix: Radix) -> ValueType
        ensures { result ≡ numeral_type radix }
    {
        match radix {
            Radix::Decimal => ValueType::Integer,
            Radix::Octal => ValueType::Logical,
        }
    }

    // The text that a declaration has for it.
    fn text(self) -> &'static str
        ensures { result.now ≡ type_text self }
    {
        match self {
            ValueType::Integer => "INTEGER",
            ValueType::Logical => "LOGICAL",
        }
    }
}

// By hand: a derive gives no contract.
impl fmt::Display for ValueType {
    ghost output = { λ t. Some (type_text t) };

    fn fmt<W: fmt::Write>(&self, f: &mut fmt::Formatter<W>) -> fmt::Result {
        f.pad(self.text())
    }
}
