// The classes of tokens that the grammar tells apart.
ghost use Rattle.std.specs.Prelude.{◌≡◌, T, IfSome, option_map};
ghost use Rattle.parser.specs.declared.fault.GrammarFault.TheVariants.{Unexpected};
ghost use Rattle.parser.specs.Marks.{mark_of, live, IsClassed, OpensLevel, word_at, is_symbol, is_keyword, decimal_of, type_of, shift_of, shift_word, type_word, truth_word, opening_word, operator_of, operator_at, operator_sign, operator_word, strength_of, literal_of, spelled_of, opening_of, is_stop};
ghost use Rattle.lexer.specs.Names.{name_of};

use crate::fault::GrammarFault;
use crate::lexeme::{Lexeme, Opening, PlacedName, Sort, Strength};
use crate::node::Operator;
use crate::value_type::ValueType;
use arith::shift::Kind as ShiftKind;
use lexer::token::{Keyword, Radix, Symbol};

// The operator that a reserved word is, if it is one.
fn operator_word(w: Keyword) -> Option<Operator>
    ensures { result ≡ operator_word w }
{
    match w {
        Keyword::Mod => Some(Operator::Mod),
        Keyword::Land => Some(Operator::Land),
        Keyword::Xor => Some(Operator::Xor),
        Keyword::Lor => Some(Operator::Lor),
        _ => None,
    }
}

// The operator that a symbol is, if it is one.
fn operator_sign(s: Symbol) -> Option<Operator>
    ensures { result ≡ operator_sign s }
{
    match s {
        Symbol::Times => Some(Operator::Times),
        Symbol::Divide => Some(Operator::Divide),
        Symbol::Plus => Some(Operator::Plus),
        Symbol::Minus => Some(Operator::Minus),
        Symbol::Equal => Some(Operator::Equal),
        Symbol::Unequal => Some(Operator::Unequal),
        Symbol::Less => Some(Operator::Less),
        Symbol::AtMost => Some(Operator::AtMost),
        Symbol::Greater => Some(Operator::Greater),
        Symbol::AtLeast => Some(Operator::AtLeast),
        _ => None,
    }
}

// The type that a reserved word names, if it names one.
fn type_word(w: Keyword) -> Option<ValueType>
    ensures { result ≡ type_word w }
{
    match w {
        Keyword::Integer => Some(ValueType::Integer),
        Keyword::Logical => Some(ValueType::Logical),
        _ => None,
    }
}

// The shift that a reserved word names, if it names one.
fn shift_word(w: Keyword) -> Option<ShiftKind>
    ensures { result ≡ shift_word w }
{
    match w {
        Keyword::Lsl => Some(ShiftKind::Lsl),
        Keyword::Lsr => Some(ShiftKind::Lsr),
        Keyword::Asr => Some(ShiftKind::Asr),
        Keyword::Csl => Some(ShiftKind::Csl),
        Keyword::Csr => Some(ShiftKind::Csr),
        _ => None,
    }
}

// The word that TRUE or FALSE stands for; none for another reserved word.
fn truth_word(w: Keyword) -> Option<u16>
    ensures { result ≡ truth_word w }
{
    match w {
        Keyword::True => Some(65535),
        Keyword::False => Some(0),
        _ => None,
    }
}

// What a reserved word opens where a statement may begin, if it opens something.
fn opening_word(w: Keyword) -> Option<Opening>
    ensures { result ≡ opening_word w }
{
    match w {
        Keyword::Begin => Some(Opening::Block),
        Keyword::If => Some(Opening::Conditional),
        Keyword::Case => Some(Opening::Choice),
        Keyword::While => Some(Opening::While),
        Keyword::Do => Some(Opening::Do),
        Keyword::For => Some(Opening::For),
        _ => None,
    }
}

impl Operator {
    fn strength(self) -> Strength
        ensures { result ≡ strength_of self }
    {
        match self {
            Operator::Times | Operator::Divide | Operator::Mod => Strength::Term,
            Operator::Plus | Operator::Minus => Strength::Sum,
            Operator::Land => Strength::Land,
            Operator::Xor => Strength::Xor,
            Operator::Lor => Strength::Lor,
            _ => Strength::Relation,
        }
    }
}

impl Lexeme {
    // The refusal 5 at this token.
    pub(crate) fn unexpected(self) -> GrammarFault
        ensures { result ≡ Unexpected self.offset }
    {
        GrammarFault::Unexpected(self.offset)
    }

    // Whether the token is this symbol.
    pub(crate) fn is_symbol(self, want: Symbol) -> bool
        ensures value { result ≡ is_symbol want (mark_of self.sort) }
        ensures live { T result → live (mark_of self.sort) ≡ 1 }
    {
        match self.sort {
            Sort::Symbol(s) => want == s,
            _ => false,
        }
    }

    // Whether the token is this reserved word.
    pub(crate) fn is_keyword(self, want: Keyword) -> bool
        ensures value { result ≡ is_keyword want (mark_of self.sort) }
        ensures live { T result → live (mark_of self.sort) ≡ 1 }
    {
        match self.sort {
            Sort::Keyword(w) => want == w,
            _ => false,
        }
    }

    // Whether this is the end of the text.
    pub(crate) fn is_stop(self) -> bool
        ensures { result ≡ is_stop (mark_of self.sort) }
    {
        matches!(self.sort, Sort::Stop)
    }

    fn keyword(self) -> Option<Keyword>
        ensures { IsClassed word_at self result }
    {
        match self.sort {
            Sort::Keyword(w) => Some(w),
            _ => None,
        }
    }

    fn any_operator(self) -> Option<Operator>
        ensures { IsClassed operator_of self result }
    {
        match self.sort {
            Sort::Keyword(w) => operator_word(w),
            Sort::Symbol(s) => operator_sign(s),
            _ => None,
        }
    }

    // The operator that the token is, if it is one of this strength.
    pub(crate) fn operator(self, s: Strength) -> Option<Operator>
        ensures { IsClassed (operator_at s) self result }
    {
        self.any_operator().filter(|o| s == o.strength())
    }

    pub(crate) fn value_type(self) -> Option<ValueType>
        ensures { IsClassed type_of self result }
    {
        type_word(self.keyword()?)
    }

    pub(crate) fn shift(self) -> Option<ShiftKind>
        ensures { IsClassed shift_of self result }
    {
        shift_word(self.keyword()?)
    }

    pub(crate) fn opening(self) -> Option<Opening>
        ensures { IsClassed opening_of self result }
    {
        opening_word(self.keyword()?)
    }

    // The value of a decimal number, if the token is one.
    pub(crate) fn decimal(self) -> Option<u16>
        ensures { IsClassed decimal_of self result }
    {
        match self.sort {
            Sort::Number(Radix::Decimal, v) => Some(v),
            _ => None,
        }
    }

    // The word and the type of a number, TRUE or FALSE, if the token is one.
    pub(crate) fn literal(self) -> Option<(u16, ValueType)>
        ensures { IsClassed literal_of self result }
    {
        match self.sort {
            Sort::Number(radix, v) => Some((v, ValueType::of(radix))),
            Sort::Keyword(w) => Some((truth_word(w)?, ValueType::Logical)),
            _ => None,
        }
    }

    pub(crate) fn name(self) -> Option<PlacedName>
        ensures name { IsClassed spelled_of self (option_map (λ n. name_of n.name) result) }
        ensures offset { IfSome result (λ n. n.offset ≡ self.offset) }
    {
        match self.sort {
            Sort::Name(name) => Some(PlacedName {
                name,
                offset: self.offset,
            }),
            _ => None,
        }
    }

    // How many of `levels` are left where the token opens one. Refuses with 6 at the token where none was left.
    pub(crate) fn opens(self, levels: u8) -> Result<u8, GrammarFault>
        ensures { OpensLevel self levels result }
    {
        if levels == 0 {
            return Err(GrammarFault::TooDeep(self.offset));
        }
        Ok(levels - 1)
    }
}
