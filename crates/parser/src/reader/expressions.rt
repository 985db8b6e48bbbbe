// The readers of expressions, primaries and subscripts, which contain one another.
ghost use Rattle.std.specs.Prelude.{[], ◌∷◌};
ghost use Rattle.lexer.specs.Names.{name_of};
ghost use Rattle.parser.specs.Machine.{wants, right, fields, relation as a_relation, lead as a_lead, compare as a_compare, primary as a_primary, named as a_named, paren as a_paren};
ghost use Rattle.parser.specs.Readers.{Ready, ReadsGoals, ReadsFirst};

use crate::fault::GrammarFault;
use crate::lexeme::{PlacedName, Strength};
use crate::node::Node;
use crate::reader::Reader;
use crate::reader::tokens::put;
use lexer::token::{Keyword, Symbol};

impl Reader<'_, '_> {
    // Operands joined by operators of strength `s`, which group to the left.
    #[cycle(expressions)]
    pub(crate) fn chain(&mut self, s: Strength, levels: u8) -> Result<(), GrammarFault>
        ensures { ReadsGoals 0 1 (wants s levels) self.old self.new result }
    {
        self.first(s, levels)?;
        while let Some(o) = self.ahead.operator(s) {
            let offset = self.ahead.offset;
            self.advance();
            self.operand(s, levels)?;
            put(self.out, Node::Binary(o, offset));
        }
        Ok(())
    }

    // The leftmost operand of operators of strength `s`.
    #[cycle(expressions)]
    fn first(&mut self, s: Strength, levels: u8) -> Result<(), GrammarFault>
        ensures { ReadsFirst s levels self.old self.new result }
    {
        match s {
            Strength::Sum => self.lead(levels),
            _ => self.operand(s, levels),
        }
    }

    // The operand right of an operator of strength `s`.
    #[cycle(expressions)]
    fn operand(&mut self, s: Strength, levels: u8) -> Result<(), GrammarFault>
        ensures { ReadsGoals 0 1 (right s levels) self.old self.new result }
    {
        match s {
            Strength::Lor => self.chain(Strength::Xor, levels),
            Strength::Xor => self.chain(Strength::Land, levels),
            Strength::Land => self.relation(levels),
            Strength::Relation => self.chain(Strength::Sum, levels),
            Strength::Sum => self.chain(Strength::Term, levels),
            Strength::Term => self.factor(levels),
        }
    }

    // LNOT and what it applies to, or a sum and perhaps another that it is compared with.
    #[cycle(expressions)]
    fn relation(&mut self, levels: u8) -> Result<(), GrammarFault>
        ensures { ReadsGoals 0 1 (a_relation levels ∷ []) self.old self.new result }
    {
        if self.ahead.is_keyword(Keyword::Lnot) {
            let offset = self.ahead.offset;
            let within = self.ahead.opens(levels)?;
            self.advance();
            self.relation(within)?;
            put(self.out, Node::Lnot(offset));
            return Ok(());
        }
        self.chain(Strength::Sum, levels)?;
        self.compare(levels)
    }

    // Perhaps a relation's operator, and the sum right of it.
    #[cycle(expressions)]
    fn compare(&mut self, levels: u8) -> Result<(), GrammarFault>
        ensures { ReadsGoals 0 0 (a_compare levels ∷ []) self.old self.new result }
    {
        if let Some(o) = self.ahead.operator(Strength::Relation) {
            let offset = self.ahead.offset;
            self.advance();
            self.chain(Strength::Sum, levels)?;
            put(self.out, Node::Binary(o, offset));
        }
        Ok(())
    }

    // The first term of a sum, perhaps with `-` before the whole of it.
    #[cycle(expressions)]
    fn lead(&mut self, levels: u8) -> Result<(), GrammarFault>
        ensures { ReadsGoals 0 1 (a_lead levels ∷ []) self.old self.new result }
    {
        if self.ahead.is_symbol(Symbol::Minus) {
            let offset = self.ahead.offset;
            self.advance();
            self.chain(Strength::Term, levels)?;
            put(self.out, Node::Negate(offset));
            return Ok(());
        }
        self.chain(Strength::Term, levels)
    }

    // primary {field or & shift}
    #[cycle(expressions)]
    fn factor(&mut self, levels: u8) -> Result<(), GrammarFault>
        ensures { ReadsGoals 0 1 (a_primary levels ∷ fields ∷ []) self.old self.new result }
    {
        self.primary(levels)?;
        self.fields()
    }

    // A number, TRUE or FALSE, a conversion, a name with or without a subscript, or an expression in parentheses.
    #[cycle(expressions)]
    fn primary(&mut self, levels: u8) -> Result<(), GrammarFault>
        ensures { ReadsGoals 0 1 (a_primary levels ∷ []) self.old self.new result }
    {
        if let Some((v, value_type)) = self.ahead.literal() {
            self.advance();
            put(self.out, Node::Number(v, value_type));
            return Ok(());
        }
        if let Some(value_type) = self.ahead.value_type() {
            self.advance();
            self.paren(levels)?;
            put(self.out, Node::Convert(value_type));
            return Ok(());
        }
        if let Some(n) = self.ahead.name() {
            self.advance();
            return self.named(n, levels);
        }
        self.paren(levels)
    }

    // What may follow a name: its subscript.
    #[cycle(expressions)]
    fn named(&mut self, n: PlacedName, levels: u8) -> Result<(), GrammarFault>
        requires { Ready 2 self.old }
        ensures { ReadsGoals 2 1 (a_named (name_of n.name) n.offset levels ∷ []) self.old self.new result }
    {
        if self.ahead.is_symbol(Symbol::Open) {
            let paren = self.ahead.offset;
            self.paren(levels)?;
            put(self.out, Node::Index(n.name, n.offset, paren));
            return Ok(());
        }
        put(self.out, Node::Load(n.name, n.offset));
        Ok(())
    }

    // An expression in parentheses, which open a level.
    #[cycle(expressions)]
    pub(crate) fn paren(&mut self, levels: u8) -> Result<(), GrammarFault>
        ensures { ReadsGoals 0 2 (a_paren levels ∷ []) self.old self.new result }
    {
        if !self.ahead.is_symbol(Symbol::Open) {
            return Err(self.ahead.unexpected());
        }
        let within = self.ahead.opens(levels)?;
        self.advance();
        self.chain(Strength::Lor, within)?;
        self.symbol(Symbol::Close)
    }
}
