// The readers of fields and shifts.
ghost use Rattle.std.specs.Prelude.{[], ◌∷◌};
ghost use Rattle.lexer.specs.declared.token.Symbol.TheVariants.{Open};
ghost use Rattle.parser.specs.Machine.{sym, bits, part};
ghost use Rattle.parser.specs.Machine.{shift as shifted, fields as fielded};
ghost use Rattle.parser.specs.Readers.{ReadsGoals};

use crate::fault::GrammarFault;
use crate::node::Node;
use crate::reader::Reader;
use crate::reader::tokens::put;
use lexer::token::Symbol;

impl Reader<'_, '_> {
    // What follows the `.` of a factor's field.
    fn field(&mut self) -> Result<(), GrammarFault>
        ensures { ReadsGoals 0 1 (sym Open ∷ bits part ∷ []) self.old self.new result }
    {
        let field = self.range()?;
        put(
            self.out,
            Node::Field(field.first, field.second, field.offset),
        );
        Ok(())
    }

    // What follows `&`: the kind of a shift, and (d).
    fn shift(&mut self) -> Result<(), GrammarFault>
        ensures { ReadsGoals 0 2 (shifted ∷ []) self.old self.new result }
    {
        let kind = self.ahead.shift().ok_or(self.ahead.unexpected())?;
        self.advance();
        self.symbol(Symbol::Open)?;
        let (n, offset) = self.number()?;
        self.symbol(Symbol::Close)?;
        put(self.out, Node::Shift(kind, n, offset));
        Ok(())
    }

    // {field or & shift}
    pub(crate) fn fields(&mut self) -> Result<(), GrammarFault>
        ensures { ReadsGoals 0 0 (fielded ∷ []) self.old self.new result }
    {
        loop {
            if self.ahead.is_symbol(Symbol::Dot) {
                self.advance();
                self.field()?;
            } else if self.ahead.is_symbol(Symbol::Ampersand) {
                self.advance();
                self.shift()?;
            } else {
                return Ok(());
            }
        }
    }
}
