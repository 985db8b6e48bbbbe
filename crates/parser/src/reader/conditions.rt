// The readers of conditions.
ghost use Rattle.std.specs.Prelude.{[], ◌∷◌};
ghost use Rattle.parser.specs.Machine.{test as a_test, clauses as some_clauses};
ghost use Rattle.parser.specs.Readers.{ReadsGoals};

use crate::fault::GrammarFault;
use crate::lexeme::Strength;
use crate::node::Node;
use crate::reader::Reader;
use crate::reader::tokens::put;
use lexer::token::Keyword;

impl Reader<'_, '_> {
    // clause {OR clause}, each of them expr {AND expr}
    pub(crate) fn condition(&mut self, levels: u8) -> Result<(), GrammarFault>
        ensures { ReadsGoals 0 0 (a_test levels ∷ some_clauses levels ∷ []) self.old self.new result }
    {
        self.test(levels)?;
        loop {
            if self.ahead.is_keyword(Keyword::And) {
                self.advance();
                self.test(levels)?;
            } else if self.ahead.is_keyword(Keyword::Or) {
                self.advance();
                put(self.out, Node::Or);
                self.test(levels)?;
            } else {
                return Ok(());
            }
        }
    }

    // One expression of a condition.
    fn test(&mut self, levels: u8) -> Result<(), GrammarFault>
        ensures { ReadsGoals 0 0 (a_test levels ∷ []) self.old self.new result }
    {
        let offset = self.ahead.offset;
        self.chain(Strength::Lor, levels)?;
        put(self.out, Node::Test(offset));
        Ok(())
    }
}
