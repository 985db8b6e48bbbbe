// The readers of statements.
ghost use Rattle.std.specs.Prelude.{[], ◌∷◌};
ghost use Rattle.lexer.specs.Names.{name_of};
ghost use Rattle.parser.specs.declared.lexeme.Opening.TheVariants.{Block, Conditional, Choice, While, Do};
ghost use Rattle.parser.specs.Machine.{stmt, block as a_block, otherwise as an_else, arms as some_arms, variable, stepped as a_step, inner as within, turns as the_turns};
ghost use Rattle.parser.specs.Readers.{Ready, ReadsGoals, ReadsStatement};

use crate::fault::GrammarFault;
use crate::lexeme::{Opening, PlacedName, Strength};
use crate::node::Node;
use crate::reader::Reader;
use crate::reader::tokens::put;
use lexer::token::{Keyword, Symbol};

impl Reader<'_, '_> {
    // A statement, perhaps an empty one. Its contract names each goal that may stand below it: with the contract of `begun`
    // alone the proofs of its callers are not found.
    #[cycle(statements)]
    fn statement(&mut self, levels: u8) -> Result<(), GrammarFault>
        ensures { ReadsStatement levels self.old self.new result }
    {
        self.begun(levels)
    }

    // A statement by its first token.
    #[cycle(statements)]
    #[tactic(auto, unfolding(crate::specs::Machine::statement_at))]
    fn begun(&mut self, levels: u8) -> Result<(), GrammarFault>
        ensures { ReadsGoals 0 0 (stmt levels ∷ []) self.old self.new result }
    {
        let offset = self.ahead.offset;
        if let Some(n) = self.ahead.name() {
            self.advance();
            return self.target(n, levels);
        }
        let Some(opening) = self.ahead.opening() else {
            return Ok(());
        };
        let within = self.ahead.opens(levels)?;
        self.advance();
        self.inner(opening, offset, within)
    }

    // What follows the reserved word at `offset`, which has opened a level.
    #[cycle(statements)]
    fn inner(&mut self, opening: Opening, offset: usize, levels: u8) -> Result<(), GrammarFault>
        requires { Ready 2 self.old }
        ensures { ReadsGoals 2 0 (within opening offset levels) self.old self.new result }
    {
        match opening {
            Opening::Block => self.block(levels),
            Opening::Conditional => self.conditional(levels),
            Opening::Choice => self.choice(offset, levels),
            Opening::While => self.repeat_while(levels),
            Opening::Do => self.repeat_until(levels),
            Opening::For => self.counted(offset, levels),
        }
    }

    // statement {; statement} END
    #[cycle(statements)]
    pub(crate) fn block(&mut self, levels: u8) -> Result<(), GrammarFault>
        ensures { ReadsGoals 0 0 (stmt levels ∷ a_block levels ∷ []) self.old self.new result }
    {
        self.statement(levels)?;
        while self.ahead.is_symbol(Symbol::Semicolon) {
            self.advance();
            self.statement(levels)?;
        }
        self.keyword(Keyword::End)
    }

    // After IF.
    #[cycle(statements)]
    fn conditional(&mut self, levels: u8) -> Result<(), GrammarFault>
        requires { Ready 2 self.old }
        ensures { ReadsGoals 2 0 (within Conditional 0 levels) self.old self.new result }
    {
        put(self.out, Node::If);
        self.condition(levels)?;
        self.keyword(Keyword::Then)?;
        put(self.out, Node::Then);
        self.statement(levels)?;
        self.otherwise(levels)
    }

    // Perhaps ELSE: it belongs to the nearest open THEN.
    #[cycle(statements)]
    fn otherwise(&mut self, levels: u8) -> Result<(), GrammarFault>
        requires { Ready 1 self.old }
        ensures { ReadsGoals 1 0 (an_else levels ∷ []) self.old self.new result }
    {
        if self.ahead.is_keyword(Keyword::Else) {
            self.advance();
            put(self.out, Node::Else);
            self.statement(levels)?;
            put(self.out, Node::Fi);
            return Ok(());
        }
        put(self.out, Node::Fi);
        Ok(())
    }

    // After CASE, which stands at `offset`.
    #[cycle(statements)]
    fn choice(&mut self, offset: usize, levels: u8) -> Result<(), GrammarFault>
        requires { Ready 2 self.old }
        ensures { ReadsGoals 2 0 (within Choice offset levels) self.old self.new result }
    {
        self.chain(Strength::Lor, levels)?;
        put(self.out, Node::Case(offset));
        self.keyword(Keyword::Of)?;
        self.keyword(Keyword::Begin)?;
        put(self.out, Node::Arm);
        self.arms(levels)
    }

    // The statements of a CASE, up to its END.
    #[cycle(statements)]
    fn arms(&mut self, levels: u8) -> Result<(), GrammarFault>
        ensures { ReadsGoals 0 0 (stmt levels ∷ some_arms levels ∷ []) self.old self.new result }
    {
        self.statement(levels)?;
        while self.ahead.is_symbol(Symbol::Semicolon) {
            self.advance();
            put(self.out, Node::Out);
            put(self.out, Node::Arm);
            self.statement(levels)?;
        }
        self.keyword(Keyword::End)?;
        put(self.out, Node::Out);
        put(self.out, Node::Esac);
        Ok(())
    }

    // After WHILE.
    #[cycle(statements)]
    fn repeat_while(&mut self, levels: u8) -> Result<(), GrammarFault>
        requires { Ready 2 self.old }
        ensures { ReadsGoals 2 0 (within While 0 levels) self.old self.new result }
    {
        put(self.out, Node::While);
        self.condition(levels)?;
        self.keyword(Keyword::Do)?;
        put(self.out, Node::Then);
        self.statement(levels)?;
        put(self.out, Node::Loop);
        Ok(())
    }

    // After the DO that begins a statement.
    #[cycle(statements)]
    fn repeat_until(&mut self, levels: u8) -> Result<(), GrammarFault>
        requires { Ready 2 self.old }
        ensures { ReadsGoals 2 0 (within Do 0 levels) self.old self.new result }
    {
        put(self.out, Node::Do);
        self.statement(levels)?;
        self.keyword(Keyword::Until)?;
        put(self.out, Node::Until);
        self.condition(levels)?;
        put(self.out, Node::Done);
        Ok(())
    }

    // After FOR, which stands at `offset`.
    #[cycle(statements)]
    fn counted(&mut self, offset: usize, levels: u8) -> Result<(), GrammarFault>
        requires { Ready 2 self.old }
        ensures { ReadsGoals 2 0 (variable offset levels ∷ []) self.old self.new result }
    {
        let n = self.name()?;
        self.symbol(Symbol::Becomes)?;
        self.chain(Strength::Lor, levels)?;
        put(self.out, Node::First(n.name, n.offset, offset));
        self.stepped(n, offset, levels)
    }

    // STEP and its value, or 1; then UNTIL.
    #[cycle(statements)]
    #[tactic(auto, unfolding(crate::specs::Machine::step_at))]
    fn stepped(&mut self, n: PlacedName, offset: usize, levels: u8) -> Result<(), GrammarFault>
        ensures { ReadsGoals 0 0 (a_step (name_of n.name) n.offset offset levels ∷ []) self.old self.new result }
    {
        if self.ahead.is_keyword(Keyword::Step) {
            self.advance();
            self.chain(Strength::Lor, levels)?;
            put(self.out, Node::Step(offset));
            self.keyword(Keyword::Until)?;
            return self.turns(n, offset, levels);
        }
        self.keyword(Keyword::Until)?;
        put(self.out, Node::One);
        self.turns(n, offset, levels)
    }

    // The limit of a FOR, DO and its statement.
    #[cycle(statements)]
    #[tactic(auto, unfolding(crate::specs::Machine::limit_at))]
    fn turns(&mut self, n: PlacedName, offset: usize, levels: u8) -> Result<(), GrammarFault>
        ensures { ReadsGoals 0 0 (the_turns (name_of n.name) n.offset offset levels ∷ []) self.old self.new result }
    {
        self.chain(Strength::Lor, levels)?;
        put(self.out, Node::For(n.name, n.offset, offset));
        self.keyword(Keyword::Do)?;
        self.statement(levels)?;
        put(self.out, Node::Next(n.name));
        put(self.out, Node::Drop);
        Ok(())
    }
}
