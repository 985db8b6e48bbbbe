// The readers of declarations, and of a whole program.
ghost use Rattle.std.specs.Prelude.{◌+◌, ◌*◌, ◌≤◌, [], ◌∷◌, IfOk, length};
ghost use Rattle.base.specs.Limits.{most_nodes};
ghost use Rattle.parser.specs.Nodes.{node_list};
ghost use Rattle.parser.specs.Machine.{declarations as some_declarations, typed as a_typed, declaration_goal as declared_as, comma};
ghost use Rattle.parser.specs.Readers.{ReadsGoals, ReadsProgram, ReadsWhole};

use crate::fault::GrammarFault;
use crate::node::{Node, Nodes};
use crate::reader::Reader;
use crate::reader::tokens::put;
use crate::scan::scan;
use crate::value_type::ValueType;
use base::limits::MOST_LEVELS;
use lexer::token::{Keyword, Symbol};

impl Reader<'_, '_> {
    // {declaration ;}
    pub(crate) fn declarations(&mut self) -> Result<(), GrammarFault>
        ensures { ReadsGoals 0 0 (some_declarations ∷ []) self.old self.new result }
    {
        loop {
            if let Some(value_type) = self.ahead.value_type() {
                self.advance();
                self.typed(value_type)?;
            } else if self.ahead.is_keyword(Keyword::Array) {
                self.advance();
                self.listed(true, ValueType::Logical)?;
            } else {
                return Ok(());
            }
        }
    }

    // What follows a type: ARRAY and its items, or names.
    fn typed(&mut self, value_type: ValueType) -> Result<(), GrammarFault>
        ensures { ReadsGoals 0 0 (a_typed value_type ∷ []) self.old self.new result }
    {
        if self.ahead.is_keyword(Keyword::Array) {
            self.advance();
            return self.listed(true, value_type);
        }
        self.listed(false, value_type)
    }

    // Names, or where `array` is set items of an array declaration, with commas between them and `;` after them.
    fn listed(&mut self, array: bool, value_type: ValueType) -> Result<(), GrammarFault>
        ensures { ReadsGoals 0 0 (declared_as array value_type ∷ comma array value_type ∷ []) self.old self.new result }
    {
        self.declared(array, value_type)?;
        while self.ahead.is_symbol(Symbol::Comma) {
            self.advance();
            self.declared(array, value_type)?;
        }
        self.symbol(Symbol::Semicolon)
    }

    // A name, and its bounds where `array` is set.
    fn declared(&mut self, array: bool, value_type: ValueType) -> Result<(), GrammarFault>
        ensures { ReadsGoals 0 0 (declared_as array value_type ∷ []) self.old self.new result }
    {
        let named = self.name()?;
        if array {
            let bounds = self.range()?;
            put(
                self.out,
                Node::Array(
                    named.name,
                    value_type,
                    bounds.first,
                    bounds.second,
                    named.offset,
                    bounds.offset,
                ),
            );
        } else {
            put(self.out, Node::Simple(named.name, value_type, named.offset));
        }
        Ok(())
    }

    // BEGIN, declarations, statements, END, `.`, and nothing more.
    pub(crate) fn program(&mut self) -> Result<(), GrammarFault>
        ensures { ReadsProgram self.old self.new result }
    {
        self.keyword(Keyword::Begin)?;
        self.declarations()?;
        self.block(MOST_LEVELS - 1)?;
        self.symbol(Symbol::Dot)?;
        if !self.ahead.is_stop() {
            return Err(self.ahead.unexpected());
        }
        Ok(())
    }
}

// Reads all of `source` as a program, and writes its list. Each byte leads to two nodes at most.
pub(crate) fn whole(source: &[u8], out: &mut Nodes) -> Result<(), GrammarFault>
    requires { length out.old + 2 * length source.now ≤ most_nodes }
    ensures done { ReadsWhole source.now (node_list out.old) (node_list out.new) result }
    ensures few { IfOk result (λ _. length out.new + 2 ≤ length out.old + 2 * length source.now) }
{
    let end = source.len();
    let (ahead, rest) = scan(source, end);
    let mut reader = Reader {
        ahead,
        rest,
        end,
        out,
    };
    reader.program()
}
