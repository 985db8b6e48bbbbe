// What all readers do: they write a node, go on to the next token, and take one that has to come.
ghost use Rattle.std.specs.Prelude.{◌≡◌, ◌+◌, ◌<◌, [], ◌∷◌, ◌++◌, length};
ghost use Rattle.base.specs.Limits.{most_nodes};
ghost use Rattle.parser.specs.Nodes.{node_of, node_list};
ghost use Rattle.parser.specs.Machine.{sym, word};
ghost use Rattle.parser.specs.Readers.{ReadsGoals, Advances, TakesOrRefuses, TakesDecimal, TakesName, ReadsRange};

use crate::fault::GrammarFault;
use crate::lexeme::PlacedName;
use crate::node::{Node, Nodes};
use crate::reader::{Range, Reader};
use crate::scan::scan;
use lexer::token::{Keyword, Symbol};

// Writes a node into the room that was reserved.
pub(crate) fn put(out: &mut Nodes, node: Node)
    requires { length out.old < most_nodes }
    ensures items { node_list out.new ≡ node_list out.old ++ node_of node ∷ [] }
    ensures len { length out.new ≡ length out.old + 1 }
{
    let _ = out.push(node);
}

impl Reader<'_, '_> {
    // Goes on to the next token.
    pub(crate) fn advance(&mut self)
        ensures { Advances self.old self.new }
    {
        let (ahead, rest) = scan(self.rest, self.end);
        self.ahead = ahead;
        self.rest = rest;
    }

    // Goes on to the next token where what has to come is ahead, else refuses with 5.
    fn take(&mut self, here: bool) -> Result<(), GrammarFault>
        ensures { TakesOrRefuses here self.old self.new result }
    {
        if !here {
            return Err(self.ahead.unexpected());
        }
        self.advance();
        Ok(())
    }

    // Takes this symbol, or refuses with 5.
    pub(crate) fn symbol(&mut self, want: Symbol) -> Result<(), GrammarFault>
        ensures { ReadsGoals 0 2 (sym want ∷ []) self.old self.new result }
    {
        self.take(self.ahead.is_symbol(want))
    }

    // Takes this reserved word, or refuses with 5.
    pub(crate) fn keyword(&mut self, want: Keyword) -> Result<(), GrammarFault>
        ensures { ReadsGoals 0 2 (word want ∷ []) self.old self.new result }
    {
        self.take(self.ahead.is_keyword(want))
    }

    // Takes a decimal number, and answers it and its offset.
    pub(crate) fn number(&mut self) -> Result<(u16, usize), GrammarFault>
        ensures { TakesDecimal self.old self.new result }
    {
        let offset = self.ahead.offset;
        let v = self.ahead.decimal().ok_or(self.ahead.unexpected())?;
        self.advance();
        Ok((v, offset))
    }

    // Takes a name, and answers it and its offset.
    pub(crate) fn name(&mut self) -> Result<PlacedName, GrammarFault>
        ensures { TakesName self.old self.new result }
    {
        let named = self.ahead.name().ok_or(self.ahead.unexpected())?;
        self.advance();
        Ok(named)
    }

    // (d:d)
    pub(crate) fn range(&mut self) -> Result<Range, GrammarFault>
        ensures { ReadsRange self.old self.new result }
    {
        self.symbol(Symbol::Open)?;
        let (first, offset) = self.number()?;
        self.symbol(Symbol::Colon)?;
        let (second, _) = self.number()?;
        self.symbol(Symbol::Close)?;
        Ok(Range {
            first,
            second,
            offset,
        })
    }
}
