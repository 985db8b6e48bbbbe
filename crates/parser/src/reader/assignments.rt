// The readers of assignments.
ghost use Rattle.std.specs.Prelude.{◌≡◌, [], ◌∷◌, ◌++◌};
ghost use Rattle.lexer.specs.declared.token.Symbol.TheVariants.{Open};
ghost use Rattle.lexer.specs.Names.{name_of};
ghost use Rattle.parser.specs.Nodes.{node_of};
ghost use Rattle.parser.specs.Machine.{sym, bits, into, target as a_target, target_at as target_in, store_node as store_node_of};
ghost use Rattle.parser.specs.Readers.{Ready, ReadsGoals};

use crate::fault::GrammarFault;
use crate::lexeme::{PlacedName, Strength};
use crate::node::Node;
use crate::reader::Reader;
use crate::reader::tokens::put;
use lexer::token::Symbol;

// The node that ends an assignment; `subscript` tells whether a subscript stands left of `:=`.
fn store_node(subscript: bool, n: PlacedName, becomes: usize) -> Node
    ensures { node_of result ≡ store_node_of subscript (name_of n.name) n.offset becomes }
{
    if subscript {
        Node::StoreAt(n.name, n.offset, becomes)
    } else {
        Node::Store(n.name, n.offset, becomes)
    }
}

impl Reader<'_, '_> {
    // What follows the name that begins an assignment: its subscript, a field, `:=` and the value.
    pub(crate) fn target(&mut self, n: PlacedName, levels: u8) -> Result<(), GrammarFault>
        requires { Ready 2 self.old }
        ensures { ReadsGoals 2 0 (a_target (name_of n.name) n.offset levels ∷ []) self.old self.new result }
    {
        let here = self.ahead.offset;
        if self.ahead.is_symbol(Symbol::Open) {
            self.paren(levels)?;
            return self.target_at(n, here, levels);
        }
        if self.ahead.is_symbol(Symbol::Dot) {
            self.advance();
            put(self.out, Node::Fetch(n.name, n.offset));
            return self.deposit(false, n, levels);
        }
        self.symbol(Symbol::Becomes)?;
        self.chain(Strength::Lor, levels)?;
        put(self.out, Node::Store(n.name, n.offset, here));
        Ok(())
    }

    // What follows the subscript left of `:=`: a field, `:=` and the value. The parenthesis of the subscript stands at
    // `paren`.
    fn target_at(&mut self, n: PlacedName, paren: usize, levels: u8) -> Result<(), GrammarFault>
        requires { Ready 2 self.old }
        ensures { ReadsGoals 2 0 (target_in (name_of n.name) n.offset paren levels ∷ []) self.old self.new result }
    {
        let here = self.ahead.offset;
        if self.ahead.is_symbol(Symbol::Dot) {
            self.advance();
            put(self.out, Node::FetchAt(n.name, n.offset, paren));
            return self.deposit(true, n, levels);
        }
        self.symbol(Symbol::Becomes)?;
        put(self.out, Node::Checked(n.name, n.offset, paren));
        self.chain(Strength::Lor, levels)?;
        put(self.out, Node::StoreAt(n.name, n.offset, here));
        Ok(())
    }

    // A field left of `:=`, and the value.
    fn deposit(&mut self, subscript: bool, n: PlacedName, levels: u8) -> Result<(), GrammarFault>
        requires { Ready 2 self.old }
        ensures { ReadsGoals 2 0 (sym Open ∷ bits (into subscript (name_of n.name) n.offset levels)
            ∷ []) self.old self.new result }
    {
        let field = self.range()?;
        let here = self.ahead.offset;
        self.symbol(Symbol::Becomes)?;
        self.chain(Strength::Lor, levels)?;
        put(
            self.out,
            Node::Deposit(field.first, field.second, field.offset),
        );
        put(self.out, store_node(subscript, n, here));
        Ok(())
    }
}
