// The state that all readers share.
ghost use Rattle.std.specs.Prelude.{◌+◌, ◌*◌, ◌≤◌, length};
ghost use Rattle.base.specs.Limits.{most_nodes};
ghost use Rattle.parser.specs.Marks.{mark_of, live};

use crate::lexeme::Lexeme;
use crate::node::Nodes;

mod assignments;
mod conditions;
mod declarations;
mod expressions;
mod fields;
mod statements;
mod tokens;

pub(crate) use declarations::whole;

// Two numbers in parentheses, and the offset of the first.
#[derive(Clone, Copy)]
pub(crate) struct Range {
    first: u16,
    second: u16,
    offset: usize,
}

/// A reader of one source: the token ahead, the text after it, the length of the source in bytes, and the list written so
/// far.
#[derive(Drop)]
pub struct Reader<'a, 'w> {
    ahead: Lexeme,
    rest: &'a [u8],
    end: usize,
    out: &'w mut Nodes,
    // The list has room for two nodes for each token that is left, including the one ahead. Once a token is taken,
    // its nodes are still to be written: `Ready 2` and `Ready 1` say that there is room for so many more.
    ghost room: { length out.now + 2 * (length rest.now + live (mark_of ahead.sort)) ≤ most_nodes },
}
