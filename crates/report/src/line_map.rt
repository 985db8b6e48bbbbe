// Which line of a source each instruction of its code comes from. The compiler does not answer that. Each node of
// the syntax list gives a known number of instructions, in the order of the list, so the instructions are counted
// here.
use crate::compiled::Compiled;
use crate::source::Lines;
use crate::tokens::offset_of;
use base::instr::Instr;
use lexer::reserved::keyword;
use lexer::token::{Keyword, Symbol, Token};
use lexer::whole::Tokens;
use parser::node::Node;
use std::alloc::Global;

fn is_shift(word: &[u8]) -> bool {
    matches!(
        keyword(word),
        Some(Keyword::Lsl | Keyword::Lsr | Keyword::Asr | Keyword::Csl | Keyword::Csr)
    )
}

fn is_truth(word: &[u8]) -> bool {
    matches!(keyword(word), Some(Keyword::True | Keyword::False))
}

// The offset of the third of four tokens, if it is a number of an expression; TRUE and FALSE count as numbers. The
// numbers of bounds and of fields have a colon on one side, and the number of a shift stands two tokens after the
// word of its kind.
fn constant(four: &[Token<'_>]) -> Option<usize> {
    match four {
        [_, Token::Symbol(Symbol::Colon, _), _, _] => None,
        [_, _, _, Token::Symbol(Symbol::Colon, _)] => None,
        [Token::Word(word, _), _, Token::Number(_, _, _, _), _] if is_shift(word) => None,
        [_, _, Token::Number(_, _, _, offset), _] => Some(*offset),
        [_, _, Token::Word(word, offset), _] if is_truth(word) => Some(*offset),
        _ => None,
    }
}

// The offsets of the numbers in expressions, in written order. The nodes of these numbers come in the same order
// and have no offset.
fn constants(heap: Global, tokens: &[Token<'_>]) -> anyhow::Result<Vec<usize>> {
    let mut offsets = Vec::new(heap);
    for four in tokens.windows(4) {
        if let Some(offset) = constant(four) {
            offsets.push(offset)?;
        }
    }
    Ok(offsets)
}

// The offset of a node that has one.
fn standing(node: Node) -> Option<usize> {
    match node {
        Node::Load(_, offset)
        | Node::Index(_, offset, _)
        | Node::Binary(_, offset)
        | Node::Negate(offset)
        | Node::Lnot(offset)
        | Node::Field(_, _, offset)
        | Node::Shift(_, _, offset)
        | Node::Store(_, offset, _)
        | Node::Checked(_, offset, _)
        | Node::StoreAt(_, offset, _)
        | Node::Fetch(_, offset)
        | Node::FetchAt(_, offset, _)
        | Node::Deposit(_, _, offset)
        | Node::Test(offset)
        | Node::First(_, offset, _)
        | Node::Step(offset)
        | Node::For(_, offset, _)
        | Node::Case(offset) => Some(offset),
        _ => None,
    }
}

// How many instructions a node gives. The first of them, if there is one, is `first`: a CASE counts its table of
// branches by it.
fn given(node: Node, first: Option<&Instr>) -> usize {
    match node {
        Node::Simple(_, _, _)
        | Node::Array(_, _, _, _, _, _)
        | Node::Convert(_)
        | Node::If
        | Node::Then
        | Node::Fi
        | Node::While
        | Node::Do
        | Node::Until
        | Node::Done
        | Node::Step(_)
        | Node::Arm
        | Node::Esac => 0,
        Node::FetchAt(_, _, _) => 2,
        Node::Case(_) => first.map_or(1, |case| (case.b as usize).saturating_add(1)),
        _ => 1,
    }
}

/// Answers the line of each instruction, counted from 1. A node without an offset, unless it is a number, has the
/// line of the last offset before it, and HALT has the line of the full stop. Fails only where there is too little
/// memory.
pub fn line_map(
    heap: Global,
    compiled: &Compiled,
    lines: &Lines<'_>,
) -> anyhow::Result<Vec<usize>> {
    let mut tokens = Tokens::new(heap)?;
    tokens.cut(compiled.source())?;
    let offsets = constants(heap, tokens.as_slice())?;
    let code = compiled.code().instructions;
    let mut constants = offsets.iter();
    let mut offset = 0;
    let mut list = Vec::new(heap);
    for node in compiled.nodes() {
        let own = match node {
            Node::Number(_, _) => constants.next().copied(),
            _ => standing(*node),
        };
        offset = own.unwrap_or(offset);
        let count = given(*node, code.get(list.len()));
        list.resize(list.len().saturating_add(count), lines.at(offset))?;
    }
    let stop = tokens.as_slice().last().map_or(offset, offset_of);
    list.push(lines.at(stop))?;
    Ok(list)
}
