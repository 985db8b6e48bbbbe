// Where a token stands.
use lexer::token::Token;

/// Answers the index of the first byte of a token.
pub fn offset_of(t: &Token<'_>) -> usize {
    match t {
        Token::Word(_, offset) | Token::Number(_, _, _, offset) | Token::Symbol(_, offset) =>
            *offset,
    }
}
