// The next token of a text. Its words and numbers are parts of the text.
ghost use Rattle.std.specs.Prelude.{◌≡◌, ◌<◌, ◌≤◌, [], ◌∷◌, ◌-◌, length, drop, unwrap_or, IfSome, IfOk, MatchOption};
ghost use Rattle.std.specs.List.{prefix_len};
ghost use Rattle.lexer.specs.Lexemes.{word_byte, value_of, base_of, most_of, digit_of, gap_of, sign_of};
ghost use Rattle.std.specs.Option.{option_map};
ghost use Rattle.lexer.specs.Cut.{front_answer, symbol_and_rest, with_rest, after, word_of, number_of, symbol_of, past, next_of, next_answer, token_of_next, piece_and_rest, piece, tokens_left, Steps, Short};
ghost use Rattle.lexer.specs.Cut.{lexeme as lexeme_of};
ghost use Rattle.lexer.specs.Lexemes.{within as within_of, closing as closing_of};

use crate::fault::TextFault;
use crate::token::{Radix, Symbol, Token};
use base::limits::MOST_NAME_BYTES;

// A word goes on with capitals, digits and apostrophes.
fn is_word_byte(b: u8) -> bool
    ensures { result ≡ word_byte b }
{
    matches!(b, b'A'..=b'Z' | b'0'..=b'9' | b'\'')
}

// How many bytes of a word stand at the front.
fn word_len(s: &[u8]) -> usize
    ensures value { result ≡ prefix_len word_byte s.now }
    ensures bound { result ≤ length s.now }
{
    s.iter().take_while(|b| is_word_byte(**b)).count()
}

// How many digits of a number of this radix stand at the front.
fn digits_len(s: &[u8], radix: Radix) -> usize
    ensures value { result ≡ prefix_len (digit_of radix) s.now }
    ensures bound { result ≤ length s.now }
{
    s.iter().take_while(|b| radix.has_digit(**b)).count()
}

// The value of the digits, if it is within the limit of the radix.
#[tactic(auto, using(crate::proofs::Fronts::value_more, crate::proofs::Fronts::value_over, crate::proofs::Fronts::value_whole, crate::proofs::Fronts::within_some))]
fn value(digits: &[u8], radix: Radix) -> Option<u16>
    ensures { result ≡ within_of (most_of radix) (value_of (base_of radix) 0 digits.now) }
{
    let mut n = 0u16;
    for d in digits {
        n = n
            .checked_mul(radix.base())?
            .checked_add(u16::from(d.saturating_sub(b'0')))?;
    }
    (n <= radix.most()).then_some(n)
}

// How many bytes there are up to the end of the next `>>`.
fn closing(s: &[u8]) -> Option<usize>
    ensures value { result ≡ closing_of s.now }
    ensures bound { IfSome result (λ n. n ≤ length s.now) }
{
    s.windows(2)
        .position(|pair| matches!(pair, [b'>', b'>']))
        .map(|i| i + 2)
}

// The symbol at the front, and the text after it: those of two bytes are tried first.
fn sign(s: &[u8]) -> Option<(Symbol, &[u8])>
    ensures { option_map symbol_and_rest result ≡ option_map (with_rest s.now) (sign_of s.now) }
{
    match s {
        [b':', b'=', rest @ ..] => Some((Symbol::Becomes, rest)),
        [b'<', b'>', rest @ ..] => Some((Symbol::Unequal, rest)),
        [b'<', b'=', rest @ ..] => Some((Symbol::AtMost, rest)),
        [b'>', b'=', rest @ ..] => Some((Symbol::AtLeast, rest)),
        [b';', rest @ ..] => Some((Symbol::Semicolon, rest)),
        [b',', rest @ ..] => Some((Symbol::Comma, rest)),
        [b'.', rest @ ..] => Some((Symbol::Dot, rest)),
        [b'(', rest @ ..] => Some((Symbol::Open, rest)),
        [b')', rest @ ..] => Some((Symbol::Close, rest)),
        [b':', rest @ ..] => Some((Symbol::Colon, rest)),
        [b'=', rest @ ..] => Some((Symbol::Equal, rest)),
        [b'<', rest @ ..] => Some((Symbol::Less, rest)),
        [b'>', rest @ ..] => Some((Symbol::Greater, rest)),
        [b'+', rest @ ..] => Some((Symbol::Plus, rest)),
        [b'-', rest @ ..] => Some((Symbol::Minus, rest)),
        [b'*', rest @ ..] => Some((Symbol::Times, rest)),
        [b'/', rest @ ..] => Some((Symbol::Divide, rest)),
        [b'&', rest @ ..] => Some((Symbol::Ampersand, rest)),
        _ => None,
    }
}

// How many bytes the blank or the comment at the front takes, if either is there.
#[tactic(auto, unfolding(crate::specs::Lexemes::gap_of))]
fn gap(s: &[u8]) -> Option<usize>
    ensures value { unwrap_or result 0 ≡ gap_of s.now }
    ensures bound { IfSome result (λ n. (0 < n) × (n ≤ length s.now)) }
{
    match s {
        [b' ' | b'\r' | b'\n', ..] => Some(1),
        [b'<', b'<', body @ ..] => closing(body).map(|n| n + 2),
        _ => None,
    }
}

// The text without the blanks and comments at its front.
#[tactic(auto, using(crate::proofs::Cutting::past_here, crate::proofs::Cutting::past_more, std::proofs::lemmas::List::take_rest))]
fn trimmed(text: &[u8]) -> &[u8]
    ensures { result.now ≡ past 0 text.now }
{
    let mut rest = text;
    while let Some(n) = gap(rest) {
        rest = &rest[n..];
    }
    rest
}

// What is left of a text, and its offset. No blank and no closed comment stands at its front.
#[derive(Clone, Copy)]
struct Rest<'a> {
    bytes: &'a [u8],
    offset: usize,
}

impl<'a> Rest<'a> {
    // `bytes` are what is left of a source that ends at the offset `end`.
    fn new(bytes: &'a [u8], end: usize) -> Rest<'a>
        ensures bytes { result.bytes.now ≡ bytes.now }
        ensures offset { result.offset ≡ end - length bytes.now }
    {
        Rest {
            bytes,
            offset: end.saturating_sub(bytes.len()),
        }
    }

    // The word at the front: a capital letter stands there.
    #[tactic(auto, using(std::proofs::lemmas::Bool::Decides::nat_tests))]
    fn word(&self) -> Result<(Token<'a>, &'a [u8]), TextFault>
        ensures { front_answer result ≡ after self.now.bytes.now
            (word_of self.now.offset (prefix_len word_byte self.now.bytes.now) self.now.bytes.now) }
    {
        let n = word_len(self.bytes);
        if n > MOST_NAME_BYTES {
            return Err(TextFault::BadToken(self.offset));
        }
        let (word, rest) = self.bytes.split_at(n);
        Ok((Token::Word(word, self.offset), rest))
    }

    // The number at the front, whose digits come after `lead` bytes.
    #[tactic(auto, using(crate::proofs::Cutting::number_valued))]
    fn number(&self, radix: Radix, lead: usize) -> Result<(Token<'a>, &'a [u8]), TextFault>
        requires { lead ≤ length self.now.bytes.now }
        ensures { front_answer result ≡ after self.now.bytes.now
            (number_of self.now.offset lead
            (prefix_len (digit_of radix) (drop lead self.now.bytes.now)) radix self.now.bytes.now) }
    {
        let digits = &self.bytes[lead..];
        let n = digits_len(digits, radix);
        if n == 0 {
            return Err(TextFault::BadToken(self.offset));
        }
        let v = value(&digits[..n], radix).ok_or(TextFault::BadToken(self.offset))?;
        let (number, rest) = self.bytes.split_at(lead + n);
        Ok((Token::Number(number, radix, v, self.offset), rest))
    }

    // The symbol at the front.
    #[tactic(auto, using(crate::proofs::Cutting::symbol_none))]
    fn symbol(&self) -> Result<(Token<'a>, &'a [u8]), TextFault>
        ensures { front_answer result ≡ after self.now.bytes.now
            (symbol_of self.now.offset (sign_of self.now.bytes.now)) }
    {
        let (found, rest) = sign(self.bytes).ok_or(TextFault::NoToken(self.offset))?;
        Ok((Token::Symbol(found, self.offset), rest))
    }

    // The token at the front, and the text after it.
    #[tactic(auto, unfolding(crate::specs::Cut::lexeme))]
    fn token(&self) -> Result<(Token<'a>, &'a [u8]), TextFault>
        ensures { front_answer result ≡ after self.now.bytes.now (lexeme_of self.now.offset self.now.bytes.now) }
    {
        match self.bytes {
            [b'A'..=b'Z', ..] => self.word(),
            [b'0'..=b'9', ..] => self.number(Radix::Decimal, 0),
            [b'%', ..] => self.number(Radix::Octal, 1),
            [b'<', b'<', ..] => Err(TextFault::OpenComment(self.offset)),
            _ => self.symbol(),
        }
    }
}

/// The next token of `text`, and the text after it; none where only blanks and comments are left. `text` is what is left of
/// a source, and `end` is the length of that source in bytes. Refuses with 2 where no token begins, with 3 at a bad word
/// or number, and with 4 at a comment without an end.
pub fn next<'a>(text: &'a [u8], end: usize) -> Result<Option<(Token<'a>, &'a [u8])>, TextFault>
    ensures exact { next_answer result ≡ next_of end text.now }
    ensures steps { Steps end text.now result }
    ensures short { IfOk result (λ o. IfSome o (λ x. Short (piece x.0))) }
{
    let bytes = trimmed(text);
    if bytes.is_empty() {
        return Ok(None);
    }
    let found = Rest::new(bytes, end).token()?;
    Ok(Some(found))
}

/// Answers as `next` does, for a source that `check` accepted: none at the end, and none where `next` refuses.
pub fn peek<'a>(text: &'a [u8], end: usize) -> Option<(Token<'a>, &'a [u8])>
    ensures exact { option_map piece_and_rest result ≡ token_of_next (next_of end text.now) }
    ensures steps { MatchOption result (tokens_left end text.now ≡ [])
        (λ x. (tokens_left end text.now ≡ piece x.0 ∷ tokens_left end x.1.now) × (length x.1.now < length text.now)) }
    ensures short { IfSome result (λ x. Short (piece x.0)) }
{
    next(text, end).ok().flatten()
}
