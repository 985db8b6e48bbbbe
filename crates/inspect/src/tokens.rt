// `spl tokens`: the tokens of a source.
use lexer::reserved::keyword;
use lexer::token::Token;
use lexer::whole::Tokens;
use parser::value_type::ValueType;
use report::mark::tell;
use report::source::{Spot, load};
use report::tokens::offset_of;

// Prints the kind of a token, its text, and the value of a number.
fn describe(rt: &HostRuntime, t: &Token<'_>) -> anyhow::Result<()> {
    match t {
        Token::Word(w, _) => {
            let name = std::str::from_utf8(w)?;
            let kind = if keyword(w).is_some() {
                "reserved"
            } else {
                "name"
            };
            println!(rt; "{kind:<8}  {name}")?;
        }
        Token::Number(w, radix, value, _) => {
            let digits = std::str::from_utf8(w)?;
            let value_type = ValueType::of(*radix);
            println!(rt; "{value_type:<8}  {digits} = {value}")?;
        }
        Token::Symbol(s, _) => println!(rt; "symbol    {s}")?,
    }
    Ok(())
}

fn lines(rt: &HostRuntime, source: &[u8], tokens: &[Token<'_>]) -> anyhow::Result<()> {
    let mut spot = Spot::TOP;
    println!(rt; " line  col  place  kind      text")?;
    for t in tokens {
        spot = spot.onward(source, offset_of(t));
        print!(rt;
            "{:>5} {:>4} {:>6}  ",
            spot.line,
            spot.column(),
            spot.offset
        )?;
        describe(rt, t)?;
    }
    println!(rt; "{} tokens", tokens.len())?;
    Ok(())
}

/// Prints the tokens of the source in a file, each with its line, column and place. If the text is refused, prints
/// why and fails.
pub fn tokens(rt: &HostRuntime, path: &str) -> anyhow::Result<()> {
    let source = load(rt, path)?;
    let mut list = Tokens::new(rt.alloc())?;
    match list.cut(source.as_slice()) {
        Ok(()) => lines(rt, source.as_slice(), list.as_slice()),
        Err(fault) => tell(rt, path, source.as_slice(), fault),
    }
}
