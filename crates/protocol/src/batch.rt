// `spl batch`: one answer line for each request line. `spl check`: the same for a table of requests with their
// answers.
use crate::sessions::Desk;
use anyhow::anyhow;
use base::code::{Code, Figures};
use base::instr::Instr;
use base::limits::{MOST_IMAGE_BYTES, MOST_INSTRUCTIONS};
use base::refusal::Refusal;
use compiler::compiler::Compiler;
use image::read::decode;
use image::write::encode;
use lexer::token::{Radix, Token};
use lexer::whole::Tokens;
use parser::workspace::Workspace;
use report::fields::{Problem, hex, instrs, miscount, number, put_words, word, words};
use report::names::put_text;
use report::source::load;
use std::alloc::Global;
use std::fmt::Write;
use std::io::Read;

// Appends a refusal as the protocol writes it.
pub(crate) fn refused(out: &mut String, fault: impl Into<Refusal>) -> Result<(), Problem> {
    let Refusal { place, number } = fault.into();
    write!(out, "no {number} {place}")?;
    Ok(())
}

// Appends bytes as two hexadecimal digits each.
fn put_hex(out: &mut String, bytes: &[u8]) -> Result<(), Problem> {
    for b in bytes {
        write!(out, "{b:02x}")?;
    }
    Ok(())
}

// Appends instruction records in the form in which they are read.
fn put_instrs(out: &mut String, code: &[Instr]) -> Result<(), Problem> {
    if code.is_empty() {
        out.push('-')?;
    }
    for (k, i) in code.iter().enumerate() {
        if k > 0 {
            out.push(';')?;
        }
        write!(out, "{},{},{}", i.number, i.a, i.b)?;
    }
    Ok(())
}

// A table of `n` entries: the first of a list that grows to the longest that was asked for. What they hold does not
// matter, since no answer shows an entry that was not written.
fn lend(table: &mut Vec<Instr>, n: usize) -> Result<&mut [Instr], Problem> {
    if table.len() < n {
        table.resize(n, Instr::default())?;
    }
    Ok(&mut table.as_mut_slice()[..n])
}

// The compiler that was reserved for the first line that needed it.
fn lend_compiler(kept: &mut Option<Compiler>, heap: Global) -> Result<&mut Compiler, Problem> {
    if kept.is_none() {
        *kept = Some(Compiler::new(heap)?);
    }
    kept.as_mut().ok_or(Problem::Memory)
}

// Appends the code in the front of a table.
fn put_code(out: &mut String, figures: Figures, table: &[Instr]) -> Result<(), Problem> {
    write!(out, "ok {} {} ", figures.cells, figures.depth)?;
    put_instrs(out, table.get(..figures.count as usize).unwrap_or(table))
}

// Appends a token as the protocol writes it: offset, kind and text.
fn put_token(out: &mut String, t: &Token<'_>) -> Result<(), Problem> {
    match t {
        Token::Word(w, offset) => {
            write!(out, " {offset}:w:")?;
            put_text(out, w)
        }
        Token::Number(w, Radix::Decimal, _, offset) => {
            write!(out, " {offset}:n:")?;
            put_text(out, w)
        }
        Token::Number(w, Radix::Octal, _, offset) => {
            write!(out, " {offset}:o:")?;
            put_text(out, w)
        }
        Token::Symbol(s, offset) => {
            write!(out, " {offset}:s:{s}")?;
            Ok(())
        }
    }
}

/// The memory of all requests. It serves one line after another.
#[derive(Drop)]
pub struct Bench {
    heap: Global,
    bytes: Vec<u8>,
    code: Vec<Instr>,
    table: Vec<Instr>,
    // Reserved when the first line asks for it, so that other requests are answered without its memory.
    compiler: Option<Compiler>,
    desk: Desk,
}

impl Bench {
    fn new(heap: Global) -> Bench {
        Bench {
            heap,
            bytes: Vec::new(heap),
            code: Vec::new(heap),
            table: Vec::new(heap),
            compiler: None,
            desk: Desk::new(heap),
        }
    }

    // imagein TABLE HEX
    fn image_in(&mut self, fields: &[&[u8]], out: &mut String) -> Result<(), Problem> {
        let [table, bytes] = fields else {
            return Err(miscount(fields.len(), 2));
        };
        // a larger table gives the same answer
        let room = number(table)?.min(MOST_INSTRUCTIONS);
        hex(bytes, &mut self.bytes)?;
        let table = lend(&mut self.table, room)?;
        match decode(self.bytes.as_slice(), table) {
            Ok(figures) => put_code(out, figures, table),
            Err(fault) => refused(out, fault),
        }
    }

    // imageout ROOM CELLS DEPTH INSTRS
    fn image_out(&mut self, fields: &[&[u8]], out: &mut String) -> Result<(), Problem> {
        let [room, cells, depth, code] = fields else {
            return Err(miscount(fields.len(), 4));
        };
        let room = number(room)?.min(MOST_IMAGE_BYTES);
        let cells = word(cells)?;
        let depth = word(depth)?;
        instrs(code, &mut self.code)?;
        let code = Code {
            cells,
            depth,
            instructions: self.code.as_slice(),
        };
        let mut bytes = vec![in self.heap; 0u8; room]?;
        match encode(code, bytes.as_mut_slice()) {
            Ok(n) => {
                out.push_str("ok ")?;
                bytes.truncate(n);
                put_hex(out, bytes.as_slice())
            }
            Err(fault) => refused(out, fault),
        }
    }

    // tokens HEX
    fn tokens(&mut self, fields: &[&[u8]], out: &mut String) -> Result<(), Problem> {
        let [bytes] = fields else {
            return Err(miscount(fields.len(), 1));
        };
        hex(bytes, &mut self.bytes)?;
        let mut list = Tokens::new(self.heap)?;
        match list.cut(self.bytes.as_slice()) {
            Ok(()) => {
                out.push_str("ok")?;
                for t in list.as_slice() {
                    put_token(out, t)?;
                }
                Ok(())
            }
            Err(fault) => refused(out, fault),
        }
    }

    // parse HEX
    fn parse(&mut self, fields: &[&[u8]], out: &mut String) -> Result<(), Problem> {
        let [bytes] = fields else {
            return Err(miscount(fields.len(), 1));
        };
        hex(bytes, &mut self.bytes)?;
        // Let go after the line, so that later lines have its memory.
        let mut reader = Workspace::new(self.heap)?;
        match reader.read(self.bytes.as_slice()) {
            Ok(()) => {
                write!(out, "ok {}", reader.nodes().len())?;
                Ok(())
            }
            Err(fault) => refused(out, fault),
        }
    }

    // compile TABLE HEX
    fn compile(&mut self, fields: &[&[u8]], out: &mut String) -> Result<(), Problem> {
        let [table, bytes] = fields else {
            return Err(miscount(fields.len(), 2));
        };
        let room = number(table)?.min(MOST_INSTRUCTIONS);
        hex(bytes, &mut self.bytes)?;
        let table = lend(&mut self.table, room)?;
        match lend_compiler(&mut self.compiler, self.heap)?.compile(self.bytes.as_slice(), table) {
            Ok(figures) => put_code(out, figures, table),
            Err(fault) => refused(out, fault),
        }
    }

    // Answers a request line. Fails where it is no request.
    fn request(&mut self, line: &[u8], out: &mut String) -> Result<(), Problem> {
        // No request has more than seven words. So eight are too many already, and the rest of the line does not matter.
        let mut words = [line; 8];
        let mut found = 0usize;
        for (word, field) in words.iter_mut().zip(line.split(|b| *b == b' ')) {
            *word = field;
            found = found.saturating_add(1);
        }
        match words.get(..found).unwrap_or(&words) {
            [b"imagein", fields @ ..] => self.image_in(fields, out),
            [b"imageout", fields @ ..] => self.image_out(fields, out),
            [b"tokens", fields @ ..] => self.tokens(fields, out),
            [b"parse", fields @ ..] => self.parse(fields, out),
            [b"compile", fields @ ..] => self.compile(fields, out),
            [b"session", fields @ ..] => self.desk.session(fields, out),
            [b"single", fields @ ..] => self.desk.single(fields, out),
            _ => Err(Problem::NotRequest("no such request")),
        }
    }

    // Appends the answer line of a request. A line that fails is answered `err` and the reason, and nothing else.
    fn answer(&mut self, line: &[u8], out: &mut String) -> Result<(), Problem> {
        let mut text = String::new(self.heap);
        match self.request(line, &mut text) {
            Ok(()) => out.push_str(text.as_str())?,
            Err(problem) => write!(out, "err {problem}")?,
        }
        out.push('\n')?;
        Ok(())
    }

    // Whether a line `REQUEST -> ANSWER` of a table has the right answer. If not, prints the line with its number
    // and what was answered.
    fn holds(&mut self, rt: &HostRuntime, number: usize, line: &[u8]) -> anyhow::Result<bool> {
        let arrow = b" -> ";
        let Some(i) = line.windows(4).position(|w| w.starts_with(arrow)) else {
            println!(rt; "line {number} has no ` -> `")?;
            return Ok(false);
        };
        let (request, answer) = line.split_at(i);
        let mut out = String::new(self.heap);
        self.answer(request, &mut out)?;
        if out.as_bytes().strip_suffix(b"\n") == answer.strip_prefix(arrow) {
            return Ok(true);
        }
        let request = String::from_utf8_lossy(self.heap, line)?;
        println!(rt; "line {number}: {request}")?;
        print!(rt; "  but was answered {out}")?;
        Ok(false)
    }
}

fn is_feed(b: &u8) -> bool {
    *b == b'\n'
}

fn without_feed(line: &[u8]) -> &[u8] {
    line.strip_suffix(b"\n").unwrap_or(line)
}

/// Answers the requests of the table in a file and compares the answers with those there. Lines that begin with `#`
/// and empty lines are passed over. Prints each difference and how many there are, and fails if there is one.
pub fn check(rt: &HostRuntime, path: &str) -> anyhow::Result<()> {
    let input = load(rt, path)?;
    let mut bench = Bench::new(rt.alloc());
    let mut count = 0u64;
    let mut wrong = 0u64;
    for (before, line) in input.as_slice().split_inclusive(is_feed).enumerate() {
        let line = without_feed(line);
        if line.is_empty() || line.starts_with(b"#") {
            continue;
        }
        count = count.saturating_add(1);
        if !bench.holds(rt, before.saturating_add(1), line)? {
            wrong = wrong.saturating_add(1);
        }
    }
    println!(rt; "{path}: {count} requests, {wrong} differences")?;
    if wrong > 0 {
        return Err(anyhow!("some answers differ"));
    }
    Ok(())
}

/// Answers the requests on standard input, one line for each, until the input ends. Fails where standard input or
/// output fails, and where there is too little memory for the input and the answers.
pub fn batch(rt: &HostRuntime) -> anyhow::Result<()> {
    let heap = rt.alloc();
    let mut input = Vec::new(heap);
    rt.stdin().read_to_end(&mut input)?;
    let mut bench = Bench::new(heap);
    let mut out = String::new(heap);
    for line in input.as_slice().split_inclusive(is_feed) {
        bench.answer(without_feed(line), &mut out)?;
        if out.len() > 65536 {
            rt.print(out.as_str())?;
            out.clear();
        }
    }
    rt.print(out.as_str())?;
    Ok(())
}
