// The requests `session` and `single`: calls on the machine, over each of the three stores.
use crate::batch::refused;
use base::code::Code;
use base::instr::Instr;
use base::limits::MOST_WORDS;
use base::refusal::Refusal;
use base::store::Store;
use base::store::bytes::Bytes;
use base::store::joined::Joined;
use base::store::words::Words;
use machine::call::{Answer, Call, Exchange};
use machine::fault::{CallFault, SessionFault};
use machine::registers::Registers;
use machine::resources::Resources;
use machine::session::Session;
use machine::single::single;
use report::fields::{Problem, hex, instrs, miscount, number, put_words, word, words};
use std::alloc::Global;
use std::fmt::Write;

// The form of a request's store.
#[derive(Clone, Copy, PartialEq, Eq, Debug)]
enum Shape {
    Words,
    Bytes,
    Joined,
}

// What a request asks for.
#[derive(Clone, Copy, PartialEq, Eq, Debug)]
enum Task {
    // the calls, one after another
    Calls,
    // a single run with this limit of steps
    Single(u64),
}

// Reads a call: `rN`, `lN` or `p`.
fn call(text: &[u8]) -> Result<Call, Problem> {
    match text {
        [b'r', limit @ ..] => Ok(Call::Resume(number(limit)? as u64)),
        [b'l', cell @ ..] => Ok(Call::Look(word(cell)?)),
        [b'p'] => Ok(Call::Report),
        _ => Err(Problem::NotRequest("no such call")),
    }
}

// Reads calls joined by `;`, `-` for none, into `out` in place of those there.
fn exchanges(text: &[u8], out: &mut Vec<Exchange>) -> Result<(), Problem> {
    out.clear();
    if let [b'-'] = text {
        return Ok(());
    }
    for one in text.split(|b| *b == b';') {
        out.push(Exchange::of(call(one)?))?;
    }
    Ok(())
}

fn put_bytes(out: &mut String, list: &[u8]) -> Result<(), Problem> {
    out.push('b')?;
    if list.is_empty() {
        out.push('-')?;
    }
    for b in list {
        write!(out, "{b:02x}")?;
    }
    Ok(())
}

fn put_registers(out: &mut String, registers: Registers) -> Result<(), Problem> {
    write!(
        out,
        "s {} {} {} {} ",
        registers.pc, registers.height, registers.steps, registers.writes
    )?;
    match registers.ending {
        Some(ending) => write!(out, "{}", u8::from(ending))?,
        None => out.push('-')?,
    }
    Ok(())
}

fn put_answer(out: &mut String, answer: Result<Answer, CallFault>) -> Result<(), Problem> {
    match answer {
        Ok(Answer::Registers(registers)) => put_registers(out, registers),
        Ok(Answer::Word(w)) => {
            write!(out, "w {w}")?;
            Ok(())
        }
        Err(fault) => refused(out, fault),
    }
}

fn put_answers(out: &mut String, exchanges: &[Exchange]) -> Result<(), Problem> {
    for (k, exchange) in exchanges.iter().enumerate() {
        if k > 0 {
            out.push('|')?;
        }
        put_answer(out, exchange.answer)?;
    }
    Ok(())
}

// Does the task over one store. A refusal that comes before the first call is the whole answer.
fn work<S: Store>(
    task: Task,
    code: Code<'_>,
    stack: &mut [u16],
    store: &mut S,
    exchanges: &mut [Exchange],
) -> Result<(), SessionFault> {
    if let Task::Single(limit) = task {
        let registers = single(code, stack, store, limit)?;
        exchanges.fill(Exchange {
            call: Call::Resume(limit),
            answer: Ok(Answer::Registers(registers)),
        });
        return Ok(());
    }
    let mut resources = Resources {
        code: code.instructions,
        stack,
        store,
    };
    let mut session = Session::start(code.cells, code.depth, &resources)?;
    session.play(&mut resources, exchanges);
    Ok(())
}

/// The memory of the requests `session` and `single`. It serves one line after another.
#[derive(Drop)]
pub struct Desk {
    code: Vec<Instr>,
    stack: Vec<u16>,
    shape: Shape,
    words: Vec<u16>,
    bytes: Vec<u8>,
    exchanges: Vec<Exchange>,
}

impl Desk {
    /// Answers a desk that holds nothing yet.
    pub fn new(heap: Global) -> Desk {
        Desk {
            code: Vec::new(heap),
            stack: Vec::new(heap),
            shape: Shape::Words,
            words: Vec::new(heap),
            bytes: Vec::new(heap),
            exchanges: Vec::new(heap),
        }
    }

    // Reads a store: words; `b` and bytes; or words, `+`, `b` and bytes.
    fn read_store(&mut self, text: &[u8]) -> Result<(), Problem> {
        if let [b'b', bytes @ ..] = text {
            self.shape = Shape::Bytes;
            return hex(bytes, &mut self.bytes);
        }
        let mut parts = text.splitn(2, |b| *b == b'+');
        words(parts.next().unwrap_or(text), &mut self.words)?;
        match parts.next() {
            None => {
                self.shape = Shape::Words;
                Ok(())
            }
            Some([b'b', bytes @ ..]) => {
                self.shape = Shape::Joined;
                hex(bytes, &mut self.bytes)
            }
            Some(_) => Err(Problem::NotRequest("a store has no such part")),
        }
    }

    // Appends the store in the form in which it was written.
    fn put_store(&self, out: &mut String) -> Result<(), Problem> {
        match self.shape {
            Shape::Words => put_words(out, self.words.as_slice()),
            Shape::Bytes => put_bytes(out, self.bytes.as_slice()),
            Shape::Joined => {
                put_words(out, self.words.as_slice())?;
                out.push('+')?;
                put_bytes(out, self.bytes.as_slice())
            }
        }
    }

    // Does the task over the store that was read.
    fn make(&mut self, task: Task, cells: u16, depth: u16) -> Result<(), SessionFault> {
        let code = Code {
            cells,
            depth,
            instructions: self.code.as_slice(),
        };
        let stack = self.stack.as_mut_slice();
        let exchanges = self.exchanges.as_mut_slice();
        let mut words = Words {
            cells: self.words.as_mut_slice(),
        };
        let mut bytes = Bytes {
            cells: self.bytes.as_mut_slice(),
        };
        match self.shape {
            Shape::Words => work(task, code, stack, &mut words, exchanges),
            Shape::Bytes => work(task, code, stack, &mut bytes, exchanges),
            Shape::Joined => {
                let mut joined = Joined {
                    first: &mut words,
                    second: &mut bytes,
                };
                work(task, code, stack, &mut joined, exchanges)
            }
        }
    }

    /// Appends the answer to `session CELLS DEPTH STACKLEN STORE CALLS INSTRS`, of which these are the fields: the
    /// answers to the calls and the store afterwards, or the refusal of the start. Fails where the fields are
    /// wrong, and where there is too little memory.
    pub fn session(&mut self, fields: &[&[u8]], out: &mut String) -> Result<(), Problem> {
        let [cells, depth, length, store, list, code] = fields else {
            return Err(miscount(fields.len(), 6));
        };
        let cells = word(cells)?;
        let depth = word(depth)?;
        // No depth is larger, so a longer stack of zeros gives the same answers.
        let length = number(length)?.min(MOST_WORDS);
        self.read_store(store)?;
        exchanges(list, &mut self.exchanges)?;
        instrs(code, &mut self.code)?;
        self.stack.clear();
        self.stack.resize(length, 0)?;
        match self.make(Task::Calls, cells, depth) {
            Ok(()) => {
                put_answers(out, self.exchanges.as_slice())?;
                out.push_str(" # ")?;
                self.put_store(out)
            }
            Err(fault) => refused(out, fault),
        }
    }

    /// Appends the answer to `single LIMIT CELLS DEPTH STACK STORE INSTRS`, of which these are the fields: the
    /// registers or the refusal, then the store and the stack words afterwards. Fails where the fields are wrong,
    /// and where there is too little memory.
    pub fn single(&mut self, fields: &[&[u8]], out: &mut String) -> Result<(), Problem> {
        let [limit, cells, depth, stack, store, code] = fields else {
            return Err(miscount(fields.len(), 6));
        };
        let limit = number(limit)? as u64;
        let cells = word(cells)?;
        let depth = word(depth)?;
        words(stack, &mut self.stack)?;
        self.read_store(store)?;
        instrs(code, &mut self.code)?;
        self.exchanges.clear();
        self.exchanges.push(Exchange::of(Call::Resume(limit)))?;
        match self.make(Task::Single(limit), cells, depth) {
            Ok(()) => put_answers(out, self.exchanges.as_slice())?,
            Err(fault) => refused(out, fault)?,
        }
        out.push_str(" # ")?;
        self.put_store(out)?;
        out.push_str(" # ")?;
        put_words(out, self.stack.as_slice())
    }
}
