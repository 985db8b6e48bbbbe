// `spl parse`: an outline of a source. The syntax list is gone through once. The nodes of what a statement reads
// come before the statement's own node.
use lexer::name::Name;
use lexer::search::{Named, find};
use parser::node::Node;
use parser::value_type::ValueType;
use parser::workspace::Workspace;
use report::fields::Problem;
use report::mark::tell;
use report::names::put_text;
use report::source::{Spot, load};
use std::alloc::Global;
use std::fmt::Write;

// A statement that contains others. A CASE has the number of those that have begun.
#[derive(Clone, Copy)]
enum Holder {
    If,
    While,
    Do,
    For,
    Case(usize),
}

// A name, and the offset where it is used.
#[derive(Clone, Copy)]
struct Use {
    name: Name,
    offset: usize,
}

// The names used, each once, in the order of their first offsets.
fn distinct(heap: Global, uses: &[Use]) -> Result<Vec<Name>, Problem> {
    let mut sorted = Vec::from_slice(heap, uses)?;
    sorted.sort_by_key(|used| used.offset)?;
    let mut names = Vec::new(heap);
    for used in sorted.as_slice() {
        if find(names.as_slice(), used.name.name()).is_none() {
            names.push(used.name)?;
        }
    }
    Ok(names)
}

fn put_names(out: &mut String, names: &[Name]) -> Result<(), Problem> {
    if names.is_empty() {
        out.push_str("none")?;
    }
    for (k, name) in names.iter().enumerate() {
        if k > 0 {
            out.push_str(", ")?;
        }
        put_text(out, name.name())?;
    }
    Ok(())
}

#[derive(Drop)]
struct Outline<'a> {
    heap: Global,
    source: &'a [u8],
    // the offset that was printed last
    spot: Spot,
    // the statements that contain the next node, the outermost first
    around: Vec<Holder>,
    uses: Vec<Use>,
    // how many of the uses belong to printed lines
    told: usize,
    // where the condition that is being read begins
    condition: Option<usize>,
    // the field left of `:=`
    field: Option<(u16, u16)>,
    statements: usize,
    deepest: usize,
}

impl Outline<'_> {
    fn new(heap: Global, source: &[u8]) -> Outline<'_> {
        Outline {
            heap,
            source,
            spot: Spot::TOP,
            around: Vec::new(heap),
            uses: Vec::new(heap),
            told: 0,
            condition: None,
            field: None,
            statements: 0,
            deepest: 0,
        }
    }

    // Appends the names read since the last line.
    fn put_reads(&mut self, out: &mut String) -> Result<(), Problem> {
        let uses = self.uses.as_slice().get(self.told..).unwrap_or(&[]);
        let names = distinct(self.heap, uses)?;
        self.told = self.uses.len();
        if names.is_empty() {
            return Ok(());
        }
        out.push_str("  reads ")?;
        put_names(out, names.as_slice())
    }

    // Prints a line of the outline, with the number of its line in the source if its offset is known.
    fn line(
        &mut self,
        rt: &HostRuntime,
        depth: usize,
        offset: Option<usize>,
        what: &str,
    ) -> anyhow::Result<()> {
        let indent = depth.saturating_mul(2);
        let mut text = String::new(self.heap);
        write!(text, "{:indent$}{what}", "")?;
        self.put_reads(&mut text)?;
        if let Some(offset) = offset {
            self.spot = self.spot.onward(self.source, offset);
            println!(rt; "{:>5}  {text}", self.spot.line)?;
        } else {
            println!(rt; "       {text}")?;
        }
        Ok(())
    }

    // Prints a line of the innermost statement that contains others.
    fn nested(
        &mut self,
        rt: &HostRuntime,
        offset: Option<usize>,
        what: &str,
    ) -> anyhow::Result<()> {
        let depth = self.around.len().saturating_sub(1);
        self.line(rt, depth, offset, what)
    }

    fn count(&mut self, depth: usize) {
        self.statements = self.statements.saturating_add(1);
        self.deepest = self.deepest.max(depth);
    }

    fn begin(&mut self, holder: Holder) -> anyhow::Result<()> {
        self.around.push(holder)?;
        let depth = self.around.len();
        self.count(depth);
        Ok(())
    }

    fn end(&mut self) -> anyhow::Result<()> {
        let _ = self.around.pop();
        Ok(())
    }

    fn read(&mut self, name: Name, offset: usize) -> anyhow::Result<()> {
        self.uses.push(Use { name, offset })?;
        Ok(())
    }

    // Notes a name that a statement writes. It is used, but it is not read.
    fn written(&mut self, name: Name, offset: usize) -> anyhow::Result<()> {
        self.uses.push(Use { name, offset })?;
        self.told = self.uses.len();
        Ok(())
    }

    fn simple(
        &mut self,
        rt: &HostRuntime,
        name: Name,
        value_type: ValueType,
        offset: usize,
    ) -> anyhow::Result<()> {
        let mut what = String::new(self.heap);
        write!(what, "{value_type} ")?;
        put_text(&mut what, name.name())?;
        self.line(rt, 0, Some(offset), what.as_str())
    }

    fn array(
        &mut self,
        rt: &HostRuntime,
        name: Name,
        value_type: ValueType,
        bounds: (u16, u16),
        offset: usize,
    ) -> anyhow::Result<()> {
        let (low, high) = bounds;
        let mut what = String::new(self.heap);
        write!(what, "{value_type} ARRAY ")?;
        put_text(&mut what, name.name())?;
        write!(what, "({low}:{high})")?;
        self.line(rt, 0, Some(offset), what.as_str())
    }

    fn assignment(
        &mut self,
        rt: &HostRuntime,
        name: Name,
        offset: usize,
        subscript: &str,
    ) -> anyhow::Result<()> {
        let mut what = String::new(self.heap);
        put_text(&mut what, name.name())?;
        what.push_str(subscript)?;
        if let Some((first, second)) = self.field.take() {
            // the other bits of the word stay, so the word is read
            self.read(name, offset)?;
            write!(what, ".({first}:{second})")?;
        }
        what.push_str(" :=")?;
        let depth = self.around.len();
        self.count(depth.saturating_add(1));
        self.line(rt, depth, Some(offset), what.as_str())?;
        self.written(name, offset)
    }

    // Comes after the condition of an IF or a WHILE.
    fn then(&mut self, rt: &HostRuntime) -> anyhow::Result<()> {
        let offset = self.condition.take();
        if let Some(Holder::While) = self.around.last() {
            return self.nested(rt, offset, "WHILE");
        }
        self.nested(rt, offset, "IF")?;
        self.nested(rt, None, "THEN")
    }

    // Comes after the condition of a DO.
    fn until(&mut self, rt: &HostRuntime) -> anyhow::Result<()> {
        let offset = self.condition.take();
        self.nested(rt, offset, "UNTIL")?;
        self.end()
    }

    // Comes after the limit of a FOR.
    fn counted(
        &mut self,
        rt: &HostRuntime,
        name: Name,
        offset: usize,
        opened: usize,
    ) -> anyhow::Result<()> {
        let mut what = String::new(self.heap);
        what.push_str("FOR ")?;
        put_text(&mut what, name.name())?;
        self.begin(Holder::For)?;
        self.nested(rt, Some(opened), what.as_str())?;
        self.written(name, offset)
    }

    // Comes before each statement of a CASE.
    fn arm(&mut self, rt: &HostRuntime) -> anyhow::Result<()> {
        let Some(Holder::Case(begun)) = self.around.last_mut() else {
            return Ok(());
        };
        let number = *begun;
        *begun = number.saturating_add(1);
        let mut what = String::new(self.heap);
        write!(what, "{number}:")?;
        self.nested(rt, None, what.as_str())
    }

    fn entry(&mut self, rt: &HostRuntime, node: Node) -> anyhow::Result<()> {
        match node {
            Node::Simple(name, value_type, offset) => self.simple(rt, name, value_type, offset),
            Node::Array(name, value_type, low, high, offset, _) => {
                self.array(rt, name, value_type, (low, high), offset)
            }
            Node::Load(name, offset) | Node::Index(name, offset, _) => self.read(name, offset),
            Node::Store(name, offset, _) => self.assignment(rt, name, offset, ""),
            Node::StoreAt(name, offset, _) => self.assignment(rt, name, offset, "(subscript)"),
            Node::Deposit(first, second, _) => {
                self.field = Some((first, second));
                Ok(())
            }
            Node::Test(offset) => {
                self.condition = self.condition.or(Some(offset));
                Ok(())
            }
            Node::If => self.begin(Holder::If),
            Node::While => self.begin(Holder::While),
            Node::Then => self.then(rt),
            Node::Else => self.nested(rt, None, "ELSE"),
            Node::Do => {
                self.begin(Holder::Do)?;
                self.nested(rt, None, "DO")
            }
            Node::Done => self.until(rt),
            Node::For(name, offset, opened) => self.counted(rt, name, offset, opened),
            Node::Case(offset) => {
                self.begin(Holder::Case(0))?;
                self.nested(rt, Some(offset), "CASE")
            }
            Node::Arm => self.arm(rt),
            Node::Fi | Node::Loop | Node::Drop | Node::Esac => self.end(),
            _ => Ok(()),
        }
    }

    // Prints how many statements there are, how deep they stand, and which names they use.
    fn summary(&self, rt: &HostRuntime) -> anyhow::Result<()> {
        let names = distinct(self.heap, self.uses.as_slice())?;
        let mut text = String::new(self.heap);
        put_names(&mut text, names.as_slice())?;
        println!(rt; "statements {}, deepest {}", self.statements, self.deepest)?;
        println!(rt; "names used: {text}")?;
        Ok(())
    }
}

fn lines(rt: &HostRuntime, source: &[u8], nodes: &[Node]) -> anyhow::Result<()> {
    let mut outline = Outline::new(rt.alloc(), source);
    println!(rt; " line  outline")?;
    for node in nodes {
        outline.entry(rt, *node)?;
    }
    outline.summary(rt)
}

/// Prints an outline of the source in a file: declarations and statements, each with its line and the names that it
/// reads. If the text or the grammar refuses the source, prints why and fails.
pub fn parse(rt: &HostRuntime, path: &str) -> anyhow::Result<()> {
    let source = load(rt, path)?;
    let mut work = Workspace::new(rt.alloc())?;
    match work.read(source.as_slice()) {
        Ok(()) => lines(rt, source.as_slice(), work.nodes()),
        Err(fault) => tell(rt, path, source.as_slice(), fault),
    }
}
