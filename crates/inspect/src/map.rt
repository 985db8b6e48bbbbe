// `spl map`: the names of a source, their cells, and where each name is declared, written and read.
use lexer::name::Name;
use lexer::search::{Named, find};
use parser::node::Node;
use report::compiled::compile_file;
use report::source::Lines;
use sema::entry::{NameEntry, Sort};
use std::alloc::Global;
use std::fmt::Write;

#[derive(Clone, Copy, PartialEq, Eq, Debug)]
enum How {
    Declared,
    Written,
    Read,
}

// One use of a name.
#[derive(Clone, Copy)]
struct Mention {
    // the index of the name in the table of names
    name: usize,
    how: How,
    // the offset of the use in the source
    offset: usize,
}

// The name that a node has, what is done to it, and its offset. The variable of a FOR is written at the node of
// its first value. An assignment to a field has a node before it that reads the word. The node of a subscript
// left of `:=` is passed over, since the node of the assignment has the name too.
fn mentioned(node: Node) -> Option<(Name, How, usize)> {
    match node {
        Node::Simple(name, _, offset) | Node::Array(name, _, _, _, offset, _) => {
            Some((name, How::Declared, offset))
        }
        Node::Store(name, offset, _)
        | Node::StoreAt(name, offset, _)
        | Node::First(name, offset, _) => Some((name, How::Written, offset)),
        Node::Load(name, offset) | Node::Fetch(name, offset) => Some((name, How::Read, offset)),
        Node::Index(name, offset, _) | Node::FetchAt(name, offset, _) => {
            Some((name, How::Read, offset))
        }
        _ => None,
    }
}

// The uses of names, in the order of their offsets.
fn mentions(heap: Global, nodes: &[Node], names: &[NameEntry]) -> anyhow::Result<Vec<Mention>> {
    let mut list = Vec::new(heap);
    for node in nodes {
        if let Some((name, how, offset)) = mentioned(*node) {
            if let Some(name) = find(names, name.name()) {
                list.push(Mention { name, how, offset })?;
            }
        }
    }
    list.sort_by_key(|mention| mention.offset)?;
    Ok(list)
}

#[derive(Drop)]
struct NameMap<'a> {
    heap: Global,
    lines: Lines<'a>,
    names: &'a [NameEntry],
    mentions: Vec<Mention>,
}

impl NameMap<'_> {
    // Appends `what`, and the lines on which that is done to a name, each line once.
    fn put_lines(&self, out: &mut String, name: usize, how: How, what: &str) -> anyhow::Result<()> {
        let mut last = 0;
        for mention in self.mentions.as_slice() {
            if mention.name != name || mention.how != how {
                continue;
            }
            let line = self.lines.at(mention.offset);
            if line == last {
                continue;
            }
            out.push_str(if last == 0 { what } else { ", " })?;
            write!(out, "{line}")?;
            last = line;
        }
        Ok(())
    }

    fn row(&self, rt: &HostRuntime, index: usize, entry: &NameEntry) -> anyhow::Result<()> {
        let name = std::str::from_utf8(entry.name())?;
        let mut sort = String::new(self.heap);
        match entry.sort {
            Sort::Simple => sort.push_str("simple")?,
            Sort::Array => write!(sort, "(0:{})", entry.cells.saturating_sub(1))?,
        }
        let mut uses = String::new(self.heap);
        self.put_lines(&mut uses, index, How::Declared, "declared ")?;
        self.put_lines(&mut uses, index, How::Written, "; written ")?;
        self.put_lines(&mut uses, index, How::Read, "; read ")?;
        println!(rt;
            "{name:<15} {:<7} {sort:<9} {:>5} {:>5}  {uses}",
            entry.value_type, entry.cell, entry.cells
        )?;
        Ok(())
    }

    fn is_used(&self, index: usize) -> bool {
        self.mentions.as_slice().iter().any(|mention| mention.name == index
            && mention.how != How::Declared)
    }

    fn put_unused(&self, out: &mut String) -> anyhow::Result<()> {
        let mut link = "";
        for (index, entry) in self.names.iter().enumerate() {
            if !self.is_used(index) {
                let name = std::str::from_utf8(entry.name())?;
                write!(out, "{link}{name}")?;
                link = ", ";
            }
        }
        if link.is_empty() {
            out.push_str("none")?;
        }
        Ok(())
    }
}

fn arrays(names: &[NameEntry]) -> usize {
    names
        .iter()
        .filter(|entry| entry.sort == Sort::Array)
        .count()
}

fn rows(rt: &HostRuntime, map: &NameMap<'_>, cells: u16) -> anyhow::Result<()> {
    println!(rt; "name            type    sort       cell cells  lines")?;
    for (index, entry) in map.names.iter().enumerate() {
        map.row(rt, index, entry)?;
    }
    let count = map.names.len();
    let arrays = arrays(map.names);
    println!(rt; "names {count}, arrays {arrays}, cells {cells}")?;
    let mut unused = String::new(map.heap);
    map.put_unused(&mut unused)?;
    println!(rt; "never used: {unused}")?;
    Ok(())
}

/// Prints the names of the source in a file: type, bounds, cells, the lines of each use, and which names are never
/// used. If the source is refused, prints why and fails.
pub fn map(rt: &HostRuntime, path: &str) -> anyhow::Result<()> {
    let heap = rt.alloc();
    let compiled = compile_file(rt, path)?;
    let map = NameMap {
        heap,
        lines: Lines::of(heap, compiled.source())?,
        names: compiled.names(),
        mentions: mentions(heap, compiled.nodes(), compiled.names())?,
    };
    rows(rt, &map, compiled.code().cells)
}
