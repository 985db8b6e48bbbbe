// The program `spl`. It turns command words into calls of the libraries.
#![tactic(auto)]

use anyhow::anyhow;
use inspect::map::map;
use inspect::outline::parse;
use inspect::tokens::tokens;
use listing::compile::compile;
use listing::list::list;
use listing::verify::verify;
use protocol::batch::{batch, check};
use runner::run::run;
use runner::trace::trace;
use std::alloc::Global;
use std::env;

const USAGE: &str = "usage: spl COMMAND [then COMMAND]...
  tokens SOURCE  print the tokens of a source, each with its place
  parse SOURCE   print an outline of a source: its declarations and statements, each with its line
  map SOURCE     print the names of a source: their cells, and where each is declared, written and read
  compile SOURCE IMAGE
                 compile a source, write its image into a file, and print its figures
  list FILE      print what an image holds: its figures, then each instruction; or a source with the code of its lines
  verify SOURCE IMAGE
                 say whether an image is the one of a source, and if not, where they part
  run FILE [--cells WORD,WORD...] [--limit STEPS]
                 run a source or an image from these words, and print how it ends and its cells before and after
  trace FILE [--cells WORD,WORD...] [--limit STEPS]
                 run it and print each step: the instruction, the words stacked before it, and the write that it makes
  check TABLE    answer the requests of a table, and compare with the answers there
  batch          answer the requests on standard input, one line to each
";

fn usage(rt: &HostRuntime) -> anyhow::Result<()> {
    rt.print(USAGE)?;
    Ok(())
}

// Makes one command with its arguments.
fn command(rt: &HostRuntime, words: &[String]) -> anyhow::Result<()> {
    match words {
        [] => usage(rt),
        [name] if name.as_str() == "batch" => batch(rt),
        [name, path] if name.as_str() == "tokens" => tokens(rt, path.as_str()),
        [name, path] if name.as_str() == "parse" => parse(rt, path.as_str()),
        [name, path] if name.as_str() == "map" => map(rt, path.as_str()),
        [name, path, target] if name.as_str() == "compile" => {
            compile(rt, path.as_str(), target.as_str())
        }
        [name, path, target] if name.as_str() == "verify" => {
            verify(rt, path.as_str(), target.as_str())
        }
        [name, path, options @ ..] if name.as_str() == "run" => { run(rt, path.as_str(), options) }
        [name, path, options @ ..] if name.as_str() == "trace" => {
            trace(rt, path.as_str(), options)
        }
        [name, path] if name.as_str() == "check" => check(rt, path.as_str()),
        [name, path] if name.as_str() == "list" => list(rt, path.as_str()),
        _ => {
            usage(rt)?;
            Err(anyhow!("there is no such command, or its arguments are too few or too many"))
        }
    }
}

// Makes the commands, which `then` keeps apart, one after another, up to the first that fails.
fn commands(rt: &HostRuntime, heap: Global) -> anyhow::Result<()> {
    let mut words = Vec::new(heap);
    for word in env::args(rt)?.skip(1) {
        if word.as_str() == "then" {
            if words.is_empty() {
                return Err(anyhow!("a command is missing before `then`"));
            }
            command(rt, words.as_slice())?;
            words.clear();
        } else {
            words.push(word)?;
        }
    }
    command(rt, words.as_slice())
}

fn main(rt: HostRuntime) -> anyhow::Result<()> {
    commands(&rt, rt.alloc())
}
