// What the commands of the program share: sources and places in them, printed refusals, compiled sources, the line
// of each instruction, and the fields of a request.
#![tactic(auto)]

pub mod compiled;
pub mod fields;
pub mod instruction;
pub mod line_map;
pub mod mark;
pub mod names;
pub mod source;
pub mod tokens;
