// From the tokens of a source to its syntax list.
#![tactic(auto)]

mod class;
pub mod fault;
pub mod lexeme;
pub mod node;
pub mod reader;
mod scan;
pub mod value_type;
pub mod workspace;
