// The image of a code: its cells, depth and instructions as bytes, written and read back.
#![tactic(auto)]

mod cursor;
mod entries;
pub mod fault;
mod groups;
pub mod laws;
pub mod read;
pub mod write;
