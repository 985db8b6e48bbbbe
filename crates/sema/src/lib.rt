// The stages after the grammar: names, types and sizes; then the typed list of a source that passes them.
#![tactic(auto)]

mod arms;
mod emission;
pub mod entry;
pub mod fault;
pub mod laws;
mod names;
mod operands;
mod rule;
mod sizes;
mod stages;
pub mod table;
mod types;
mod view;
pub mod workspace;
mod write;
