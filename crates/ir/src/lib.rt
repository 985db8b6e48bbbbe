// The typed list of a source: names are replaced by cells, and operators by the instructions of their type.
#![tactic(auto)]

pub mod item;
