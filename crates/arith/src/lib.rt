// Operations on words of sixteen bits, of which bit 0 is the highest. Each operation gives an answer or a stop.
#![tactic(auto)]

pub mod bits;
pub mod field;
pub mod integer;
pub mod laws;
pub mod logical;
pub mod relation;
pub mod shift;
pub mod stop;
