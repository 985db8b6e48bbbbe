// The compiler: from the bytes of a source to its code, cells and depth.
#![tactic(auto)]

pub mod compiler;
pub mod fault;
pub mod laws;
