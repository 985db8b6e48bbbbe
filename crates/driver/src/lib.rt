// A trial compiles a source, starts a session with its code, and makes a list of calls.
#![tactic(auto)]

pub mod fault;
pub mod laws;
pub mod trial;
