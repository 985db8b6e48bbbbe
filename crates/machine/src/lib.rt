// The card machine, by its sessions: start, resume, look, report, and the single run. One step of its instructions works over an
// operand stack and a store of words.
#![tactic(auto)]

mod act;
pub mod call;
pub mod ending;
pub mod fault;
pub mod laws;
mod machine;
pub mod registers;
pub mod resources;
pub mod session;
pub mod single;
mod view;
