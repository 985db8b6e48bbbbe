// Words, and what every layer shares: the limits, refusals, instructions and codes, the bounded list, the list with reserved
// room, and the stores.
#![tactic(auto)]

pub mod code;
pub mod instr;
pub mod limits;
pub mod list;
pub mod op;
pub mod refusal;
pub mod reserved;
pub mod store;
