// How the text of a source is cut into tokens, and the search by name.
#![tactic(auto)]

pub mod fault;
pub mod name;
pub mod reserved;
pub mod scan;
pub mod search;
pub mod token;
pub mod whole;
