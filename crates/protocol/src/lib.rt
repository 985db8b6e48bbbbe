// Requests and their answers, one line each, from standard input or from a table.
#![tactic(auto)]

pub mod batch;
mod sessions;
