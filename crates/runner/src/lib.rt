// The commands that run a source or an image: to its end, or step by step.
#![tactic(auto)]

mod routine;
pub mod run;
mod settings;
pub mod trace;
