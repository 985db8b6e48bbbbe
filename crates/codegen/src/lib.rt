// Code from the typed list, in two passes: forward for the indices, backward for the instructions.
#![tactic(auto)]

mod backward;
pub mod emitter;
mod forward;
pub mod laws;
mod measure;
pub mod placed;
