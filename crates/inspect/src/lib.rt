// The commands that show what stands in a source: its tokens, its outline, its names.
#![tactic(auto)]

pub mod map;
pub mod outline;
pub mod tokens;
