// The commands that print the code of a source or of an image, that compile, and that verify.
#![tactic(auto)]

mod annotated;
pub mod compile;
pub mod list;
pub mod verify;
